// Scripts: calls with the answers that they must meet, for any store.
mod benches;

use heap::Fault;
use std::process::Abort;
use store::Store;

// A call of a store. Data and no closures, so that a script is a constant that any make can be run on.
#[derive(Clone, Copy)]
enum Call {
    Read(u32),
    Write(u32, u32),
    Free(u32),
    Take,
    Top,
    Left,
    Live(u32),
}

// What a call answers that is not refused.
#[derive(Clone, Copy, PartialEq, Eq, Debug)]
enum Answer {
    Done,
    Number(u16),
    Flag(bool),
}

// The number, place and kind of a fault.
#[derive(Clone, Copy, PartialEq, Eq, Debug)]
struct Refused(u16, usize, u16);

impl From<Fault> for Refused {
    fn from(fault: Fault) -> Refused {
        Refused(fault.number(), fault.place, fault.kind)
    }
}

fn ask<S: Store>(store: &mut S, call: Call) -> Result<Answer, Refused> {
    let answer = match call {
        Call::Read(a) => Answer::Number(store.read(a)?),
        Call::Write(a, l) => {
            store.write(a, l)?;
            Answer::Done
        }
        Call::Free(a) => {
            store.free(a)?;
            Answer::Done
        }
        Call::Take => Answer::Number(store.take()?),
        Call::Top => Answer::Number(store.top()),
        Call::Left => Answer::Number(store.left()),
        Call::Live(a) => Answer::Flag(store.live(a)),
    };
    Ok(answer)
}

// A call and the answer, or the refusal, that it must meet.
type Step = (Call, Result<Answer, Refused>);

// Makes the calls one after another, and compares each answer.
fn run<S: Store>(rt: &impl Abort, store: &mut S, script: &[Step]) {
    for (call, answer) in script {
        assert_eq!(rt; ask(store, *call), *answer);
    }
}
