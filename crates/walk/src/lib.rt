// Code over any store: walks along links, and changes of them.
#![tactic(auto)]

ghost use Rattle.std.specs.Prelude.{◌≡◌, true, MatchResult};
ghost use Rattle.heap.specs.Heaps.{put};
ghost use Rattle.store.specs.Meanings.{Keeps, with_heap, writable};
ghost use Rattle.walk.specs.Ways.{Linked, steps, Swaps, Unswapped};

use heap::Fault;
use store::Store;

// The links of two cells, or the fault of the first of them that is not live.
fn links<S: Store>(store: &mut S, first: u32, second: u32) -> Result<(u16, u16), Fault>
    ensures answer { MatchResult result (λ p. Linked (S.meaning store.old) first second p.0 p.1 (S.meaning store.new)) (λ f. Unswapped (S.meaning store.old) (S.kinds store.old) first second f (S.meaning store.new)) }
    ensures keeps { Keeps S.kinds S.home store.old store.new }
{
    let x = store.read(first)?;
    let y = store.read(second)?;
    Ok((x, y))
}

// Gives a live cell another link, which is not refused.
fn relink<S: Store>(store: &mut S, address: u32, link: u16)
    requires { writable (S.meaning store.old) address link ≡ true }
    ensures after { S.meaning store.new ≡ with_heap (S.meaning store.old) (put (S.meaning store.old).heap address link) }
    ensures keeps { Keeps S.kinds S.home store.old store.new }
{
    let _ = store.write(address, u32::from(link));
}

// Two cells change links. Nothing changes if one of them is not live.
pub fn swap_links<S: Store>(store: &mut S, first: u32, second: u32) -> Result<(), Fault>
    ensures answer { Swaps (S.meaning store.old) (S.kinds store.old) first second result (S.meaning store.new) }
    ensures keeps { Keeps S.kinds S.home store.old store.new }
{
    let (x, y) = links(store, first, second)?;
    relink(store, first, y);
    relink(store, second, x);
    Ok(())
}

// How many live cells a walk along the links passes, in at most so many steps.
pub fn follow<S: Store>(store: &mut S, from: u32, most: u32) -> u32
    ensures value { result ≡ steps (S.meaning store.old).heap most from }
    ensures same { S.meaning store.new ≡ S.meaning store.old }
    ensures keeps { Keeps S.kinds S.home store.old store.new }
{
    let mut at = from;
    for count in 0..most {
        let Ok(link) = store.read(at) else {
            return count;
        };
        at = u32::from(link);
    }
    most
}
