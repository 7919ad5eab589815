// Examples: what a ledger answers, at every edge of its addresses, links and lengths, and what its lender knows.
#![tactic(auto)]

ghost use Rattle.std.specs.Prelude.{◌≡◌, set, MatchResult};
ghost use Rattle.ledger.specs.Records.{cleared, place};

use heap::Fault;
use ledger::{Ledger, Record};
use store::Store;

// Takes one cell: the lender knows its records when the store is let go.
pub fn one_taken(records: &mut [Record]) -> Result<u16, Fault>
    ensures { MatchResult result (λ a. records.new ≡ set (cleared records.old) (place (cleared records.old) 0) (record { address = a; link = 0 })) (λ _. records.new ≡ cleared records.old) }
{
    let mut s = Ledger::over(records);
    s.take()
}

#[cfg(test)]
mod tests {
    use heap::Fault;
    use ledger::{Ledger, Record};
    use store::Store;

    // What the lent records hold before.
    const STALE: Record = Record {
        address: 7,
        link: 7,
    };

    fn record(address: u16, link: u16) -> Record {
        Record { address, link }
    }

    // An answer, or the number of a refusal with its place.
    fn told<T>(answer: Result<T, Fault>) -> Result<T, (u16, usize)> {
        answer.map_err(|fault| (fault.number(), fault.place))
    }

    #[test]
    fn capacity_one(rt: HostRuntime) {
        let mut records = [STALE; 1];
        {
            let mut s = Ledger::over(&mut records);
            assert_eq!(rt; s.top(), 4095);
            assert_eq!(rt; s.left(), 1);
            assert_eq!(rt; told(s.take()), Ok(1));
            assert_eq!(rt; told(s.take()), Err((143, 0)));
            assert_eq!(rt; told(s.write(1, 65534)), Ok(()));
            assert_eq!(rt; told(s.read(1)), Ok(65534));
            assert_eq!(rt; told(s.free(1)), Ok(()));
            assert_eq!(rt; told(s.free(1)), Err((141, 1)));
            assert_eq!(rt; told(s.take()), Ok(2));
        }
        assert!(rt; records == [record(2, 0)]);
    }

    // Freed records are used again from the first on, and addresses go on behind the last one given.
    #[test]
    fn full_and_freed(rt: HostRuntime) {
        let mut records = [STALE; 3];
        {
            let mut s = Ledger::over(&mut records);
            assert_eq!(rt; told(s.take()), Ok(1));
            assert_eq!(rt; told(s.take()), Ok(2));
            assert_eq!(rt; told(s.take()), Ok(3));
            assert_eq!(rt; told(s.take()), Err((143, 0)));
            assert_eq!(rt; told(s.free(2)), Ok(()));
            assert_eq!(rt; told(s.free(1)), Ok(()));
            assert_eq!(rt; told(s.free(3)), Ok(()));
            assert_eq!(rt; s.left(), 3);
            assert_eq!(rt; told(s.take()), Ok(4));
            assert_eq!(rt; told(s.write(4, 9)), Ok(()));
        }
        assert!(rt; records == [record(4, 9), Record::UNUSED, Record::UNUSED]);
    }

    #[test]
    fn any_number(rt: HostRuntime) {
        let mut records = [STALE; 2];
        let mut s = Ledger::over(&mut records);
        assert_eq!(rt; told(s.take()), Ok(1));
        assert!(rt; s.live(1) && !s.live(0) && !s.live(4096) && !s.live(65535));
        assert_eq!(rt; told(s.read(0)), Err((141, 0)));
        assert_eq!(rt; told(s.read(4096)), Err((141, 4096)));
        assert_eq!(rt; told(s.free(65535)), Err((141, 65535)));
        assert_eq!(rt; told(s.write(65537, 0)), Err((141, 65537)));
        assert_eq!(rt; told(s.write(0, 65535)), Err((141, 0)));
        assert_eq!(rt; told(s.write(1, 65535)), Err((142, 65535)));
        assert_eq!(rt; told(s.write(1, 4096)), Ok(()));
        assert_eq!(rt; told(s.read(1)), Ok(4096));
    }

    // Behind 4,095 comes 1, or the first address behind it that is not live.
    #[test]
    fn wrap(rt: HostRuntime) {
        let mut records = [STALE; 2];
        let mut s = Ledger::over(&mut records);
        assert_eq!(rt; told(s.take()), Ok(1));
        for a in 2..4096 {
            assert_eq!(rt; told(s.take()), Ok(a));
            assert_eq!(rt; told(s.free(u32::from(a))), Ok(()));
        }
        assert_eq!(rt; told(s.take()), Ok(2));
        assert_eq!(rt; told(s.free(1)), Ok(()));
        assert_eq!(rt; told(s.take()), Ok(3));
    }

    // A list of a wrong length is refused, and a store over it has no cell and writes nothing.
    #[test]
    fn wrong_lengths(rt: HostRuntime) {
        let mut none: [Record; 0] = [];
        assert_eq!(rt; told(ledger::check(&none)), Err((144, 0)));
        assert_eq!(rt; told(Ledger::over(&mut none).take()), Err((143, 0)));
        let mut long = [STALE; 513];
        assert_eq!(rt; told(ledger::check(&long)), Err((144, 513)));
        assert_eq!(rt; told(ledger::check(&long[0..512])), Ok(()));
        {
            let mut s = Ledger::over(&mut long);
            assert_eq!(rt; s.top(), 0);
            assert_eq!(rt; s.left(), 0);
            assert_eq!(rt; told(s.read(7)), Err((141, 7)));
            assert_eq!(rt; told(s.write(7, 1)), Err((141, 7)));
            assert_eq!(rt; told(s.free(7)), Err((141, 7)));
            assert_eq!(rt; told(s.take()), Err((143, 0)));
        }
        assert!(rt; long == [STALE; 513]);
    }

    #[test]
    fn kinds(rt: HostRuntime) {
        let mut records = [STALE; 1];
        let mut s = Ledger::over(&mut records);
        assert_eq!(rt; s.read(1).map_err(|fault| fault.kind), Err(2));
        assert_eq!(rt; <Ledger<'_> as Store>::KIND, 2);
    }
}
