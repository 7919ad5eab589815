// Examples: what a pile, a fault and a walk's test answer.
#![tactic(auto)]

#[cfg(test)]
mod tests {
    use heap::{Fault, Full, Pile, Problem};
    use std::test::Fail;

    #[derive(Clone, Copy, PartialEq, Eq, Debug)]
    struct Mark {
        row: u8,
        live: bool,
    }

    #[test]
    fn no_slot(rt: HostRuntime) {
        let mut slots: [u16; 0] = [];
        let mut pile = Pile::over(&mut slots);
        assert_eq!(rt; pile.room(), 0);
        assert_eq!(rt; pile.push(7), Err(Full));
        assert_eq!(rt; pile.pop(), None);
    }

    #[test]
    fn one_slot(rt: HostRuntime) {
        let low = Mark { row: 1, live: true };
        let high = Mark {
            row: 2,
            live: false,
        };
        let mut slots = [low; 1];
        let mut pile = Pile::over(&mut slots);
        assert_eq!(rt; pile.pop(), None);
        assert_eq!(rt; pile.push(high), Ok(()));
        assert_eq!(rt; pile.push(low), Err(Full));
        assert_eq!(rt; pile.len(), 1);
        assert_eq!(rt; pile.pop(), Some(high));
        assert_eq!(rt; pile.len(), 0);
    }

    // The last in is the first out; a refused push and a pop leave the slots as they are.
    #[test]
    fn three_slots(rt: HostRuntime) {
        let mut slots = [0u16; 3];
        {
            let mut pile = Pile::over(&mut slots);
            assert_eq!(rt; pile.push(4), Ok(()));
            assert_eq!(rt; pile.push(5), Ok(()));
            assert_eq!(rt; pile.push(6), Ok(()));
            assert_eq!(rt; pile.push(7), Err(Full));
            assert_eq!(rt; pile.pop(), Some(6));
            assert_eq!(rt; pile.pop(), Some(5));
            assert_eq!(rt; pile.pop(), Some(4));
            assert_eq!(rt; pile.pop(), None);
        }
        assert!(rt; slots == [4, 5, 6]);
    }

    #[test]
    fn numbers(rt: HostRuntime) {
        assert_eq!(rt; Fault::at(Problem::TextLength, 0).number(), 101);
        assert_eq!(rt; Fault::at(Problem::DeadCell, 3).number(), 131);
        let fault = Fault::at(Problem::Budget, 12);
        assert_eq!(rt; fault.number(), 155);
        assert_eq!(rt; fault.place, 12);
        assert_eq!(rt; fault.row, 0);
    }

    #[test]
    fn shown(rt: HostRuntime) -> Result<(), Fail> {
        let fault = Fault::of_store(2, Problem::NotLive, 4096);
        assert_eq!(rt; fault.number(), 141);
        assert_eq!(rt; fault.kind, 2);
        let text = format!(in rt.alloc(); "{fault}")?;
        assert_eq!(rt; text.as_str(), "refused: 141 at 4096, kind 2");
        Ok(())
    }

    #[test]
    fn ends(rt: HostRuntime) {
        assert!(rt; heap::at_end(3, 3));
        assert!(rt; !heap::at_end(3, 0));
    }
}
