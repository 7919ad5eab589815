// Making a ledger, and the test before it.
ghost use Rattle.std.specs.Prelude.{◌≡◌, true, false, length, MatchResult};
ghost use Rattle.heap.specs.Faults.{report};
ghost use Rattle.ledger.specs.Records.{cleared, fitting};
ghost use Rattle.store.specs.Meanings.{refusal};

use super::{Ledger, MOST, TOP};
use crate::records::Record;
use heap::Fault;
use store::{Store, shared};

// The test before making: whether the list has a length that a ledger can have.
pub fn check(records: &[Record]) -> Result<(), Fault>
    ensures { MatchResult result (λ _. fitting (length records.now) ≡ true) (λ f. (fitting (length records.now) ≡ false) × (report f ≡ refusal 144 (length records.now) 2)) }
{
    shared::check::<MOST, Record>(records, <Ledger<'_> as Store>::KIND)
}

impl<'a> Ledger<'a> {
    // The ledger in these records, without a live cell; a list of a wrong length is left as it is, now and by every call.
    #[tactic(auto, using(crate::proofs::Usable::cleared_sound))]
    pub fn over(records: &'a mut [Record]) -> Ledger<'a>
        ensures records { result.records.now ≡ cleared records.old }
        ensures last { result.last ≡ 4095 }
        ensures home { result.records.ghost_name ≡ records.entry.ghost_name }
    {
        shared::clear::<MOST, Record>(records, Record::UNUSED);
        // 4,095 stands for none given yet, since the address behind it is 1, the first.
        Ledger { records, last: TOP }
    }
}
