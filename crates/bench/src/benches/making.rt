// Making a bench, and the test before it.
ghost use Rattle.std.specs.Prelude.{◌≡◌, length};
ghost use Rattle.bench.specs.Benches.{lender_of, store_of, words_of};
ghost use Rattle.bench.specs.Words.{cleared, Tests};
ghost use Rattle.heap.specs.Heaps.{Empty};

use super::{Bench, DEAD, MOST};
use heap::Fault;
use store::{Store, shared};

// The test before making: whether the list has a length that a bench can have.
pub fn check(words: &[u16]) -> Result<(), Fault>
    ensures { Tests (length words.now) result }
{
    shared::check::<MOST, u16>(words, <Bench<'_> as Store>::KIND)
}

impl<'a> Bench<'a> {
    // The bench in these words, without a live cell; a list of a wrong length is left as it is, now and by every call.
    pub fn over(words: &'a mut [u16]) -> Bench<'a>
        ensures words { words_of result ≡ cleared words.old }
        ensures empty { Empty (store_of result).heap }
        ensures lent { lender_of result ≡ words.entry.ghost_name }
    {
        shared::clear::<MOST, u16>(words, DEAD);
        let hint = shared::usable::<MOST, u16>(words).len();
        Bench { words, hint }
    }
}
