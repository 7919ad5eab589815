// What a lender's list holds once the store over it is let go.
ghost use Rattle.std.specs.Prelude.{◌≡◌, ◌-◌, IfOk, Some, MatchResult, slice_set};
ghost use Rattle.bench.specs.Words.{cells, cleared};

use bench::Bench;
use heap::Fault;
use store::Store;

// After making and one take: all words are dead but that of the cell.
pub fn after_take(words: &mut [u16]) -> Result<u16, Fault>
    ensures { MatchResult result (λ a. words.new ≡ slice_set (cleared words.old) (a - 1) 0) (λ _. words.new ≡ cleared words.old) }
{
    let mut bench = Bench::over(words);
    bench.take()
}

// After code over any store: the first cell, linked to the second, and the second have changed links.
fn after_swap(words: &mut [u16]) -> Result<(u32, u32), Fault>
    ensures { IfOk result (λ p. (cells words.new p.0 ≡ Some 0) × (cells words.new p.1 ≡ Some p.1)) }
{
    let mut bench = Bench::over(words);
    let first = u32::from(bench.take()?);
    let second = u32::from(bench.take()?);
    bench.write(first, second)?;
    walk::swap_links(&mut bench, first, second)?;
    Ok((first, second))
}
