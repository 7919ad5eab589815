// What the makes of store share: the lengths that a lent list can have, and the numbers that can be links.
ghost use Rattle.std.specs.Prelude.{◌≡◌, length};
ghost use Rattle.store.specs.Shared.{cleared_up_to, fitting_up_to, LinksTo, TestsUpTo, usable_up_to};

use heap::{Fault, Problem};

// The highest number that can be a link.
const LAST_LINK: u32 = 65534;

// Whether a store of at most so many places can lie in a list of this length.
pub fn fits<const MOST: usize>(len: usize) -> bool
    ensures { result ≡ fitting_up_to MOST len }
{
    1 <= len && len <= MOST
}

// The places that cells can lie in: all of the list, and none if it has a wrong length.
pub fn usable<const MOST: usize, T>(places: &[T]) -> &[T]
    ensures { result.now ≡ usable_up_to MOST places.now }
{
    if fits::<MOST>(places.len()) {
        places
    } else {
        &places[..0]
    }
}

// Makes all places blank, if there is a right number of them. A loop and no `fill`, which at a type parameter asks that no clone fails.
pub fn clear<const MOST: usize, T: Copy>(places: &mut [T], blank: T)
    ensures { places.new ≡ cleared_up_to MOST blank places.old }
{
    if !fits::<MOST>(places.len()) {
        return;
    }
    for place in places.iter_mut() {
        *place = blank;
    }
}

// The test before making, for a make of this kind: whether the list has a length that a store can have.
pub fn check<const MOST: usize, T>(places: &[T], kind: u16) -> Result<(), Fault>
    ensures { TestsUpTo MOST kind (length places.now) result }
{
    let len = places.len();
    if fits::<MOST>(len) {
        Ok(())
    } else {
        Err(Fault::of_store(kind, Problem::ListLength, len))
    }
}

// A number as a link, for a make of this kind.
pub fn link(number: u32, kind: u16) -> Result<u16, Fault>
    ensures { LinksTo kind number result }
{
    if number > LAST_LINK {
        return Err(Fault::of_store(kind, Problem::LinkRange, number as usize));
    }
    Ok(number as u16)
}
