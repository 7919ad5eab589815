// What a bench does: the answers of a store, and what each call leaves in the words.
ghost use Rattle.std.specs.Prelude.{◌≡◌, [], ◌∷◌, ◌+◌, ◌-◌, ◌<◌, true, length, MatchOption, MatchResult, slice_set};
ghost use Rattle.bench.specs.Benches.{kinds_of, lender_of, store_of, words_of};
ghost use Rattle.bench.specs.Bounds.{bounded};
ghost use Rattle.bench.specs.Words.{bench_kinds, held, HighestDead, LiveAbove, size, usable};
ghost use Rattle.store.specs.Meanings.{Dead, Frees, is_live, Keeps, live_cells, Reads, Takes, Writes};

use super::{Bench, DEAD, MOST};
use heap::{Fault, Problem};
use store::{Store, shared};

impl Bench<'_> {
    // The words that make cells.
    fn usable(&self) -> &[u16]
        ensures { result.now ≡ usable (words_of self.now) }
    {
        shared::usable::<MOST, u16>(self.words)
    }

    // Whether this is the address of a live cell.
    fn holds(&self, address: u32) -> bool
        ensures { result ≡ held (words_of self.now) address }
    {
        let words = self.usable();
        let a = address as usize;
        a >= 1 && a <= words.len() && words[a - 1] != DEAD
    }

    // The place of a live cell's word.
    fn place(&self, address: u32) -> Result<usize, Fault>
        ensures { MatchResult result (λ i. (held (words_of self.now) address ≡ true) × (i + 1 ≡ address)) (λ f. Dead (store_of self.now) bench_kinds (address ∷ []) address f (store_of self.now)) }
    {
        let a = address as usize;
        if self.holds(address) {
            Ok(a - 1)
        } else {
            Err(Fault::of_store(Self::KIND, Problem::NotLive, a))
        }
    }

    // Gives the cell of a word a link; it is live then.
    fn put(&mut self, place: usize, link: u16)
        requires { (place < size (length (words_of self.old))) × (link < 65535) }
        ensures after { words_of self.new ≡ slice_set (words_of self.old) place link }
        ensures hint { self.new.hint ≡ self.old.hint }
        ensures home { lender_of self.new ≡ lender_of self.old }
    {
        self.words[place] = link;
    }

    // The place of the highest dead cell's word. A loop and no `rposition`: that a word has 16 bits is known where it is read here.
    fn highest_dead(&self) -> Option<usize>
        ensures { MatchOption result (LiveAbove (words_of self.now) 0) (λ i. HighestDead (words_of self.now) (i + 1)) }
    {
        for place in (0..self.hint).rev() {
            if self.words[place] == DEAD {
                return Some(place);
            }
        }
        None
    }

    // How many cells are live. A `for`, which takes a third of the time of `filter` and `count`.
    fn count(&self) -> usize
        ensures { result ≡ live_cells (store_of self.now) }
    {
        let mut n = 0;
        for word in self.usable() {
            if *word != DEAD {
                n += 1;
            }
        }
        n
    }
}

// Each call states the trait's promises again, at the ghost members of this make, and then what it leaves in the words: that is its promise to the lender, so it stands in each.
impl<'a> Store for Bench<'a> {
    const KIND: u16 = 1;

    ghost meaning = { store_of };

    ghost bounds = { λ s. bounded (words_of s) };

    ghost kinds = { kinds_of };

    ghost home = { lender_of };

    fn read(&mut self, address: u32) -> Result<u16, Fault>
        ensures answer { Reads (store_of self.old) bench_kinds address result (store_of self.new) }
        ensures keeps { Keeps kinds_of lender_of self.old self.new }
        ensures words { words_of self.new ≡ words_of self.old }
    {
        let place = self.place(address)?;
        Ok(self.words[place])
    }

    fn write(&mut self, address: u32, link: u32) -> Result<(), Fault>
        ensures answer { Writes (store_of self.old) bench_kinds address link result (store_of self.new) }
        ensures keeps { Keeps kinds_of lender_of self.old self.new }
        ensures words { MatchResult result (λ _. words_of self.new ≡ slice_set (words_of self.old) (address - 1) link) (λ _. words_of self.new ≡ words_of self.old) }
    {
        let place = self.place(address)?;
        let link = shared::link(link, Self::KIND)?;
        self.put(place, link);
        Ok(())
    }

    fn free(&mut self, address: u32) -> Result<(), Fault>
        ensures answer { Frees (store_of self.old) bench_kinds address result (store_of self.new) }
        ensures keeps { Keeps kinds_of lender_of self.old self.new }
        ensures words { MatchResult result (λ _. words_of self.new ≡ slice_set (words_of self.old) (address - 1) 65535) (λ _. words_of self.new ≡ words_of self.old) }
    {
        let place = self.place(address)?;
        self.words[place] = DEAD;
        self.hint = self.hint.max(place + 1);
        Ok(())
    }

    fn take(&mut self) -> Result<u16, Fault>
        ensures answer { Takes (store_of self.old) bench_kinds result (store_of self.new) }
        ensures keeps { Keeps kinds_of lender_of self.old self.new }
        ensures highest { MatchResult result (λ a. HighestDead (words_of self.old) a) (λ _. LiveAbove (words_of self.old) 0) }
        ensures words { MatchResult result (λ a. words_of self.new ≡ slice_set (words_of self.old) (a - 1) 0) (λ _. words_of self.new ≡ words_of self.old) }
    {
        let Some(place) = self.highest_dead() else {
            self.hint = 0;
            return Err(Fault::of_store(Self::KIND, Problem::NoCell, 0));
        };
        self.put(place, 0);
        self.hint = place;
        Ok(place as u16 + 1)
    }

    fn top(&mut self) -> u16
        ensures value { result ≡ (store_of self.old).top }
        ensures keeps { Keeps kinds_of lender_of self.old self.new }
        ensures words { words_of self.new ≡ words_of self.old }
    {
        self.usable().len() as u16
    }

    fn left(&mut self) -> u16
        ensures value { result ≡ (store_of self.old).capacity - live_cells (store_of self.old) }
        ensures keeps { Keeps kinds_of lender_of self.old self.new }
        ensures words { words_of self.new ≡ words_of self.old }
    {
        (self.usable().len() - self.count()) as u16
    }

    fn live(&mut self, address: u32) -> bool
        ensures value { result ≡ is_live (store_of self.old) address }
        ensures keeps { Keeps kinds_of lender_of self.old self.new }
        ensures words { words_of self.new ≡ words_of self.old }
    {
        self.holds(address)
    }
}
