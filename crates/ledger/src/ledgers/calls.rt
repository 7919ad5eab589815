// What a ledger does: the answers of a store, and what each call leaves in the records.
ghost use Rattle.std.specs.Prelude.{◌≡◌, ℕ, ◌+◌, ◌-◌, ◌<◌, ◌≤◌, true, false, [], ◌∷◌, length, is_some, IfOk, MatchOption, MatchResult, slice_index_or, slice_set};
ghost use Rattle.heap.specs.Heaps.{put, without};
ghost use Rattle.ledger.specs.Bounds.{bounded};
ghost use Rattle.ledger.specs.Ledgers.{kinds_of, lender_of};
ghost use Rattle.ledger.specs.Records.{AllLive, cells, FirstDead, Found, IsCell, IsUnused, ledger_kinds, meant, Mirrors, NextDead, place, size, top_of, unused, usable, used, vacant};
ghost use Rattle.store.specs.Meanings.{Dead, Frees, is_live, Keeps, live_cells, Reads, Takes, with_heap, Writes};

use super::{Ledger, MOST, TOP};
use crate::records::Record;
use heap::{Fault, Problem};
use store::{Store, shared};

impl Ledger<'_> {
    // The records that cells can lie in.
    fn usable(&self) -> &[Record]
        ensures { result.now ≡ usable self.now.records.now }
    {
        shared::usable::<MOST, Record>(self.records)
    }

    // The place of the first record with an address.
    fn find(&self, address: u32) -> Option<usize>
        ensures found { Found self.now.records.now address result }
        ensures mirrors { Mirrors self.now.records.now }
    {
        self.usable()
            .iter()
            .position(|record| address == u32::from(record.address))
    }

    // The place of a live cell's record.
    fn cell(&self, address: u32) -> Result<usize, Fault>
        ensures mirrors { Mirrors self.now.records.now }
        ensures cell { MatchResult result (λ i. IsCell self.now.records.now address i) (λ f. Dead (meant self.now.records.now) ledger_kinds (address ∷ []) address f (meant self.now.records.now)) }
    {
        match self.find(address) {
            Some(place) if address > 0 => Ok(place),
            _ => Err(Fault::of_store(Self::KIND, Problem::NotLive, address as usize)),
        }
    }

    // The place of the first unused record.
    fn first_unused(&self) -> Option<usize>
        ensures { MatchOption result (live_cells (meant self.now.records.now) ≡ size (length self.now.records.now)) (λ i. IsUnused self.now.records.now i) }
    {
        self.find(0)
    }

    // Whether this is the address of a live cell.
    fn holds(&self, address: u32) -> bool
        ensures { result ≡ is_some (cells (usable self.now.records.now) address) }
    {
        self.cell(address).is_ok()
    }

    // How many records are in use. A `for`, which takes two thirds of the time of `filter` and `count`.
    fn count(&self) -> usize
        ensures used { result ≡ used (usable self.now.records.now) }
        ensures live { result ≡ live_cells (meant self.now.records.now) }
        ensures most { result ≤ size (length self.now.records.now) }
    {
        let mut n = 0;
        for record in self.usable() {
            if record.address >= 1 {
                n += 1;
            }
        }
        n
    }

    // The first address from this one on that is not live.
    fn dead_from(&self, from: u16) -> Option<u16>
        requires { (1 ≤ from) × (from ≤ 4096) }
        ensures { MatchOption result (AllLive self.now.records.now from 4096) (λ a. FirstDead self.now.records.now from a) }
    {
        (from..TOP + 1).find(|a| !self.holds(u32::from(*a)))
    }

    // The first address behind the last one given that is not live. A `match`: of what a closure under `or_else` gives the proof would know nothing.
    fn next_dead(&self) -> u16
        ensures { NextDead self.now.records.now self.now.last result }
    {
        match self.dead_from(self.last + 1) {
            Some(a) => a,
            None => self.dead_from(1).unwrap(),
        }
    }

    // Makes a record that of a cell: its own, or one that is not in use.
    fn put(&mut self, i: usize, address: u16, link: u16)
        requires within { i < size (length self.old.records.now) }
        requires low { 1 ≤ address }
        requires high { address ≤ 4095 }
        requires link { link ≤ 65534 }
        requires vacant { vacant self.old.records.now i address ≡ true }
        ensures after { meant self.new.records.now ≡ with_heap (meant self.old.records.now) (put (cells (usable self.old.records.now)) address link) }
        ensures records { self.new.records.now ≡ slice_set self.old.records.now i (record { address = address; link = link }) }
        ensures home { self.new.records.ghost_name ≡ self.old.records.ghost_name }
        ensures last { self.new.last ≡ self.old.last }
    {
        self.records[i] = Record { address, link };
    }

    // Lets the cell of a record go.
    fn clear(&mut self, i: usize)
        requires { i < size (length self.old.records.now) }
        ensures after { meant self.new.records.now ≡ with_heap (meant self.old.records.now) (without (cells (usable self.old.records.now)) (slice_index_or self.old.records.now i unused).address) }
        ensures records { self.new.records.now ≡ slice_set self.old.records.now i unused }
        ensures home { self.new.records.ghost_name ≡ self.old.records.ghost_name }
        ensures last { self.new.last ≡ self.old.last }
    {
        self.records[i] = Record::UNUSED;
    }
}

// Each call states the trait's promises again, at the ghost members of this make, and then what it leaves in the records: that is its promise to the lender, so it stands in each.
impl<'a> Store for Ledger<'a> {
    const KIND: u16 = 2;

    ghost meaning = { λ s. meant s.records.now };

    ghost bounds = { λ s. bounded s.records.now s.kept };

    ghost kinds = { kinds_of };

    ghost home = { lender_of };

    fn read(&mut self, address: u32) -> Result<u16, Fault>
        ensures answer { Reads (meant self.old.records.now) ledger_kinds address result (meant self.new.records.now) }
        ensures keeps { Keeps kinds_of lender_of self.old self.new }
        ensures records { self.new.records.now ≡ self.old.records.now }
        ensures last { self.new.last ≡ self.old.last }
        ensures mirrors { Mirrors self.old.records.now }
    {
        let i = self.cell(address)?;
        Ok(self.records[i].link)
    }

    fn write(&mut self, address: u32, link: u32) -> Result<(), Fault>
        ensures answer { Writes (meant self.old.records.now) ledger_kinds address link result (meant self.new.records.now) }
        ensures keeps { Keeps kinds_of lender_of self.old self.new }
        ensures records { MatchResult result (λ _. self.new.records.now ≡ slice_set self.old.records.now (place self.old.records.now address) (record { address = address; link = link })) (λ _. self.new.records.now ≡ self.old.records.now) }
        ensures last { self.new.last ≡ self.old.last }
    {
        let i = self.cell(address)?;
        let link = shared::link(link, Self::KIND)?;
        self.put(i, address as u16, link);
        Ok(())
    }

    fn free(&mut self, address: u32) -> Result<(), Fault>
        ensures answer { Frees (meant self.old.records.now) ledger_kinds address result (meant self.new.records.now) }
        ensures keeps { Keeps kinds_of lender_of self.old self.new }
        ensures records { MatchResult result (λ _. self.new.records.now ≡ slice_set self.old.records.now (place self.old.records.now address) unused) (λ _. self.new.records.now ≡ self.old.records.now) }
        ensures last { self.new.last ≡ self.old.last }
    {
        let i = self.cell(address)?;
        self.clear(i);
        Ok(())
    }

    fn take(&mut self) -> Result<u16, Fault>
        ensures answer { Takes (meant self.old.records.now) ledger_kinds result (meant self.new.records.now) }
        ensures keeps { Keeps kinds_of lender_of self.old self.new }
        ensures next { IfOk result (λ a. NextDead self.old.records.now self.old.last a) }
        ensures records { MatchResult result (λ a. self.new.records.now ≡ slice_set self.old.records.now (place self.old.records.now 0) (record { address = a; link = 0 })) (λ _. self.new.records.now ≡ self.old.records.now) }
        ensures last { MatchResult result (λ a. self.new.last ≡ a) (λ _. self.new.last ≡ self.old.last) }
    {
        let Some(i) = self.first_unused() else {
            return Err(Fault::of_store(Self::KIND, Problem::NoCell, 0));
        };
        let a = self.next_dead();
        self.put(i, a, 0);
        self.last = a;
        Ok(a)
    }

    fn top(&mut self) -> u16
        ensures value { result ≡ top_of (length self.old.records.now) }
        ensures keeps { Keeps kinds_of lender_of self.old self.new }
        ensures records { self.new.records.now ≡ self.old.records.now }
        ensures last { self.new.last ≡ self.old.last }
    {
        if shared::fits::<MOST>(self.records.len()) {
            TOP
        } else {
            0
        }
    }

    fn left(&mut self) -> u16
        ensures value { result ≡ size (length self.old.records.now) - live_cells (meant self.old.records.now) }
        ensures unused { result ≡ size (length self.old.records.now) - used (usable self.old.records.now) }
        ensures keeps { Keeps kinds_of lender_of self.old self.new }
        ensures records { self.new.records.now ≡ self.old.records.now }
        ensures last { self.new.last ≡ self.old.last }
    {
        (self.usable().len() - self.count()) as u16
    }

    fn live(&mut self, address: u32) -> bool
        ensures value { result ≡ is_live (meant self.old.records.now) address }
        ensures keeps { Keeps kinds_of lender_of self.old self.new }
        ensures records { self.new.records.now ≡ self.old.records.now }
        ensures last { self.new.last ≡ self.old.last }
    {
        self.holds(address)
    }
}
