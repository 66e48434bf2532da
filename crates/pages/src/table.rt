// The entries of all pages.
ghost use Rattle.std.specs.Prelude.{◌≡◌, ℕ, false, length, replicate};
ghost use Rattle.model.specs.Maps.{has};
ghost use Rattle.model.specs.Pages.{uncut, with_closed};
ghost use Rattle.model.specs.Units.{swept};
ghost use Rattle.pages.specs.Entries.{WhateverWords, entry_at, Changed, mark_slot};

mod choices;
mod counts;
mod taking;

use super::entry::Entry;
use super::maps::flag;

// One entry for each page.
#[derive(Drop)]
pub struct Table {
    entries: [Entry; 64],
}

impl Table {
    // Every page is uncut.
    pub fn new() -> Table
        ensures count { length result.entries ≡ 64 }
        ensures view { WhateverWords result.entries (λ ps. ps ≡ replicate 64 uncut) }
        ensures empty { (g s : ℕ) → has (entry_at result.entries g).occupied s ≡ false }
    {
        Table {
            entries: [Entry::uncut(); 64],
        }
    }

    // The size of the page's blocks, 0 where it is uncut, as the definition of a page has it.
    pub fn size(&self, page: usize) -> usize
        ensures { result ≡ (entry_at self.now.entries page).size }
    {
        self.entries.get(page).map_or(0, |entry| entry.size)
    }

    pub fn is_closed(&self, page: usize) -> bool
        ensures { result ≡ (entry_at self.now.entries page).closed }
    {
        self.entries.get(page).is_some_and(|entry| entry.closed)
    }

    // Whether the block is occupied.
    pub fn holds(&self, page: usize, slot: usize) -> bool
        ensures { result ≡ has (entry_at self.now.entries page).occupied slot }
    {
        self.entries
            .get(page)
            .is_some_and(|entry| flag(entry.occupied, slot))
    }

    // Whether the block is marked. Two functions for the two maps: one of both would name the map by a closure in its clause.
    pub fn is_marked(&self, page: usize, slot: usize) -> bool
        ensures { result ≡ has (entry_at self.now.entries page).marked slot }
    {
        self.entries
            .get(page)
            .is_some_and(|entry| flag(entry.marked, slot))
    }

    // The block is marked, if it is occupied.
    pub fn mark(&mut self, page: usize, slot: usize)
        ensures { Changed self.old.entries self.new.entries page (λ p. mark_slot p slot) }
    {
        if self.holds(page, slot) {
            self.entries[page].mark(slot);
        }
    }

    // The blocks of the page that are not marked become free, the marks go, and the page opens.
    pub fn sweep(&mut self, page: usize)
        ensures { Changed self.old.entries self.new.entries page swept }
    {
        // an index: no clause of get_mut says what becomes of a table by a write into what it lends; so in reopen
        if page < 64 {
            self.entries[page].sweep();
        }
    }

    // The page is open from now on.
    pub fn reopen(&mut self, page: usize)
        ensures { Changed self.old.entries self.new.entries page (λ p. with_closed p false) }
    {
        if page < 64 {
            self.entries[page].closed = false;
        }
    }
}
