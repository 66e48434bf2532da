// An entry is made, and changes.
ghost use Rattle.std.specs.Prelude.{◌≡◌, ℕ, ◌/◌, ◌<◌, ◌≤◌, true, false, List, ◌≢◌};
ghost use Rattle.model.specs.Maps.{has, with_flag_set};
ghost use Rattle.model.specs.Pages.{cut, with_closed};
ghost use Rattle.model.specs.Units.{swept};
ghost use Rattle.pages.specs.View.{block_of, region, filled};
ghost use Rattle.pages.specs.Entries.{entry_view};

use super::Entry;
use crate::maps::with_flag;

impl Entry {
    pub(crate) fn uncut() -> Entry
        ensures { (result.size ≡ 0) × (result.closed ≡ false) × (result.occupied ≡ 0) × (result.marked ≡ 0) }
    {
        Entry {
            size: 0,
            closed: false,
            occupied: 0,
            marked: 0,
        }
    }

    // A page that is cut for its first block.
    pub(crate) fn cut_for(size: usize, marked: bool) -> Entry
        requires { (4 ≤ size) × (size ≤ 256) }
        ensures view { (ws : List ℕ) → entry_view result ws ≡ filled (cut size) 0 (block_of marked (region size ws 0)) }
        ensures one { (k : ℕ) → has result.occupied k ≡ true → k ≡ 0 }
        ensures size { result.size ≡ size }
    {
        Entry {
            size,
            closed: false,
            occupied: 1,
            marked: u64::from(marked),
        }
    }

    // The block, which is occupied, is marked. That the size stays is a clause here, in close and in take, as short as a word for it.
    pub(crate) fn mark(&mut self, s: usize)
        requires { (s < 64) × (has self.old.occupied s ≡ true) }
        ensures marked { self.new.marked ≡ with_flag_set self.old.marked s }
        ensures occupied { self.new.occupied ≡ self.old.occupied }
        ensures size { self.new.size ≡ self.old.size }
        ensures closed { self.new.closed ≡ self.old.closed }
    {
        self.marked = with_flag(self.marked, s);
    }

    // The page, which is cut, is closed from now on.
    pub(crate) fn close(&mut self)
        requires { 0 < self.old.size }
        ensures view { (ws : List ℕ) → entry_view self.new ws ≡ with_closed (entry_view self.old ws) true }
        ensures occupied { self.new.occupied ≡ self.old.occupied }
        ensures size { self.new.size ≡ self.old.size }
    {
        self.closed = true;
    }

    // Frees the blocks that are not marked, takes the marks away, and opens the page.
    pub(crate) fn sweep(&mut self)
        ensures view { (ws : List ℕ) → entry_view self.new ws ≡ swept (entry_view self.old ws) }
        ensures fewer { (s : ℕ) → has self.new.occupied s ≡ true → (has self.old.occupied s ≡ true) × (self.new.size ≡ self.old.size) }
    {
        self.occupied &= self.marked;
        self.marked = 0;
        self.closed = false;
        if self.occupied == 0 {
            self.size = 0;
        }
    }

    // Block `s`, which is free, is occupied from now on.
    pub(crate) fn take(&mut self, s: usize, marked: bool)
        requires { (s < 256 / self.old.size) × (has self.old.occupied s ≡ false) }
        ensures view { (ws : List ℕ) → entry_view self.new ws
            ≡ filled (entry_view self.old ws) s (block_of marked (region self.old.size ws s)) }
        ensures more { (k : ℕ) → has self.new.occupied k ≡ true → (k ≢ s) → has self.old.occupied k ≡ true }
        ensures size { self.new.size ≡ self.old.size }
    {
        self.occupied = with_flag(self.occupied, s);
        if marked {
            self.marked = with_flag(self.marked, s);
        }
    }
}
