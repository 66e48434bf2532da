// What an entry tells.
ghost use Rattle.std.specs.Prelude.{◌≡◌, ℕ, ◌≤◌, List};
ghost use Rattle.model.specs.Pages.{occupied as used, lowest_free, in_class, free};
ghost use Rattle.pages.specs.Entries.{entry_view};
ghost use Rattle.pages.specs.Choices.{has_room_for};

use super::Entry;

impl Entry {
    // How many blocks are occupied.
    pub(crate) fn used(&self) -> u32
        ensures { (ws : List ℕ) → result ≡ used (entry_view self.now ws).slots }
    {
        self.occupied.count_ones()
    }

    // The lowest block that is free, or the number of blocks: as many as are occupied below it.
    pub(crate) fn lowest(&self) -> u32
        ensures { (ws : List ℕ) → result ≡ lowest_free (entry_view self.now ws).slots }
    {
        (!self.occupied).trailing_zeros()
    }

    // How many blocks are free.
    pub(crate) fn free(&self) -> u32
        ensures free { (ws : List ℕ) → result ≡ free (entry_view self.now ws) }
        ensures few { result ≤ 64 }
    {
        if self.size == 0 {
            0
        } else {
            (256 / self.size) as u32 - self.used()
        }
    }

    // Whether the page is open and of the class.
    pub(crate) fn is_open(&self, size: usize) -> bool
        ensures { (ws : List ℕ) → result ≡ in_class size (entry_view self.now ws) }
    {
        self.size == size && !self.closed
    }

    // Whether the page is open, of the class, and has a free block.
    pub(crate) fn has_room(&self, size: usize) -> bool
        ensures { (ws : List ℕ) → result ≡ has_room_for size (entry_view self.now ws) }
    {
        self.is_open(size) && self.free() > 0
    }
}
