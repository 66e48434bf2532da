// Counts of blocks and pages.
ghost use Rattle.std.specs.Prelude.{◌≡◌, ◌+◌, ◌<◌, true, false, length, None, slice_index_or};
ghost use Rattle.model.specs.Pages.{number, page_at, count_pages, is_uncut, count_slots, count_of_current_blocks, husks};
ghost use Rattle.model.specs.Units.{is_current_block, lowest_current_block};
ghost use Rattle.heap.specs.View.{view, occupied_blocks};

use super::Heap;
use crate::number::number_of;

impl Heap {
    // How many blocks the page has, occupied or free.
    fn blocks(&self, page: usize) -> usize
        ensures { result ≡ length (page_at (view self.now) page).slots }
    {
        256_usize.checked_div(self.pages.size(page)).unwrap_or(0)
    }

    // Whether the block is occupied and its own current form.
    fn is_current(&self, page: usize, slot: usize) -> bool
        requires { (page < 64) × (slot < 64) }
        ensures { result ≡ is_current_block (number page slot) (slice_index_or (page_at (view self.now) page).slots slot None) }
    {
        let n = number_of(page, slot);
        self.current(n) == n
    }

    // The lowest block of the page that is its own current form.
    pub fn lowest_current(&self, page: usize) -> Option<usize>
        ensures { result ≡ lowest_current_block page 0 (page_at (view self.now) page).slots }
    {
        (0..self.blocks(page)).find(|slot| self.is_current(page, *slot))
    }

    // How many blocks of the page are their own current form.
    fn current_in(&self, page: usize) -> u32
        ensures { result ≡ count_slots true page 0 (page_at (view self.now) page).slots }
    {
        (0..self.blocks(page))
            .filter(|slot| self.is_current(page, *slot))
            .count() as u32
    }

    // How many blocks of the page forward to a copy of theirs.
    fn husks_in(&self, page: usize) -> u32
        ensures { result ≡ count_slots false page 0 (page_at (view self.now) page).slots }
    {
        self.pages.used(page) - self.current_in(page)
    }

    // How many blocks are current; with the husks they are the occupied blocks.
    pub fn current_blocks(&self) -> u32
        ensures count { result ≡ count_of_current_blocks (view self.now) }
        ensures together { result + husks (view self.now) ≡ occupied_blocks (view self.now) }
    {
        (0..64).map(|page| self.current_in(page)).sum()
    }

    // How many blocks forward to a copy of theirs; with the current blocks they are the occupied blocks.
    // One chain each: a function that took what to add up would need a clause for what the closure answers.
    pub fn husks(&self) -> u32
        ensures count { result ≡ husks (view self.now) }
        ensures together { count_of_current_blocks (view self.now) + result ≡ occupied_blocks (view self.now) }
    {
        (0..64).map(|page| self.husks_in(page)).sum()
    }

    // How many blocks are occupied: the current blocks and the husks.
    pub fn occupied_blocks(&self) -> u32
        ensures count { result ≡ occupied_blocks (view self.now) }
        ensures together { count_of_current_blocks (view self.now) + husks (view self.now) ≡ result }
    {
        (0..64).map(|page| self.pages.used(page)).sum()
    }

    // How many pages are uncut.
    pub fn uncut_pages(&self) -> u32
        ensures { result ≡ count_pages is_uncut (view self.now) }
    {
        self.pages.uncut_pages()
    }

    // How many pages are closed.
    pub fn closed_pages(&self) -> u32
        ensures { result ≡ count_pages (λ p. p.closed) (view self.now) }
    {
        self.pages.closed_pages()
    }
}
