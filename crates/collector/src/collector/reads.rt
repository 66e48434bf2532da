// A new collector, and what its blocks hold.
ghost use Rattle.std.specs.Prelude.{◌≡◌, ℕ, ◌+◌, ◌<◌, ◌≤◌, length, is_some, slice_get};
ghost use Rattle.model.specs.Pages.{block_at, current, refs_of, words_of, count_pages, is_uncut, count_of_current_blocks, husks};
ghost use Rattle.model.specs.State.{fresh};
ghost use Rattle.model.specs.Calls.{alter};
ghost use Rattle.model.specs.Calls.{with_word as with_value};
ghost use Rattle.heap.specs.View.{shape_of};
ghost use Rattle.collector.specs.View.{heap_of};

use super::Collector;
use crate::phase::Phase;
use crate::tracing::Tracing;
use arrayvec::ArrayVec;
use heap::heap::Heap;

// The heap answers; it is not lent out, so that a caller's clauses speak of `heap_of` alone.
impl Collector {
    // No block, and no collection.
    pub fn new() -> Collector
        ensures { (h a : ℕ) → heap_of result ≡ (fresh h a).heap }
    {
        Collector {
            tracing: Tracing {
                heap: Heap::new(),
                work: ArrayVec::new(),
            },
            phase: Phase::Idle,
            targets: 0,
            units: 0,
        }
    }

    // The units since the collection began.
    pub fn units(&self) -> u32
        ensures { result ≡ (heap_of self.now).units }
    {
        self.units
    }

    // Whether the number names a block.
    pub fn is_block(&self, n: u32) -> bool
        ensures { result ≡ is_some (block_at (heap_of self.now).pages n) }
    {
        self.tracing.heap.lookup(n).is_some()
    }

    // The current form of a number, nil where it names no block: nil is a form, so no option.
    pub fn current(&self, n: u32) -> u32
        ensures { result ≡ current (heap_of self.now).pages n }
    {
        self.tracing.heap.current(n)
    }

    // How many references and how many words the block has, none where there is no block: a pair in every case.
    pub fn shape(&self, n: u32) -> (u32, u32)
        ensures { result ≡ shape_of (block_at (heap_of self.now).pages n) }
    {
        self.tracing.heap.shape(n)
    }

    // Reference `f` of the block, if there is one.
    pub fn reference(&self, n: u32, f: u32) -> Option<u32>
        ensures { result ≡ slice_get (refs_of (block_at (heap_of self.now).pages n)) f }
    {
        self.tracing.heap.read_reference(n, f)
    }

    // Word `w` of the block, if there is one.
    pub fn word(&self, n: u32, w: u32) -> Option<u32>
        ensures { result ≡ slice_get (words_of (block_at (heap_of self.now).pages n)) w }
    {
        self.tracing.heap.read_word(n, w)
    }

    // Word `w` of the block gets the value, if there is one.
    pub fn set_word(&mut self, n: u32, w: u32, v: u32)
        ensures { heap_of self.new ≡ alter (heap_of self.old) n (λ b. with_value b w v) (block_at (heap_of self.old).pages n) }
    {
        self.tracing.heap.write_word(n, w, v);
    }

    // How many blocks are current.
    pub fn current_blocks(&self) -> u32
        ensures { result ≡ count_of_current_blocks (heap_of self.now).pages }
    {
        self.tracing.heap.current_blocks()
    }

    // How many blocks forward to a copy of theirs.
    pub fn husks(&self) -> u32
        ensures { result ≡ husks (heap_of self.now).pages }
    {
        self.tracing.heap.husks()
    }

    // How many blocks are occupied: the current blocks and the husks.
    pub fn occupied_blocks(&self) -> u32
        ensures { result ≡ count_of_current_blocks (heap_of self.now).pages + husks (heap_of self.now).pages }
    {
        self.tracing.heap.occupied_blocks()
    }

    // How many pages are uncut.
    pub fn uncut_pages(&self) -> u32
        ensures { result ≡ count_pages is_uncut (heap_of self.now).pages }
    {
        self.tracing.heap.uncut_pages()
    }

    // How many pages are closed.
    pub fn closed_pages(&self) -> u32
        ensures { result ≡ count_pages (λ p. p.closed) (heap_of self.now).pages }
    {
        self.tracing.heap.closed_pages()
    }
}
