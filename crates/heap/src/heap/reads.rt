// A new heap, and what its blocks hold.
ghost use Rattle.std.specs.Prelude.{◌≡◌, replicate, slice_get};
ghost use Rattle.model.specs.Pages.{uncut, block_at, current, refs_of, words_of};
ghost use Rattle.heap.specs.Blocks.{place};
ghost use Rattle.heap.specs.View.{view, shape_of, white_of};

use super::Heap;
use pages::table::Table;

impl Heap {
    // Every page is uncut.
    pub fn new() -> Heap
        ensures { view result ≡ replicate 64 uncut }
    {
        let pages = Table::new();
        Heap {
            pages,
            words: [[0; 256]; 64],
        }
    }

    // The page and the slot of the block that the number names.
    pub fn lookup(&self, n: u32) -> Option<(usize, usize)>
        ensures { result ≡ place (block_at (view self.now) n) n }
    {
        self.find(n)
    }

    // The current form of a number, nil where it names no block: nil is a form, so no option.
    pub fn current(&self, n: u32) -> u32
        ensures { result ≡ current (view self.now) n }
    {
        self.find(n).map_or(0, |(g, s)| self.word(g, s, 0))
    }

    // How many references and how many words the block has, none where there is no block: a pair in every case.
    pub fn shape(&self, n: u32) -> (u32, u32)
        ensures { result ≡ shape_of (block_at (view self.now) n) }
    {
        self.find(n).map_or((0, 0), |(g, s)| {
            let w = self.word(g, s, 1);
            (w % 32, w / 32)
        })
    }

    // Reference `f` of the block, if there is one.
    pub fn read_reference(&self, n: u32, f: u32) -> Option<u32>
        ensures { result ≡ slice_get (refs_of (block_at (view self.now) n)) f }
    {
        let (g, s, j) = self.reference_at(n, f)?;
        Some(self.word(g, s, j))
    }

    // Word `w` of the block, if there is one: where the two lie is said once each, so that these are two lines.
    pub fn read_word(&self, n: u32, w: u32) -> Option<u32>
        ensures { result ≡ slice_get (words_of (block_at (view self.now) n)) w }
    {
        let (g, s, j) = self.word_at(n, w)?;
        Some(self.word(g, s, j))
    }

    // Whether the number names a block that is not marked.
    pub fn is_white(&self, n: u32) -> bool
        ensures { result ≡ white_of (block_at (view self.now) n) }
    {
        self.find(n)
            .is_some_and(|(g, s)| !self.pages.is_marked(g, s))
    }
}
