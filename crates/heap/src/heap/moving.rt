// A block is moved.
ghost use Rattle.std.specs.Prelude.{◌≡◌, ◌+◌, ◌<◌, ◌≤◌, true, [], length, ◌≢◌, slice_index_or};
ghost use Rattle.model.specs.Pages.{number, block_at};
ghost use Rattle.model.specs.Units.{close_page, target_page};
ghost use Rattle.model.specs.Calls.{if_some};
ghost use Rattle.pages.specs.Entries.{entry_at};
ghost use Rattle.pages.specs.Choices.{source_of};
ghost use Rattle.heap.specs.Blocks.{Located, Copied};
ghost use Rattle.heap.specs.View.{view, target_of, target_number, moved_to};

use super::Heap;
use crate::number::number_of;

// The words of a block go to another page, but for the first: that is the number of the copy in both.
// Each of the two lies in a page from a word of it on.
fn copy_block(
    words: &mut [[u32; 256]; 64],
    from: (usize, usize),
    to: (usize, usize),
    len: usize,
    n: u32,
)
    requires pages { (from.0 < 64) × ((to.0 < 64) × ((from.0 ≢ to.0))) }
    requires within { (1 ≤ len) × ((from.1 + len ≤ 256) × (to.1 + len ≤ 256)) }
    requires long { (length words.old ≡ 64) × ((length (slice_index_or words.old from.0 []) ≡ 256) × (length (slice_index_or words.old to.0 []) ≡ 256)) }
    ensures { Copied words.old words.new from.0 from.1 to.0 to.1 len n }
{
    words[from.0][from.1] = n;
    words[to.0][to.1] = n;
    // both pages lie in one array: to lend a slice of each, it would be split between them, or one page copied whole for a few words
    for k in 1..len {
        words[to.0][to.1 + k] = words[from.0][from.1 + k];
    }
}

impl Heap {
    // The page of the class whose blocks are to be moved closes, if the others can take them.
    pub fn close_source(&mut self, class: usize, targets: u64) -> Option<usize>
        ensures source { result ≡ source_of (view self.old) class targets }
        ensures view { view self.new ≡ if_some result (λ g. close_page (view self.old) g true) (view self.old) }
    {
        self.pages.close_source(class, targets)
    }

    // A block of a closed page goes to the lowest free slot of its target, and both forward to the copy: the target, if there is one.
    pub fn move_block(&mut self, n: u32) -> Option<usize>
        ensures target { result ≡ target_number (target_of (view self.old) n (block_at (view self.old) n)) }
        ensures view { view self.new ≡ moved_to (view self.old) n (target_of (view self.old) n (block_at (view self.old) n)) }
    {
        let (g, s) = self.find(n)?;
        if !self.pages.is_closed(g) {
            return None;
        }
        self.move_found(g, s)
    }

    fn move_found(&mut self, g: usize, s: usize) -> Option<usize>
        requires found { Located self.old.pages.entries self.old.words (number g s) g s }
        requires closed { (entry_at self.old.pages.entries g).closed ≡ true }
        ensures target { result ≡ target_number (target_page (view self.old) (entry_at self.old.pages.entries g).size) }
        ensures view { view self.new ≡ moved_to (view self.old) (number g s) (target_page (view self.old) (entry_at self.old.pages.entries g).size) }
    {
        let size = self.pages.size(g);
        let marked = self.pages.is_marked(g, s);
        let (page, slot) = self.pages.take_target(size, marked)?;
        let copy = number_of(page, slot);
        copy_block(
            &mut self.words,
            (g, s * size),
            (page, slot * size),
            size,
            copy,
        );
        Some(page)
    }
}
