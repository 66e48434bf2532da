// A new block.
ghost use Rattle.std.specs.Prelude.{◌≡◌, ◌+◌, ◌≤◌, length};
ghost use Rattle.heap.specs.Blocks.{Written};
ghost use Rattle.heap.specs.View.{view, new_number, new_pages};

use super::Heap;
use crate::number::number_of;

// The number, the shape and zeros into the first words of a block. The page comes whole: no proof covers a part of it lent out of a heap.
fn clear(words: &mut [u32; 256], at: usize, n: u32, shape: u32, len: usize)
    requires { (2 ≤ len) × ((at + len ≤ 256) × (length words.old ≡ 256)) }
    ensures { Written words.old words.new at n shape len }
{
    words[at] = n;
    words[at + 1] = shape;
    words[at + 2..at + len].fill(0);
}

impl Heap {
    // A block of `r` nil references and `d` zero words, marked in pages from `mark_from` on: its number, if there is room.
    pub fn make(&mut self, r: u32, d: u32, mark_from: usize) -> Option<u32>
        ensures number { result ≡ new_number (view self.old) r d }
        ensures view { view self.new ≡ new_pages (view self.old) r d mark_from }
    {
        if r > 30 || d > 30 - r {
            return None;
        }
        let len = (2 + r + d) as usize;
        let (page, slot) = self.pages.allocate(len, mark_from)?;
        let n = number_of(page, slot);
        let at = slot * self.pages.size(page);
        clear(&mut self.words[page], at, n, r + 32 * d, len);
        Some(n)
    }
}
