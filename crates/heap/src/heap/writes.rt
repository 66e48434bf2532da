// References, words and marks are written.
ghost use Rattle.std.specs.Prelude.{◌≡◌};
ghost use Rattle.heap.specs.Blocks.{write_ref, marking};
ghost use Rattle.heap.specs.View.{view, write_word};

use super::Heap;

impl Heap {
    // Reference `f` of the block gets the value, if there is one.
    pub fn write_reference(&mut self, n: u32, f: u32, v: u32)
        ensures { view self.new ≡ write_ref (view self.old) n f v }
    {
        if let Some((g, s, j)) = self.reference_at(n, f) {
            self.set_word(g, s, j, v);
        }
    }

    // Word `w` of the block gets the value, if there is one: three lines like those for a reference, which name where it lies.
    pub fn write_word(&mut self, n: u32, w: u32, v: u32)
        ensures { view self.new ≡ write_word (view self.old) n w v }
    {
        if let Some((g, s, j)) = self.word_at(n, w) {
            self.set_word(g, s, j, v);
        }
    }

    // The block is marked, if there is one.
    pub fn mark(&mut self, n: u32)
        ensures { view self.new ≡ marking (view self.old) n }
    {
        if let Some((g, s)) = self.find(n) {
            self.pages.mark(g, s);
        }
    }
}
