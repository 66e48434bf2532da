// Pages of words, and the blocks that their entries say are occupied.
ghost use Rattle.std.specs.Prelude.{◌≡◌, ◌+◌, ◌*◌, ◌/◌, ◌%◌, ◌<◌, ◌≤◌, length, slice_index};
ghost use Rattle.pages.specs.Entries.{entry_at};
ghost use Rattle.heap.specs.Blocks.{block_words, with_word, Wide, Fits, Finds, FindsReference, FindsWord};

mod counts;
mod making;
mod moving;
mod reads;
mod sweeping;
mod writes;

use pages::table::Table;

// No Model: the contracts of the private functions speak of the entries and the words, which a model would hide.
// A block's words are its forwarding word, its shape word, which is r + 32 × d, r references and d words; the rest is never read.
#[derive(Drop)]
pub struct Heap {
    // the words beside the entries, and no row of both: what is known of the entries is proved of them alone
    pages: Table,
    words: [[u32; 256]; 64],
    ghost count: { length pages.entries ≡ 64 },
    ghost tall: { length words ≡ 64 },
    ghost wide: { Wide words },
    // the references and the words of every occupied block lie in it
    ghost fits: { Fits pages.entries words },
}

impl Heap {
    // The page and the slot of the block that the number names.
    fn find(&self, n: u32) -> Option<(usize, usize)>
        ensures { Finds self.now.pages.entries self.now.words n result }
    {
        let place = n.checked_sub(1)? as usize;
        let (g, s) = (place / 64, place % 64);
        self.pages.holds(g, s).then_some((g, s))
    }

    // Where reference `f` of the block lies: its page, its slot and the word of the block, if there is one.
    fn reference_at(&self, n: u32, f: u32) -> Option<(usize, usize, usize)>
        ensures { FindsReference self.now.pages.entries self.now.words n f result }
    {
        let (g, s) = self.find(n)?;
        let references = self.word(g, s, 1) % 32;
        (f < references).then_some((g, s, 2 + f as usize))
    }

    // Where word `w` of the block lies, likewise.
    fn word_at(&self, n: u32, w: u32) -> Option<(usize, usize, usize)>
        ensures { FindsWord self.now.pages.entries self.now.words n w result }
    {
        let (g, s) = self.find(n)?;
        let shape = self.word(g, s, 1);
        let references = (shape % 32) as usize;
        (w < shape / 32).then_some((g, s, 2 + references + w as usize))
    }

    // Word `j` of block `s` of page `g`.
    fn word(&self, g: usize, s: usize, j: usize) -> u32
        requires page { g < 64 }
        requires room { s * (entry_at self.now.pages.entries g).size + (entry_at self.now.pages.entries g).size ≤ 256 }
        requires within { j < (entry_at self.now.pages.entries g).size }
        ensures { result ≡ slice_index (block_words self.now.pages.entries self.now.words g s) j }
    {
        let size = self.pages.size(g);
        self.words[g][s * size + j]
    }

    fn set_word(&mut self, g: usize, s: usize, j: usize, v: u32)
        requires page { g < 64 }
        requires room { s * (entry_at self.old.pages.entries g).size + (entry_at self.old.pages.entries g).size ≤ 256 }
        requires within { j < (entry_at self.old.pages.entries g).size }
        requires shape { j ≡ 1 → 2 + (v % 32 + v / 32) ≤ (entry_at self.old.pages.entries g).size }
        ensures entries { self.new.pages.entries ≡ self.old.pages.entries }
        ensures words { self.new.words ≡ with_word self.old.pages.entries self.old.words g s j v }
    {
        let size = self.pages.size(g);
        self.words[g][s * size + j] = v;
    }
}
