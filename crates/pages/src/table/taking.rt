// Blocks are taken for a new record or a copy, and a source is closed.
ghost use Rattle.std.specs.Prelude.{◌≡◌, ◌<◌, [], slice_index};
ghost use Rattle.model.specs.Classes.{sizes, fitting};
ghost use Rattle.pages.specs.Entries.{WhateverWords, entry_at, entry_view, Taken};
ghost use Rattle.pages.specs.Choices.{Room, Allocated, Retargeted, Closes, source_of, page_number, ChosenPage, Targeted, Sourced};

use super::Table;
use crate::classes::{class_at, fitting};
use crate::entry::Entry;

impl Table {
    // The lowest free block of the page, which is cut if it was not yet, is occupied from now on.
    fn take(&mut self, page: usize, size: usize, marked: bool) -> usize
        requires page { page < 64 }
        requires room { Room size (entry_view (entry_at self.old.entries page) []) }
        ensures { Taken self.old.entries self.new.entries page result size marked }
    {
        let entry = &mut self.entries[page];
        if entry.size == 0 {
            *entry = Entry::cut_for(size, marked);
            return 0;
        }
        let slot = entry.lowest() as usize;
        entry.take(slot, marked);
        slot
    }

    // A block for a record of so many words, marked in pages from `mark_from` on: its page and slot, if there is room.
    pub fn allocate(&mut self, words: usize, mark_from: usize) -> Option<(usize, usize)>
        ensures block { Allocated self.old.entries self.new.entries words mark_from result }
        ensures chosen { WhateverWords self.old.entries (λ ps. 0 < fitting words → ChosenPage ps (fitting words) (page_number result)) }
    {
        let size = fitting(words)?;
        let page = self.page_for(size)?;
        Some((page, self.take(page, size, mark_from <= page)))
    }

    // A block for a copy: its page and slot, if a page of the class has a free block.
    pub fn take_target(&mut self, size: usize, marked: bool) -> Option<(usize, usize)>
        ensures block { Retargeted self.old.entries self.new.entries size marked result }
        ensures chosen { WhateverWords self.old.entries (λ ps. Targeted ps size result) }
    {
        let (_, page) = self.target(size)?;
        Some((page, self.take(page, size, marked)))
    }

    // The page of the class whose blocks are to be moved closes, if the others can take them.
    pub fn close_source(&mut self, class: usize, targets: u64) -> Option<usize>
        ensures source { WhateverWords self.old.entries (λ ps. result ≡ source_of ps class targets) }
        ensures change { Closes self.old.entries self.new.entries result }
        ensures chosen { WhateverWords self.old.entries (λ ps. Sourced ps (slice_index sizes class) targets result) }
    {
        let size = class_at(class)?.size;
        let (used, page) = self.source(size, targets)?;
        if used > self.free_in_class(size, page) {
            return None;
        }
        self.entries[page].close();
        Some(page)
    }
}
