// Counts over the pages.
ghost use Rattle.std.specs.Prelude.{◌≡◌};
ghost use Rattle.model.specs.Pages.{page_at, occupied, count_pages, is_uncut};
ghost use Rattle.pages.specs.Entries.{WhateverWords};

use super::Table;

impl Table {
    // How many blocks of the page are occupied.
    pub fn used(&self, page: usize) -> u32
        ensures { WhateverWords self.now.entries (λ ps. result ≡ occupied (page_at ps page).slots) }
    {
        self.entries.get(page).map_or(0, |entry| entry.used())
    }

    // How many pages are uncut.
    pub fn uncut_pages(&self) -> u32
        ensures { WhateverWords self.now.entries (λ ps. result ≡ count_pages is_uncut ps) }
    {
        self.entries.iter().filter(|entry| entry.size == 0).count() as u32
    }

    // How many pages are closed: a chain of its own, no longer than a call of one for both would be.
    pub fn closed_pages(&self) -> u32
        ensures { WhateverWords self.now.entries (λ ps. result ≡ count_pages (λ p. p.closed) ps) }
    {
        self.entries.iter().filter(|entry| entry.closed).count() as u32
    }
}
