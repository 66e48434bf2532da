// The choice of a page: for a new record, as the source of a move, and as its target.
ghost use Rattle.std.specs.Prelude.{◌≡◌, ℕ, ◌<◌, List, Option, ◌==◌};
ghost use Rattle.std.specs.List.{position_from};
ghost use Rattle.model.specs.Units.{free_of_class, source_page, target_page};
ghost use Rattle.model.specs.Making.{page_to_take};
ghost use Rattle.pages.specs.Entries.{WhateverWords, entry_at, entry_view};
ghost use Rattle.pages.specs.Choices.{entry_has_room, source_figure, target_figure, least_figure, least_candidate, Low, LowPair};

use super::Table;
use crate::maps::flag;
use ranking::candidate::Candidate;
use ranking::ranked::least;

// The page of the least candidate, with its figure.
fn least_page(row: &[Option<Candidate>]) -> Option<(u32, usize)>
    ensures { result ≡ least_candidate row.now }
{
    let place = least(row)?;
    row[place].map(|c| (c.figure, c.number as usize))
}

// The least page by a figure, of those that have one, with its figure.
// Clause `low` goes on with the page to source and target: a page is a plain number, and an index wants it below 64.
// The row is filled by a `for`, since the figures are the answers of a closure that asks for a page below 64.
fn least_by<F: Fn(usize) -> Option<u32>>(figure: F) -> Option<(u32, usize)>
    requires { (page : ℕ) → page < 64 → F.pre figure page }
    ensures page { (h : ℕ → Option ℕ) → ((k : ℕ) (o : Option ℕ) → k < 64 → F.post figure k o → o ≡ h k) → result ≡ least_figure h }
    ensures low { LowPair result }
{
    let mut row: [Option<Candidate>; 64] = [None; 64];
    for (page, place) in row.iter_mut().enumerate() {
        *place = figure(page).map(|figure| Candidate {
            figure,
            number: page as u32,
        });
    }
    least_page(&row)
}

impl Table {
    // The lowest open page of the class with a free block.
    fn open_page(&self, size: usize) -> Option<usize>
        ensures { result ≡ position_from (entry_has_room size) 0 self.now.entries }
    {
        self.entries.iter().position(|entry| entry.has_room(size))
    }

    // The lowest uncut page.
    fn uncut_page(&self) -> Option<usize>
        ensures { result ≡ position_from (λ e. e.size == 0) 0 self.now.entries }
    {
        self.entries.iter().position(|entry| entry.size == 0)
    }

    // The page for a new record.
    pub(super) fn page_for(&self, size: usize) -> Option<usize>
        ensures page { WhateverWords self.now.entries (λ ps. result ≡ page_to_take ps size) }
        ensures low { Low result }
    {
        self.open_page(size).or_else(|| self.uncut_page())
    }

    // The open page of the class with the fewest blocks, of those into which no block was moved, and how many.
    pub(super) fn source(&self, size: usize, targets: u64) -> Option<(u32, usize)>
        ensures page { WhateverWords self.now.entries (λ ps. result ≡ source_page ps size targets) }
        ensures low { LowPair result }
    {
        least_by(
            |page|
                requires { page < 64 }
                ensures { (ws : List ℕ) → result ≡ source_figure size targets page (entry_view (entry_at self.entry.now.entries page) ws) }
            {
                let entry = &self.entries[page];
                (entry.is_open(size) && !flag(targets, page)).then_some(entry.used())
            },
        )
    }

    // The open page of the class with the fewest free blocks, of those with one, and how many.
    pub(super) fn target(&self, size: usize) -> Option<(u32, usize)>
        ensures page { WhateverWords self.now.entries (λ ps. result ≡ target_page ps size) }
        ensures low { LowPair result }
    {
        least_by(
            |page|
                requires { page < 64 }
                ensures { (ws : List ℕ) → result ≡ target_figure size (entry_view (entry_at self.entry.now.entries page) ws) }
            {
                let entry = &self.entries[page];
                entry.has_room(size).then_some(entry.free())
            },
        )
    }

    // How many blocks are free in the open pages of the class, but for page `but`: a `for`, with the page number counted beside.
    pub(super) fn free_in_class(&self, size: usize, but: usize) -> u32
        ensures { WhateverWords self.now.entries (λ ps. result ≡ free_of_class size but 0 ps) }
    {
        let mut n = 0;
        for (page, entry) in self.entries.iter().enumerate() {
            if page != but && entry.is_open(size) {
                n += entry.free();
            }
        }
        n
    }
}
