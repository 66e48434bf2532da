// What the next unit of a collection does.

// The next root; the newest block of the work list; the next page to sweep;
// or, in moving, the class at hand and its source page, if one is chosen.
#[derive(Clone, Copy)]
pub enum Phase {
    Idle,
    Roots { next: u16 },
    Marking,
    Sweeping { page: usize },
    Moving { class: usize, source: Option<usize> },
}
