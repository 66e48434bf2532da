// What is known of one page.
ghost use Rattle.std.specs.Prelude.{◌≡◌, ℕ, ◌/◌, ◌^◌, ◌<◌, ◌≤◌, true, false};
ghost use Rattle.model.specs.Maps.{has};

mod changes;
mod reads;

// The size of the page's blocks, 0 where it is uncut, whether it is closed, and a flag for each block.
// The size is 0 where the definition of a page has 0, and is asked for alone by the table and the heap: of an enum each such clause would speak in two cases.
#[derive(Clone, Copy)]
pub struct Entry {
    pub(crate) size: usize,
    pub(crate) closed: bool,
    pub(crate) occupied: u64,
    pub(crate) marked: u64,
    // no bit stands past the block count
    ghost below: { occupied < 2 ^ (256 / size) },
    ghost few: { 256 / size ≤ 64 },
    // marked blocks are occupied
    ghost within: { (s : ℕ) → has marked s ≡ true → has occupied s ≡ true },
    // an uncut page is open with empty maps
    ghost blank: { size ≡ 0 → (closed ≡ false) × (occupied ≡ 0) × (marked ≡ 0) },
    // a cut page has an occupied block
    ghost inhabited: { 0 < size → 0 < occupied },
}
