// Making a record.
ghost use Rattle.std.specs.Prelude.{◌≡◌, ℕ, ◌<◌, nat_le};
ghost use Rattle.model.specs.Making.{allocated_marked};
ghost use Rattle.heap.specs.View.{new_number};
ghost use Rattle.collector.specs.View.{heap_of, new_heap};

use super::Collector;
use crate::phase::Phase;

impl Collector {
    // The first page in which a new record is marked; 64, past the last, where none is: a bound and no lack of one.
    fn mark_from(&self) -> usize
        ensures { (g : ℕ) → g < 64 → nat_le result g ≡ allocated_marked (heap_of self.now).phase g }
    {
        match self.phase {
            Phase::Roots { .. } | Phase::Marking => 0,
            Phase::Sweeping { page } => page,
            Phase::Idle | Phase::Moving { .. } => 64,
        }
    }

    // A new record of `r` nil references and `d` zero words, if there is room for it: the number of its block.
    pub fn make(&mut self, r: u32, d: u32) -> Option<u32>
        ensures number { result ≡ new_number (heap_of self.old).pages r d }
        ensures heap { heap_of self.new ≡ new_heap (heap_of self.old) r d }
    {
        let from = self.mark_from();
        self.tracing.heap.make(r, d, from)
    }
}
