// The blocks, and those of them that are still to be scanned.
ghost use Rattle.std.specs.Prelude.{◌≡◌, ℕ, ◌≤◌, slice_index};
ghost use Rattle.model.specs.Pages.{block_at, refs_of};
ghost use Rattle.model.specs.State.{Phase, with_pages};
ghost use Rattle.model.specs.Units.{grey, scan};
ghost use Rattle.heap.specs.Blocks.{write_ref};
ghost use Rattle.heap.specs.View.{view};
ghost use Rattle.collector.specs.Tracing.{rescan_at, tally, traced};

use arrayvec::ArrayVec;
use heap::heap::Heap;

// The blocks with the work list: those that are marked and not yet scanned, the newest last.
// That both together are few is asked by clauses and no invariant: the phase tells it, which stands in the collector.
#[derive(Drop)]
pub struct Tracing {
    pub(crate) heap: Heap,
    pub(crate) work: ArrayVec<u32, 4096>,
}

impl Tracing {
    // The current form of the number is marked and comes onto the work list, if it is not marked yet.
    pub(crate) fn grey(&mut self, n: u32)
        requires { tally self.old ≤ 4096 }
        ensures heap { (at : Phase) (units : ℕ) → traced self.new at units ≡ grey (traced self.old at units) n }
        ensures tally { tally self.new ≡ tally self.old }
    {
        let m = self.heap.current(n);
        if self.heap.is_white(m) {
            self.heap.mark(m);
            self.work.push(m);
        }
    }

    // Reference `f` of the block, if there is one, gets its current form, which is greyed.
    fn rescan(&mut self, n: u32, f: u32)
        requires { tally self.old ≤ 4096 }
        ensures heap { (at : Phase) (units : ℕ) → traced self.new at units
            ≡ rescan_at (traced self.old at units) n f (slice_index (refs_of (block_at (view self.old.heap) n)) f) }
        ensures tally { tally self.new ≡ tally self.old }
    {
        if let Some(r) = self.heap.read_reference(n, f) {
            let v = self.heap.current(r);
            self.heap.write_reference(n, f, v);
            self.grey(r);
        }
    }

    // The references of the block get their current forms, which are greyed.
    pub(crate) fn scan(&mut self, n: u32)
        requires { tally self.old ≤ 4096 }
        ensures heap { (at : Phase) (units : ℕ) → traced self.new at units
            ≡ scan (refs_of (block_at (view self.old.heap) n)) (traced self.old at units) n 0 }
        ensures tally { tally self.new ≡ tally self.old }
    {
        let (count, _) = self.heap.shape(n);
        // by number, since each turn writes the heap in which the references lie
        for f in 0..count {
            self.rescan(n, f);
        }
    }
}
