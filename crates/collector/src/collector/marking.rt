// Greying, the barrier, and the units of marking.
ghost use Rattle.std.specs.Prelude.{◌≡◌, ℕ, ◌<◌, ◌≤◌};
ghost use Rattle.model.specs.Units.{grey, marking_unit};
ghost use Rattle.model.specs.Making.{barrier};
ghost use Rattle.collector.specs.Sound.{Greys};
ghost use Rattle.collector.specs.View.{heap_of, Advances, left_of, stored_in};

use super::Collector;
use crate::phase::Phase;

impl Collector {
    // The current form of the number is marked and comes onto the work list, if it is not marked yet.
    pub(super) fn grey(&mut self, n: u32)
        requires { Greys self.old.phase }
        ensures heap { heap_of self.new ≡ grey (heap_of self.old) n }
        ensures phase { self.new.phase ≡ self.old.phase }
        ensures units { self.new.units ≡ self.old.units }
        ensures left { left_of self.new ≡ left_of self.old }
    {
        self.tracing.grey(n);
    }

    // During roots and marking a number is greyed before it is overwritten.
    pub fn barrier(&mut self, n: u32)
        ensures heap { heap_of self.new ≡ barrier (heap_of self.old) n }
        ensures phase { self.new.phase ≡ self.old.phase }
        ensures units { self.new.units ≡ self.old.units }
    {
        if let Phase::Roots { .. } | Phase::Marking = self.phase {
            self.grey(n);
        }
    }

    // Reference `f` of the block gets the value, if there is one, and what stood there is not lost.
    pub fn store(&mut self, n: u32, f: u32, v: u32)
        ensures { heap_of self.new ≡ stored_in (heap_of self.old) n f v }
    {
        if let Some(old) = self.tracing.heap.read_reference(n, f) {
            self.barrier(old);
            self.tracing.heap.write_reference(n, f, v);
        }
    }

    // One unit of marking: the newest block of the work list is scanned, or sweeping starts.
    pub(super) fn mark_unit(&mut self)
        requires { self.old.phase ≡ Phase.Marking }
        ensures heap { heap_of self.new ≡ marking_unit (heap_of self.old) (heap_of self.old).work }
        ensures advance { Advances self.old self.new }
    {
        match self.tracing.work.pop() {
            Some(n) => self.tracing.scan(n),
            None => self.phase = Phase::Sweeping { page: 0 },
        }
    }
}
