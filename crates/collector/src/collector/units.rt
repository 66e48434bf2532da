// The units of a collection, and where it stands.
ghost use Rattle.std.specs.Prelude.{◌≡◌, ℕ, suc, ◌+◌, ◌<◌, ◌≤◌, if◌then◌else◌, nat_lt};
ghost use Rattle.model.specs.State.{roots, marking, with_phase, running};
ghost use Rattle.model.specs.Units.{one_more};
ghost use Rattle.model.specs.Calls.{begun};
ghost use Rattle.collector.specs.View.{heap_of, Advances, left_of, own_unit, root_of, root_unit_by};

use super::Collector;
use crate::phase::Phase;

impl Collector {
    // A collection begins at the first root.
    pub fn begin(&mut self)
        ensures { heap_of self.new ≡ begun (heap_of self.old) }
    {
        self.tracing.work.clear();
        self.units = 0;
        self.phase = Phase::Roots { next: 0 };
    }

    // Whether a collection is under way.
    pub fn is_running(&self) -> bool
        ensures { result ≡ running (heap_of self.now).phase }
    {
        !matches!(self.phase, Phase::Idle)
    }

    // The place that the next unit takes a root from, if it takes one.
    pub fn next_root(&self) -> Option<u16>
        ensures { result ≡ root_of (heap_of self.now).phase }
    {
        match self.phase {
            Phase::Roots { next } => Some(next),
            _ => None,
        }
    }

    fn count_unit(&mut self)
        requires { self.old.units + left_of self.old < 80000 }
        ensures { heap_of self.new ≡ one_more (heap_of self.old) }
    {
        self.units += 1;
    }

    // One unit of the roots: what the next of so many places holds is greyed.
    pub fn root_unit(&mut self, places: u16, n: u32)
        ensures { heap_of self.new ≡ root_unit_by (heap_of self.old) places n (heap_of self.old).phase }
    {
        if let Phase::Roots { next } = self.phase {
            self.grey(n);
            self.next_place(next, places);
            self.count_unit();
        }
    }

    // After the last place comes marking.
    fn next_place(&mut self, next: u16, places: u16)
        requires { self.old.phase ≡ Phase.Roots next }
        ensures heap { heap_of self.new ≡ with_phase (heap_of self.old) (if nat_lt (suc next) places then roots (suc next) else marking) }
        ensures advance { Advances self.old self.new }
    {
        if next < places.saturating_sub(1) {
            self.phase = Phase::Roots { next: next + 1 };
        } else {
            self.phase = Phase::Marking;
        }
    }

    // One unit of marking, sweeping or moving.
    pub fn unit(&mut self)
        ensures { heap_of self.new ≡ own_unit (heap_of self.old) (heap_of self.old).phase }
    {
        match self.phase {
            Phase::Idle | Phase::Roots { .. } => return,
            Phase::Marking => self.mark_unit(),
            Phase::Sweeping { page } => self.sweep_unit(page),
            Phase::Moving { class, source } => self.move_unit(class, source),
        }
        self.count_unit();
    }
}
