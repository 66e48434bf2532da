// The units of sweeping.
ghost use Rattle.std.specs.Prelude.{◌≡◌, ℕ, ◌+◌, ◌<◌, ◌≤◌};
ghost use Rattle.model.specs.Units.{sweeping_unit};
ghost use Rattle.collector.specs.View.{heap_of, Advances};

use super::Collector;
use crate::phase::Phase;

impl Collector {
    // One unit of sweeping: what is not marked in the page is freed.
    pub(super) fn sweep_unit(&mut self, page: usize)
        requires { self.old.phase ≡ Phase.Sweeping page }
        ensures heap { heap_of self.new ≡ sweeping_unit (heap_of self.old) page }
        ensures advance { Advances self.old self.new }
    {
        self.tracing.heap.sweep(page);
        if page < 63 {
            self.phase = Phase::Sweeping { page: page + 1 };
        } else if self.tracing.heap.uncut_pages() >= 20 {
            self.phase = Phase::Idle;
        } else {
            self.targets = 0;
            self.phase = Phase::Moving {
                class: 0,
                source: None,
            };
        }
    }
}
