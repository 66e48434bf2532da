// The blocks, and the collection of those that are not reached.
ghost use Rattle.std.specs.Prelude.{ℕ, ◌+◌, ◌≤◌, length};
ghost use Rattle.heap.specs.View.{view};
ghost use Rattle.collector.specs.Sound.{left, pressed, Placed, placed_prop};

mod making;
mod marking;
mod moving;
mod reads;
mod sweeping;
mod units;

use super::phase::Phase;
use super::tracing::Tracing;

// No Model: the units' contracts speak of the phase and the pages moved into, each of which a model would make a part of its value.
// The blocks with the work list, the phase, the pages moved into, and the units since the last begin.
#[derive(Drop)]
pub struct Collector {
    tracing: Tracing,
    phase: Phase,
    targets: u64,
    units: u32,
    ghost spare: { pressed phase (view tracing.heap) (length tracing.work.items) ≤ 4096 },
    ghost fuel: { units + left phase (view tracing.heap) (length tracing.work.items) ≤ 80000 },
    ghost sited: { Placed phase (view tracing.heap) } by { placed_prop phase (view tracing.heap) },
}
