// The units of moving.
ghost use Rattle.std.specs.Prelude.{◌≡◌, ℕ, ◌<◌, ◌≤◌, Some, None, slice_index};
ghost use Rattle.model.specs.Classes.{sizes};
ghost use Rattle.model.specs.Pages.{page_at};
ghost use Rattle.model.specs.Units.{moving_unit, move_to, target_page, lowest_current_block};
ghost use Rattle.heap.specs.View.{view};
ghost use Rattle.collector.specs.View.{heap_of, Advances};
ghost use Rattle.collector.specs.Moving.{next_of};

use super::Collector;
use crate::phase::Phase;
use pages::maps::with_flag;

// What comes after a class is done.
fn after_class(class: usize) -> Phase
    ensures { result ≡ next_of class }
{
    if class < 19 {
        Phase::Moving {
            class: class + 1,
            source: None,
        }
    } else {
        Phase::Idle
    }
}

impl Collector {
    // A source is chosen and closed, or the class is done.
    fn choose(&mut self, class: usize)
        requires { self.old.phase ≡ Phase.Moving class None }
        ensures heap { heap_of self.new ≡ moving_unit (heap_of self.old) class None self.old.targets }
        ensures advance { Advances self.old self.new }
    {
        match self.tracing.heap.close_source(class, self.targets) {
            None => {
                self.phase = after_class(class);
            }
            Some(g) => {
                self.phase = Phase::Moving {
                    class,
                    source: Some(g),
                };
            }
        }
    }

    // Block `s` of the source goes to another page of the class, or the source opens and the class is done.
    fn move_one(&mut self, class: usize, g: usize, s: usize)
        requires phase { self.old.phase ≡ Phase.Moving class (Some g) }
        requires slot { lowest_current_block g 0 (page_at (view self.old.tracing.heap) g).slots ≡ Some s }
        ensures heap { heap_of self.new ≡ move_to (heap_of self.old) class self.old.targets g s
            (target_page (view self.old.tracing.heap) (slice_index sizes class)) }
        ensures advance { Advances self.old self.new }
    {
        // the heap's own function for this asks for bounds, and no public function asks anything
        let n = (64 * g + s + 1) as u32;
        match self.tracing.heap.move_block(n) {
            None => {
                self.tracing.heap.reopen(g);
                self.phase = after_class(class);
            }
            Some(t) => {
                self.targets = with_flag(self.targets, t);
            }
        }
    }

    // One unit of moving with a source at hand.
    fn move_from(&mut self, class: usize, g: usize)
        requires { self.old.phase ≡ Phase.Moving class (Some g) }
        ensures heap { heap_of self.new ≡ moving_unit (heap_of self.old) class (Some g) self.old.targets }
        ensures advance { Advances self.old self.new }
    {
        match self.tracing.heap.lowest_current(g) {
            None => {
                self.phase = Phase::Moving {
                    class,
                    source: None,
                };
            }
            Some(s) => self.move_one(class, g, s),
        }
    }

    // One unit of moving.
    pub(super) fn move_unit(&mut self, class: usize, source: Option<usize>)
        requires { self.old.phase ≡ Phase.Moving class source }
        ensures heap { heap_of self.new ≡ moving_unit (heap_of self.old) class source self.old.targets }
        ensures advance { Advances self.old self.new }
    {
        match source {
            None => self.choose(class),
            Some(g) => self.move_from(class, g),
        }
    }
}
