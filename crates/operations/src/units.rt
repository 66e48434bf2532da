// The units of a collection: roots over the places of a holder and an agenda, and what the collector does by itself.
ghost use Rattle.std.specs.Prelude.{◌≡◌, ℕ, ◌+◌, ◌<◌, ◌≤◌, cond, length, Some};
ghost use Rattle.model.specs.Pages.{current};
ghost use Rattle.model.specs.Units.{unit, steps, done_in};
ghost use Rattle.collector.specs.View.{heap_of, root_of, root_unit_by};
ghost use Rattle.operations.specs.Parts.{state_of, unit_if_running};

use crate::parts::Parts;
use collector::collector::Collector;
use holders::agenda::Agenda;
use holders::holder::Holder;

// The next root, of so many, is this number: its current form is greyed, and is the answer.
#[inline(always)]
fn take_root(collector: &mut Collector, number: u32, roots: u16) -> u32
    ensures heap { heap_of collector.new ≡ root_unit_by (heap_of collector.old) roots (current (heap_of collector.old).pages number) (heap_of collector.old).phase }
    ensures form { result ≡ current (heap_of collector.old).pages number }
{
    let form = collector.current(number);
    collector.root_unit(roots, form);
    form
}

// A definition cannot name the members of a bound, so each clause hands them to `state_of`.
impl<H: Holder, A: Agenda> Parts<H, A> {
    // One unit of the roots: the next place of the holder, after these of the agenda, gets its current form.
    fn root(&mut self, next: u16)
        requires { Some next ≡ root_of (heap_of self.old.collector).phase }
        ensures { (clock serial : ℕ) → state_of H.Holder.row A.Holder.row A.Agenda.keys self.new clock serial
            ≡ unit (state_of H.Holder.row A.Holder.row A.Agenda.keys self.old clock serial) }
    {
        let place = u32::from(next);
        let held = H::count();
        let roots = (held + A::count()) as u16;
        if place < held {
            let form = take_root(&mut self.collector, self.holder.get(place), roots);
            self.holder.put(place, form);
        } else {
            let planned = place - held;
            let form = take_root(&mut self.collector, self.agenda.get(planned), roots);
            self.agenda.write(planned, form);
        }
    }

    // One unit, where a collection runs.
    fn unit(&mut self)
        ensures { (clock serial : ℕ) → state_of H.Holder.row A.Holder.row A.Agenda.keys self.new clock serial
            ≡ unit_if_running (state_of H.Holder.row A.Holder.row A.Agenda.keys self.old clock serial) }
    {
        match self.collector.next_root() {
            Some(next) => self.root(next),
            None => self.collector.unit(),
        }
    }

    // Units until so many are done or the collection ends; answers how many were done.
    pub fn spend(&mut self, units: u32) -> u32
        ensures after { (clock serial : ℕ) → state_of H.Holder.row A.Holder.row A.Agenda.keys self.new clock serial
            ≡ steps units (state_of H.Holder.row A.Holder.row A.Agenda.keys self.old clock serial) }
        ensures done { (clock serial : ℕ) → result
            ≡ done_in units (state_of H.Holder.row A.Holder.row A.Agenda.keys self.old clock serial) }
    {
        // a budget, of which the collection may leave some
        for done in 0..units {
            if !self.collector.is_running() {
                return done;
            }
            self.unit();
        }
        units
    }
}
