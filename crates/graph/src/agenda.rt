// The calls on events: schedule and next.
ghost use Rattle.std.specs.Prelude.{◌≡◌, length, Some, None, MatchResult, nat_le};
ghost use Rattle.calls.specs.declared.Call.TheVariants as call;
ghost use Rattle.model.specs.Graph.{graph_refusal};
ghost use Rattle.graph.specs.View.{graph_of, event_of, event_at};
ghost use Rattle.calls.specs.Results.{said_done, said_time};
ghost use Rattle.graph.specs.Performs.{Performs, PerformsIfMemory};

use crate::Graph;
use crate::events::{Event, take_first};
use calls::Refusal;
use holders::key::Key;
use std::alloc::AllocError;

impl Graph {
    // Whether the agenda has no room for a further event.
    fn full(&self) -> bool
        ensures { result ≡ nat_le self.now.agenda (length (graph_of self.now).events) }
    {
        self.agenda as usize <= self.events.len()
    }

    // The event at a time for the record in a place.
    fn event(&self, time: u32, place: u32) -> Result<Event, Refusal>
        ensures { MatchResult result (λ e. (graph_refusal (call.Schedule time place) (graph_of self.now) self.now.agenda ≡ None) × (event_of e ≡ event_at (graph_of self.now) time place)) (λ n. graph_refusal (call.Schedule time place) (graph_of self.now) self.now.agenda ≡ Some n) }
    {
        let names = self.named(place)?;
        // tests of the graph alone answer nothing that an option could hand on
        if self.full() {
            return Err(Refusal::AgendaFull);
        }
        if time < self.clock {
            return Err(Refusal::TimePassed);
        }
        self.serial.checked_add(1).ok_or(Refusal::SerialsUsedUp)?;
        let key = Key {
            time,
            serial: self.serial,
        };
        Ok(Event { key, names })
    }

    // An event at a time, for the record in a place.
    pub fn schedule(&mut self, time: u32, place: u32) -> Result<Result<(), Refusal>, AllocError>
        ensures { PerformsIfMemory said_done (call.Schedule time place) self.old self.new result }
    {
        // no `?`: it hands on want of memory, and a refusal is an answer
        match self.event(time, place) {
            Ok(event) => {
                self.events.insert(0, event)?;
                self.serial += 1;
                Ok(Ok(()))
            }
            Err(refusal) => Ok(Err(refusal)),
        }
    }

    // The first event goes: a place gets its record, the clock its time.
    pub fn next(&mut self, into: u32) -> Result<u32, Refusal>
        ensures { Performs (call.Next into) self.old self.new (said_time result) }
    {
        self.held(into)?;
        let event = take_first(&mut self.events).ok_or(Refusal::NoEvent)?;
        self.places[into as usize] = event.names;
        self.clock = event.key.time;
        Ok(event.key.time)
    }
}
