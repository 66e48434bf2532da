// Events, and the one of them that comes first.
ghost use Rattle.std.specs.Prelude.{◌≡◌, map};
ghost use Rattle.std.specs.Option.{option_map};
ghost use Rattle.graph.specs.View.{event_of, first_out};

use holders::key::Key;
use std::mem;

// The record of a number is due at a key.
#[derive(Clone, Copy)]
pub(crate) struct Event {
    pub(crate) key: Key,
    pub(crate) names: u32,
}

// Takes the first event out, if there is one: the later of two stays where the earlier was passed.
pub(crate) fn take_first(events: &mut Vec<Event>) -> Option<Event>
    ensures { (option_map event_of result, map event_of events.new.items) ≡ first_out (map event_of events.old.items) }
{
    let (first, others) = events.split_first_mut()?;
    for event in others {
        if event.key < first.key {
            mem::swap(event, first);
        }
    }
    Some(events.remove(0))
}
