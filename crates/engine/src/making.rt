// An engine made of a holder and an agenda, whatever they hold.
ghost use Rattle.std.specs.Prelude.{◌≡◌};
ghost use Rattle.model.specs.State.{fresh};
ghost use Rattle.operations.specs.Parts.{state_of};

use crate::engine::Engine;
use collector::collector::Collector;
use holders::agenda::Agenda;
use holders::clearing::{clear_agenda, clear_places};
use holders::holder::Holder;
use operations::parts::Parts;

impl<H: Holder + Drop, A: Agenda + Drop> Engine<H, A> {
    // Every place gets 0 and every key goes; the pages are uncut, and there is no collection.
    pub fn new(mut holder: H, mut agenda: A) -> Engine<H, A>
        ensures { state_of H.Holder.row A.Holder.row A.Agenda.keys result.parts result.clock result.serial ≡ fresh H.Holder.PLACES A.Holder.PLACES }
    {
        clear_places(&mut holder);
        clear_agenda(&mut agenda);
        Engine {
            parts: Parts {
                collector: Collector::new(),
                holder,
                agenda,
            },
            clock: 0,
            serial: 0,
        }
    }
}
