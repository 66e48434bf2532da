// A store over any holder and any agenda.
ghost use Rattle.std.specs.Prelude.{◌≡◌};
ghost use Rattle.model.specs.State.{fresh};
ghost use Rattle.operations.specs.Parts.{state_of};

use crate::records::Records;
use calls::Refusal;
use engine::engine::Engine;
use engine::performs::Performs;
use holders::agenda::Agenda;
use holders::holder::Holder;

#[derive(Drop)]
pub struct Store<H: Holder + Drop, A: Agenda + Drop> {
    engine: Engine<H, A>,
}

impl<H: Holder + Drop, A: Agenda + Drop> Store<H, A> {
    // A fresh store: every place gets 0, every key goes. All memory is got here.
    pub fn new(holder: H, agenda: A) -> Store<H, A>
        ensures { state_of H.Holder.row A.Holder.row A.Agenda.keys result.engine.parts result.engine.clock result.engine.serial
            ≡ fresh H.Holder.PLACES A.Holder.PLACES }
    {
        Store {
            engine: Engine::new(holder, agenda),
        }
    }
}

impl<H: Holder + Drop, A: Agenda + Drop> Records for Store<H, A> {
    ghost state = { λ s. state_of H.Holder.row A.Holder.row A.Agenda.keys s.engine.parts s.engine.clock s.engine.serial };

    ghost held = { H.Holder.PLACES };

    ghost planned = { A.Holder.PLACES };

    fn make(&mut self, place: u32, references: u32, words: u32) -> Result<(), Refusal> {
        self.engine.make(place, references, words)
    }

    fn load(&mut self, into: u32, from: u32, reference: u32) -> Result<(), Refusal> {
        self.engine.load(into, from, reference)
    }

    fn store(&mut self, into: u32, reference: u32, from: u32) -> Result<(), Refusal> {
        self.engine.store(into, reference, from)
    }

    fn read(&self, from: u32, word: u32) -> Result<u32, Refusal> {
        self.engine.read(from, word)
    }

    fn write(&mut self, into: u32, word: u32, value: u32) -> Result<(), Refusal> {
        self.engine.write(into, word, value)
    }

    fn copy(&mut self, into: u32, from: u32) -> Result<(), Refusal> {
        self.engine.copy(into, from)
    }

    fn clear(&mut self, place: u32) -> Result<(), Refusal> {
        self.engine.clear(place)
    }

    fn same(&self, left: u32, right: u32) -> Result<bool, Refusal> {
        self.engine.same(left, right)
    }

    fn shape(&self, place: u32) -> Result<(u32, u32), Refusal> {
        self.engine.shape(place)
    }

    fn schedule(&mut self, time: u32, place: u32) -> Result<(), Refusal> {
        self.engine.schedule(time, place)
    }

    fn next(&mut self, into: u32) -> Result<u32, Refusal> {
        self.engine.next(into)
    }

    fn begin(&mut self) -> Result<(), Refusal> {
        self.engine.begin()
    }

    fn step(&mut self, units: u32) -> Result<(u32, u32, bool), Refusal> {
        self.engine.step(units)
    }

    fn count(&self) -> (u32, u32, u32, u32) {
        self.engine.count()
    }
}
