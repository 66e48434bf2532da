// The calls that read and write a record: load, store, read, write and shape.
ghost use Rattle.calls.specs.declared.Call.TheVariants as call;
ghost use Rattle.calls.specs.Results.{said_done, said_shape, said_word};
ghost use Rattle.graph.specs.Performs.{Performs};

use crate::Graph;
use crate::rows::Row;
use calls::Refusal;

impl Graph {
    // A place gets a reference of the record in another.
    pub fn load(&mut self, into: u32, from: u32, reference: u32) -> Result<(), Refusal>
        ensures { Performs (call.Load into from reference) self.old self.new (said_done result) }
    {
        self.held(into)?;
        let number = self.named(from)?;
        let value = self
            .entry(number, Row::References, reference)
            .ok_or(Refusal::NoSuchReference)?;
        self.places[into as usize] = value;
        Ok(())
    }

    // A reference of the record in a place gets what another place holds.
    pub fn store(&mut self, into: u32, reference: u32, from: u32) -> Result<(), Refusal>
        ensures { Performs (call.Store into reference from) self.old self.new (said_done result) }
    {
        let value = self.held(from)?;
        let number = self.named(into)?;
        self.set_entry(number, Row::References, reference, value)
            .ok_or(Refusal::NoSuchReference)
    }

    // A word of the record in a place.
    pub fn read(&self, from: u32, word: u32) -> Result<u32, Refusal>
        ensures { Performs (call.Read from word) self.now self.now (said_word result) }
    {
        let number = self.named(from)?;
        self.entry(number, Row::Words, word)
            .ok_or(Refusal::NoSuchWord)
    }

    // A word of the record in a place gets a value.
    pub fn write(&mut self, into: u32, word: u32, value: u32) -> Result<(), Refusal>
        ensures { Performs (call.Write into word value) self.old self.new (said_done result) }
    {
        let number = self.named(into)?;
        self.set_entry(number, Row::Words, word, value)
            .ok_or(Refusal::NoSuchWord)
    }

    // How many references and words the record in a place has.
    pub fn shape(&self, place: u32) -> Result<(u32, u32), Refusal>
        ensures { Performs (call.Shape place) self.now self.now (said_shape result) }
    {
        Ok(self.lengths(self.named(place)?))
    }
}
