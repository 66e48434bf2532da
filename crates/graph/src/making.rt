// The call that makes a record.
ghost use Rattle.calls.specs.declared.Call.TheVariants as call;
ghost use Rattle.calls.specs.Results.{said_done};
ghost use Rattle.graph.specs.Performs.{PerformsIfMemory};

use crate::Graph;
use crate::records::Record;
use calls::Refusal;
use std::alloc::AllocError;

impl Graph {
    // A new record of so many nil references and zero words; the place names it.
    // A record is numbered by 32 bits: with the numbers used up there is no memory for another.
    pub fn make(
        &mut self,
        place: u32,
        references: u32,
        words: u32,
    ) -> Result<Result<(), Refusal>, AllocError>
        ensures { PerformsIfMemory said_done (call.Make place references words) self.old self.new result }
    {
        // no `?`: it hands on want of memory, and a refusal is an answer
        if let Err(refusal) = self.held(place) {
            return Ok(Err(refusal));
        }
        if u64::from(references) + u64::from(words) > 30 {
            return Ok(Err(Refusal::TooLarge));
        }
        let number = u32::try_from(self.records.len() + 1).map_err(|_| AllocError)?;
        let record = Record::new(self.heap, references, words)?;
        self.records.push(record)?;
        self.places[place as usize] = number;
        Ok(Ok(()))
    }
}
