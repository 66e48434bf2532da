// The fourteen calls, each by the definitions: its answer, and the state that it leaves.
ghost use Rattle.calls.specs.declared.Call.TheVariants.{Make, Load, Store, Read, Write, Copy, Clear, Same, Shape, Schedule, Next, Begin, Step, Count};
ghost use Rattle.calls.specs.Results.{said_counts, said_done, said_progress, said_same, said_shape, said_time, said_word};
ghost use Rattle.model.specs.State.{State};
ghost use Rattle.engine.specs.Applied.{Applied};

use calls::Refusal;

// What step and count answer has names in `Answer`, the one thing made of it: a struct for each would name it twice.
pub trait Performs {
    // the state that the parts make up
    ghost state: { Self → State };

    // A new record of so many nil references and zero words; the place names it.
    fn make(&mut self, place: u32, references: u32, words: u32) -> Result<(), Refusal>
        ensures { Applied (Make place references words) (state self.old) (said_done result) (state self.new) };

    // A place gets a reference of the record in another.
    fn load(&mut self, into: u32, from: u32, reference: u32) -> Result<(), Refusal>
        ensures { Applied (Load into from reference) (state self.old) (said_done result) (state self.new) };

    // A reference of the record in a place gets what another place holds.
    fn store(&mut self, into: u32, reference: u32, from: u32) -> Result<(), Refusal>
        ensures { Applied (Store into reference from) (state self.old) (said_done result) (state self.new) };

    // A word of the record in a place.
    fn read(&self, from: u32, word: u32) -> Result<u32, Refusal>
        ensures { Applied (Read from word) (state self.now) (said_word result) (state self.now) };

    // A word of the record in a place gets a value.
    fn write(&mut self, into: u32, word: u32, value: u32) -> Result<(), Refusal>
        ensures { Applied (Write into word value) (state self.old) (said_done result) (state self.new) };

    // A place gets what another holds.
    fn copy(&mut self, into: u32, from: u32) -> Result<(), Refusal>
        ensures { Applied (Copy into from) (state self.old) (said_done result) (state self.new) };

    // A place gets nil.
    fn clear(&mut self, place: u32) -> Result<(), Refusal>
        ensures { Applied (Clear place) (state self.old) (said_done result) (state self.new) };

    // Whether two places name one record, or are both nil.
    fn same(&self, left: u32, right: u32) -> Result<bool, Refusal>
        ensures { Applied (Same left right) (state self.now) (said_same result) (state self.now) };

    // How many references and words the record in a place has.
    fn shape(&self, place: u32) -> Result<(u32, u32), Refusal>
        ensures { Applied (Shape place) (state self.now) (said_shape result) (state self.now) };

    // An event at a time, for the record in a place.
    fn schedule(&mut self, time: u32, place: u32) -> Result<(), Refusal>
        ensures { Applied (Schedule time place) (state self.old) (said_done result) (state self.new) };

    // The first event goes: a place gets its record, the clock its time, which is the answer.
    fn next(&mut self, into: u32) -> Result<u32, Refusal>
        ensures { Applied (Next into) (state self.old) (said_time result) (state self.new) };

    // A collection begins.
    fn begin(&mut self) -> Result<(), Refusal>
        ensures { Applied Begin (state self.old) (said_done result) (state self.new) };

    // So many units of the collection: those done now, those done since it began, and whether it is unfinished.
    fn step(&mut self, units: u32) -> Result<(u32, u32, bool), Refusal>
        ensures { Applied (Step units) (state self.old) (said_progress result) (state self.new) };

    // Current blocks, husks, uncut pages and closed pages.
    fn count(&self) -> (u32, u32, u32, u32)
        ensures { Applied Count (state self.now) (said_counts result) (state self.now) };
}
