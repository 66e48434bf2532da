// The calls of a store: each has its exact answer and state by the definitions, and upholds the law.
ghost use Rattle.std.specs.Prelude.{◌≡◌, ℕ, Ok};
ghost use Rattle.calls.specs.declared.Call.TheVariants.{Make, Load, Store, Read, Write, Copy, Clear, Same, Shape, Schedule, Next, Begin, Step, Count};
ghost use Rattle.calls.specs.Results.{said_counts, said_done, said_progress, said_same, said_shape, said_time, said_word};
ghost use Rattle.model.specs.State.{State};
ghost use Rattle.store.specs.Performed.{Performed};

use calls::{Answer, Call, Refusal};

// What a step answers.
fn progress(step: (u32, u32, bool)) -> Answer
    ensures { Ok result ≡ said_progress (Ok step) }
{
    let (done, total, unfinished) = step;
    Answer::Progress {
        done,
        total,
        unfinished,
    }
}

// What a count answers.
fn counts(found: (u32, u32, u32, u32)) -> Answer
    ensures { Ok result ≡ said_counts found }
{
    let (current, husks, uncut, closed) = found;
    Answer::Counts {
        current,
        husks,
        uncut,
        closed,
    }
}

// The calls stand here again beside Performs: at a bound a call promises what its own trait says, and the engine knows no law.
pub trait Records {
    // what the store stands for
    ghost state: { Self → State };

    // how many places its holder and its agenda have
    ghost held: { ℕ };

    ghost planned: { ℕ };

    // A new record of so many nil references and zero words; the place names it.
    fn make(&mut self, place: u32, references: u32, words: u32) -> Result<(), Refusal>
        ensures { Performed held planned (Make place references words) (state self.old) (said_done result) (state self.new) };

    // A place gets a reference of the record in another.
    fn load(&mut self, into: u32, from: u32, reference: u32) -> Result<(), Refusal>
        ensures { Performed held planned (Load into from reference) (state self.old) (said_done result) (state self.new) };

    // A reference of the record in a place gets what another place holds.
    fn store(&mut self, into: u32, reference: u32, from: u32) -> Result<(), Refusal>
        ensures { Performed held planned (Store into reference from) (state self.old) (said_done result) (state self.new) };

    // A word of the record in a place.
    fn read(&self, from: u32, word: u32) -> Result<u32, Refusal>
        ensures { Performed held planned (Read from word) (state self.now) (said_word result) (state self.now) };

    // A word of the record in a place gets a value.
    fn write(&mut self, into: u32, word: u32, value: u32) -> Result<(), Refusal>
        ensures { Performed held planned (Write into word value) (state self.old) (said_done result) (state self.new) };

    // A place gets what another holds.
    fn copy(&mut self, into: u32, from: u32) -> Result<(), Refusal>
        ensures { Performed held planned (Copy into from) (state self.old) (said_done result) (state self.new) };

    // A place gets nil.
    fn clear(&mut self, place: u32) -> Result<(), Refusal>
        ensures { Performed held planned (Clear place) (state self.old) (said_done result) (state self.new) };

    // Whether two places name one record, or are both nil.
    fn same(&self, left: u32, right: u32) -> Result<bool, Refusal>
        ensures { Performed held planned (Same left right) (state self.now) (said_same result) (state self.now) };

    // How many references and words the record in a place has.
    fn shape(&self, place: u32) -> Result<(u32, u32), Refusal>
        ensures { Performed held planned (Shape place) (state self.now) (said_shape result) (state self.now) };

    // An event at a time, for the record in a place.
    fn schedule(&mut self, time: u32, place: u32) -> Result<(), Refusal>
        ensures { Performed held planned (Schedule time place) (state self.old) (said_done result) (state self.new) };

    // The first event goes: a place gets its record, the clock its time, which is the answer.
    fn next(&mut self, into: u32) -> Result<u32, Refusal>
        ensures { Performed held planned (Next into) (state self.old) (said_time result) (state self.new) };

    // A collection begins.
    fn begin(&mut self) -> Result<(), Refusal>
        ensures { Performed held planned Begin (state self.old) (said_done result) (state self.new) };

    // So many units of the collection: those done now, those done since it began, and whether it is unfinished.
    fn step(&mut self, units: u32) -> Result<(u32, u32, bool), Refusal>
        ensures { Performed held planned (Step units) (state self.old) (said_progress result) (state self.new) };

    // Current blocks, husks, uncut pages and closed pages.
    fn count(&self) -> (u32, u32, u32, u32)
        ensures { Performed held planned Count (state self.now) (said_counts result) (state self.now) };

    // Any call, as a line of a script asks for it.
    fn perform(&mut self, call: Call) -> Result<Answer, Refusal>
        ensures { Performed held planned call (state self.old) result (state self.new) }
    {
        match call {
            Call::Make {
                place,
                references,
                words,
            } => self.make(place, references, words).map(|()| Answer::Done),
            Call::Load {
                into,
                from,
                reference,
            } => self.load(into, from, reference).map(|()| Answer::Done),
            Call::Store {
                into,
                reference,
                from,
            } => self.store(into, reference, from).map(|()| Answer::Done),
            Call::Read { from, word } => self.read(from, word).map(Answer::Word),
            Call::Write { into, word, value } => self
                .write(into, word, value)
                .map(|()| Answer::Done),
            Call::Copy { into, from } => self.copy(into, from).map(|()| Answer::Done),
            Call::Clear { place } => self.clear(place).map(|()| Answer::Done),
            Call::Same { left, right } => self.same(left, right).map(Answer::Same),
            Call::Shape { place } => self
                .shape(place)
                .map(|(references, words)| Answer::Shape { references, words }),
            Call::Schedule { time, place } => self.schedule(time, place).map(|()| Answer::Done),
            Call::Next { into } => self.next(into).map(Answer::Time),
            Call::Begin => self.begin().map(|()| Answer::Done),
            Call::Step { units } => self.step(units).map(progress),
            Call::Count => Ok(counts(self.count())),
        }
    }
}
