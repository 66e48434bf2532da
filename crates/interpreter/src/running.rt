// An interpreter: chunks of a script in, replies out.
ghost use Rattle.std.specs.Prelude.{◌≡◌, ℕ, List, [], ◌++◌, OnOk};
ghost use Rattle.lines.specs.Lines.{all_lines, rest_of};
ghost use Rattle.interpreter.specs.Runs.{Runs, Stands};

use crate::recorder::Recorder;
use crate::session::Session;
use lines::buffer::LineBuffer;
use std::alloc::{AllocError, Global};
use std::marker::Model;

// A session and the line of it that is not finished.
#[derive(Drop)]
pub struct Interpreter<R> {
    session: Session<R>,
    buffer: LineBuffer,
}

impl<R> Model for Interpreter<R> {
    ghost use Rattle.interpreter.specs.Views.{View, view_code};

    ghost Value = { View R };

    ghost coded = { view_code R.code };

    ghost view = { λ i. record { recorder = i.session.recorder; output = i.session.output.items; held = i.buffer } };
}

impl<R: Recorder> Interpreter<R> {
    // Before any input; nothing is written.
    pub fn new(heap: Global, recorder: R) -> Interpreter<R>
        ensures stands { Stands R.took recorder [] [] result.recorder result.held }
        ensures output { result.output ≡ [] }
    {
        Interpreter {
            session: Session {
                recorder,
                output: Vec::new(heap),
            },
            buffer: LineBuffer::new(),
        }
    }

    // Performs each line that a chunk ends. Whatever input came before in whatever chunks, what is then written is what the lines of all of it have written.
    pub fn feed(&mut self, chunk: &[u8]) -> Result<(), AllocError>
        ensures { OnOk result ((s : R) (bs written : List ℕ) → Stands R.took s bs written self.old.recorder self.old.held → (out : List ℕ) × Stands R.took s (bs ++ chunk.now) (written ++ out) self.new.recorder self.new.held × (self.new.output ≡ self.old.output ++ out)) }
    {
        self.buffer.feed(chunk, &mut self.session)
    }

    // Performs the last line of the input, if no line feed ends it. Then the next input may begin.
    pub fn finish(&mut self) -> Result<(), AllocError>
        ensures lines { OnOk result ((s : R) (bs written : List ℕ) → Stands R.took s bs written self.old.recorder self.old.held → (out : List ℕ) × Runs R.took s (all_lines bs) (written ++ out) self.new.recorder × (self.new.output ≡ self.old.output ++ out)) }
        ensures rest { OnOk result (self.new.held ≡ rest_of []) }
    {
        self.buffer.finish(&mut self.session)
    }

    // What is written and not yet taken away.
    pub fn output(&self) -> &[u8]
        ensures { result.now ≡ self.now.output }
    {
        self.session.output.as_slice()
    }

    // Takes away what is written.
    pub fn clear_output(&mut self)
        ensures output { self.new.output ≡ [] }
        ensures recorder { self.new.recorder ≡ self.old.recorder }
        ensures held { self.new.held ≡ self.old.held }
    {
        self.session.output.clear();
    }
}
