// A line, performed.
ghost use Rattle.std.specs.Prelude.{◌≡◌, ℕ, List, ◌++◌};
ghost use Rattle.script.specs.Lines.{meaning};
ghost use Rattle.interpreter.specs.Runs.{Does};

use crate::recorder::Recorder;
use lines::feeding::LineHandler;
use printing::lines::{add_line, add_no_call, add_reply};
use script::line::Line;
use script::reading::read_line;
use std::alloc::AllocError;

// A recorder and what is written for it.
#[derive(Drop)]
pub struct Session<R> {
    pub(crate) recorder: R,
    pub(crate) output: Vec<u8>,
}

impl<R: Recorder> LineHandler for Session<R> {
    type Fault = AllocError;

    ghost handled = { λ s line t. (out : List ℕ) × Does R.Recorder.took s.recorder (meaning line) out t.recorder × (t.output.items ≡ s.output.items ++ out) };

    fn handle(&mut self, line: &[u8]) -> Result<(), AllocError> {
        match read_line(line) {
            Line::Call(call) => {
                let answer = self.recorder.perform(&call)?;
                add_reply(&mut self.output, &call, &answer)
            }
            Line::Remark(bytes) => add_line(&mut self.output, bytes),
            Line::NoCall => add_no_call(&mut self.output),
        }
    }
}
