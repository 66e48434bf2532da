// What calls are performed on.
ghost use Rattle.std.specs.Prelude.{IfOk};
ghost use Rattle.interpreter.specs.Runs.{Took};

use calls::{Answer, Call, Refusal};
use std::alloc::AllocError;

// A recorder says what each call leads to. One that has no collector refuses the calls of a collection as no call.
pub trait Recorder {
    ghost took: { Took Self };

    // Performs a call, or finds no memory for it.
    fn perform(&mut self, call: &Call) -> Result<Result<Answer, Refusal>, AllocError>
        ensures { IfOk result (λ a. took self.old call.now a self.new) };
}
