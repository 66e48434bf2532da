// A store as what the lines of a script are performed on.
#![tactic(auto)]

ghost use Rattle.std.specs.Prelude.{◌≡◌};
ghost use Rattle.store.specs.Performed.{Performed};

use calls::{Answer, Call, Refusal};
use interpreter::recorder::Recorder;
use std::alloc::AllocError;
use store::records::Records;

#[derive(Drop)]
pub struct Recording<S> {
    store: S,
}

impl<S: Records> Recording<S> {
    // A recording on this store.
    pub fn new(store: S) -> Recording<S>
        ensures { S.Records.state result.store ≡ S.Records.state store }
    {
        Recording { store }
    }
}

impl<S: Records> Recorder for Recording<S> {
    ghost took = { λ s call answer t. Performed S.Records.held S.Records.planned call (S.Records.state s.store) answer (S.Records.state t.store) };

    fn perform(&mut self, call: &Call) -> Result<Result<Answer, Refusal>, AllocError> {
        Ok(self.store.perform(*call))
    }
}
