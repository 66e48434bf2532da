// The calls that go from place to place: copy, clear and same.
ghost use Rattle.calls.specs.declared.Call.TheVariants as call;
ghost use Rattle.calls.specs.Results.{said_done, said_same};
ghost use Rattle.graph.specs.Performs.{Performs};

use crate::Graph;
use calls::Refusal;

impl Graph {
    // A place gets what another holds.
    pub fn copy(&mut self, into: u32, from: u32) -> Result<(), Refusal>
        ensures { Performs (call.Copy into from) self.old self.new (said_done result) }
    {
        self.held(into)?;
        self.places[into as usize] = self.held(from)?;
        Ok(())
    }

    // A place gets nil.
    pub fn clear(&mut self, place: u32) -> Result<(), Refusal>
        ensures { Performs (call.Clear place) self.old self.new (said_done result) }
    {
        self.held(place)?;
        self.places[place as usize] = 0;
        Ok(())
    }

    // Whether two places name one record, or are both nil.
    pub fn same(&self, left: u32, right: u32) -> Result<bool, Refusal>
        ensures { Performs (call.Same left right) self.now self.now (said_same result) }
    {
        Ok(self.held(left)? == self.held(right)?)
    }
}
