// The definitions that the contracts of the store speak of (see specs/), and what is shown of them by examples.
#![tactic(auto)]

ghost use Rattle.std.specs.Prelude.{◌≡◌, length};
ghost use Rattle.model.specs.Classes.{sizes};
ghost use Rattle.model.specs.Worked.{Worked};

// How many size classes there are; that the worked examples come out so is shown with it.
pub fn class_count() -> u32
    ensures value { result ≡ length sizes }
    ensures worked { Worked }
{
    20
}
