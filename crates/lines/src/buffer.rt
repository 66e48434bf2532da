// The line that is being read: its bytes so far, of which the first 81 are kept.
use arrayvec::ArrayVec;
use std::marker::Model;

// Contracts see the bytes.
#[derive(Drop)]
pub struct LineBuffer {
    pub(crate) bytes: ArrayVec<u8, 81>,
}

impl Model for LineBuffer {
    ghost use Rattle.std.specs.Prelude.{ℕ, ◌≤◌, List, length};

    ghost Value = { List ℕ };

    ghost view = { λ b. b.bytes.items };

    ghost invariant = { λ b. length b.bytes.items ≤ 81 };
}
