// A register file: thirty-two places that bear no key.
ghost use Rattle.std.specs.Prelude.{◌≡◌, length, replicate};
ghost use Rattle.std.proofs.Common.{rules};

use crate::holder::Holder;
use crate::row::{read_place, write_place};

#[derive(Drop)]
pub struct Registers {
    numbers: [u32; 32],
    // the laws of a holder are of lists, which have no length of their own as an array has
    ghost wide: { length numbers ≡ 32 },
}

impl Registers {
    pub fn new() -> Registers
        ensures { result.numbers ≡ replicate 32 0 }
    {
        Registers { numbers: [0; 32] }
    }
}

impl Holder for Registers {
    const PLACES: u32 = 32;

    ghost PLACES = { 32 };

    ghost row = { λ h. h.numbers };

    ghost some = { Prim.search rules };

    ghost few = { Prim.search rules };

    ghost long = { λ h. h.wide };

    fn get(&self, i: u32) -> u32 {
        read_place(&self.numbers, i, 0)
    }

    fn put(&mut self, i: u32, v: u32) {
        write_place(&mut self.numbers, i, v);
    }
}
