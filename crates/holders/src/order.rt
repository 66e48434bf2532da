// Keys in order: the least time first, and of equal times the least serial.
ghost use Rattle.holders.specs.Keys.{key_before};
ghost use Rattle.std.proofs.Common.{rules};

use crate::key::Key;
use ranking::ranked::Ranked;

// Each kind of item shows the laws of its own order, as candidates do; `precedes` is the derived `<`.
impl Ranked for Key {
    ghost before = { key_before };

    ghost never_itself = { Prim.search rules };

    ghost one_way = { Prim.search rules };

    ghost either_way = { Prim.search rules };

    ghost chain = { Prim.search rules };

    fn precedes(self, other: Key) -> bool {
        self < other
    }
}
