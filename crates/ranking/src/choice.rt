// Candidates in order: the least figure first, and of equal figures the lowest number.
ghost use Rattle.ranking.specs.Candidates.{candidate_before};
ghost use Rattle.std.proofs.Common.{rules};

use crate::candidate::Candidate;
use crate::ranked::Ranked;

// Each kind of item shows the laws of its own order, as keys do; `precedes` is the derived `<`.
impl Ranked for Candidate {
    ghost before = { candidate_before };

    ghost never_itself = { Prim.search rules };

    ghost one_way = { Prim.search rules };

    ghost either_way = { Prim.search rules };

    ghost chain = { Prim.search rules };

    fn precedes(self, other: Candidate) -> bool {
        self < other
    }
}
