// What stands for choice by a figure: the figure, and the number by which the thing itself is found.
// Candidates compare by figure, then by number, as the order of the fields says.
#[derive(Clone, Copy, PartialEq, Eq, PartialOrd, Ord)]
pub struct Candidate {
    pub figure: u32,
    pub number: u32,
}
