// A size class.

// The words of a block, and the blocks of a page.
#[derive(Clone, Copy)]
pub struct Class {
    pub size: usize,
    pub blocks: usize,
}
