// A record: a row of references and a row of words, 30 numbers at most.
ghost use Rattle.std.specs.Prelude.{◌≡◌, ◌+◌, ◌≤◌, length, replicate, IfOk, vec_len};

use std::alloc::{AllocError, Global};

#[derive(Drop)]
pub(crate) struct Record {
    pub(crate) references: Vec<u32>,
    pub(crate) words: Vec<u32>,
    ghost small: { vec_len references + vec_len words ≤ 30 },
}

impl Record {
    // A record of so many nil references and zero words.
    pub(crate) fn new(heap: Global, references: u32, words: u32) -> Result<Record, AllocError>
        requires { references + words ≤ 30 }
        ensures { IfOk result (λ x. (x.references.items ≡ replicate references 0) × (x.words.items ≡ replicate words 0)) }
    {
        Ok(Record {
            references: vec![in heap; 0u32; references as usize]?,
            words: vec![in heap; 0u32; words as usize]?,
        })
    }

    // How many references and words there are.
    pub(crate) fn lengths(&self) -> (u32, u32)
        ensures { result ≡ (length self.now.references.items, length self.now.words.items) }
    {
        (self.references.len() as u32, self.words.len() as u32)
    }
}
