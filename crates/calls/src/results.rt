// The result of a call of one kind, as an answer or a refusal.
ghost use Rattle.std.specs.Prelude.{◌≡◌};
ghost use Rattle.calls.specs.Results.{said_counts, said_done, said_progress, said_same, said_shape, said_time, said_word};

use crate::{Answer, Refusal};

// The answer is nothing.
pub fn done(res: Result<(), Refusal>) -> Result<Answer, Refusal>
    ensures { result ≡ said_done res }
{
    res.map(|()| Answer::Done)
}

// The answer is a word.
pub fn word(res: Result<u32, Refusal>) -> Result<Answer, Refusal>
    ensures { result ≡ said_word res }
{
    res.map(Answer::Word)
}

// The answer is whether two places are the same.
pub fn same(res: Result<bool, Refusal>) -> Result<Answer, Refusal>
    ensures { result ≡ said_same res }
{
    res.map(Answer::Same)
}

// The answer is a shape.
pub fn shape(res: Result<(u32, u32), Refusal>) -> Result<Answer, Refusal>
    ensures { result ≡ said_shape res }
{
    res.map(|(references, words)| Answer::Shape { references, words })
}

// The answer is a time.
pub fn time(res: Result<u32, Refusal>) -> Result<Answer, Refusal>
    ensures { result ≡ said_time res }
{
    res.map(Answer::Time)
}

// The answer is a step's progress.
pub fn progress(res: Result<(u32, u32, bool), Refusal>) -> Result<Answer, Refusal>
    ensures { result ≡ said_progress res }
{
    res.map(|(done, total, unfinished)| Answer::Progress {
        done,
        total,
        unfinished,
    })
}

// The answer is counts.
pub fn counts(found: (u32, u32, u32, u32)) -> Result<Answer, Refusal>
    ensures { result ≡ said_counts found }
{
    let (current, husks, uncut, closed) = found;
    Ok(Answer::Counts {
        current,
        husks,
        uncut,
        closed,
    })
}
