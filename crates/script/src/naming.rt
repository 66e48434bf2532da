// The call of a letter and its numbers.
ghost use Rattle.std.specs.Prelude.{◌≡◌, Some};
ghost use Rattle.script.specs.Lines.{named_call};

use calls::Call;

// The call of a letter and of the numbers that follow it.
pub(crate) fn call_named(letter: char, numbers: &[u32]) -> Option<Call>
    ensures { result ≡ named_call letter (Some numbers.now) }
{
    match (letter, numbers) {
        ('M', &[place, references, words]) => Some(Call::Make {
            place,
            references,
            words,
        }),
        ('L', &[into, from, reference]) => Some(Call::Load {
            into,
            from,
            reference,
        }),
        ('S', &[into, reference, from]) => Some(Call::Store {
            into,
            reference,
            from,
        }),
        ('R', &[from, word]) => Some(Call::Read { from, word }),
        ('W', &[into, word, value]) => Some(Call::Write { into, word, value }),
        ('C', &[into, from]) => Some(Call::Copy { into, from }),
        ('K', &[place]) => Some(Call::Clear { place }),
        ('Q', &[left, right]) => Some(Call::Same { left, right }),
        ('H', &[place]) => Some(Call::Shape { place }),
        ('E', &[time, place]) => Some(Call::Schedule { time, place }),
        ('N', &[into]) => Some(Call::Next { into }),
        ('B', []) => Some(Call::Begin),
        ('G', &[units]) => Some(Call::Step { units }),
        ('T', []) => Some(Call::Count),
        _ => None,
    }
}
