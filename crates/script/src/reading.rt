// Reading a line.
ghost use Rattle.std.specs.Prelude.{◌≡◌};
ghost use Rattle.script.specs.Fields.{fields};
ghost use Rattle.script.specs.Lines.{Exact, call_of_fields, meaning, sense};

use crate::line::Line;
use crate::naming::call_named;
use crate::numeral::numeral_of;
use arrayvec::ArrayVec;
use calls::Call;

// The most bytes that a line may have.
const LONGEST: usize = 80;

// The call of a line, if it is one: the first field is a letter, and each other field a number.
fn call_in(line: &[u8]) -> Option<Call>
    ensures { result ≡ call_of_fields (fields line.now) }
{
    let mut fields = line.split(|b| *b == b'\t');
    let [letter] = fields.next()? else {
        return None;
    };
    let mut numbers = ArrayVec::<u32, 3>::new();
    for field in fields {
        numbers.try_push(numeral_of(field)?).ok()?;
    }
    call_named(char::from(*letter), numbers.as_slice())
}

// What a line, without its line feed, says. It says a call exactly if it is the line of that call, and it is a remark
// exactly if it has at most 80 bytes and begins with #.
pub fn read_line(line: &[u8]) -> Line<'_>
    ensures value { sense result ≡ meaning line.now }
    ensures exact { Exact line.now (sense result) }
{
    if line.len() > LONGEST {
        return Line::NoCall;
    }
    if line.starts_with(b"#") {
        return Line::Remark(line);
    }
    // not `map_or`: the proof would not see which line the closure makes
    let Some(call) = call_in(line) else {
        return Line::NoCall;
    };
    Line::Call(call)
}
