// Numbers between the first and the last bytes of a line.
ghost use Rattle.std.specs.Prelude.{◌≡◌, ◌+◌, ◌*◌, ◌≤◌, ◌++◌, length, vec_len, vec_capacity, decimal};
ghost use Rattle.calls.specs.Spelling.{tabbed};

use itoa::Buffer;

// A number in decimal, behind what is in a buffer that has room for it. One digit, which most numbers have, is one byte.
fn put_decimal(out: &mut Vec<u8>, n: u32)
    requires { vec_len out.old + 10 ≤ vec_capacity out.old }
    ensures items { out.new.items ≡ out.old.items ++ decimal n }
    ensures few { vec_len out.new ≤ vec_len out.old + 10 }
    ensures capacity { vec_capacity out.old ≤ vec_capacity out.new }
{
    if n < 10 {
        let _ = out.push(b'0' + n as u8);
    } else {
        let mut digits = Buffer::new();
        let _ = out.extend_from_slice(digits.format(n).as_bytes());
    }
}

// The first bytes of a line, each number behind a tab, and the last bytes, behind what is in a buffer that has room for them.
// Straight into the buffer: put together in an ArrayVec and then copied, a short reply takes half as long again.
#[inline(always)]
pub(crate) fn put_numbered(out: &mut Vec<u8>, first: &[u8], numbers: &[u32], last: &[u8])
    requires { vec_len out.old + (length first.now + 11 * length numbers.now + length last.now) ≤ vec_capacity out.old }
    ensures { out.new.items ≡ out.old.items ++ (first.now ++ (tabbed numbers.now ++ last.now)) }
{
    let _ = out.extend_from_slice(first);
    for number in numbers {
        let _ = out.push(b'\t');
        put_decimal(out, *number);
    }
    let _ = out.extend_from_slice(last);
}
