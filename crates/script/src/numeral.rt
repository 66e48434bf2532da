// The number that a field writes.
ghost use Rattle.std.specs.Prelude.{◌≡◌};
ghost use Rattle.script.specs.Numerals.{numeral};
ghost use Rattle.script.specs.Scanning.{scanned, digit_added};

// No numeral has this digit before another.
const ZERO: u8 = b'0';

// The number after one more digit, where the byte is one and the number fits.
fn with_digit(value: u32, b: u8) -> Option<u32>
    ensures { result ≡ digit_added value b }
{
    let digit = char::from(b).to_digit(10)?;
    value.checked_mul(10)?.checked_add(digit)
}

// The number that digits write, where each byte is one and the number fits.
fn digits_of(field: &[u8]) -> Option<u32>
    ensures { result ≡ scanned 0 field.now }
{
    field.iter().try_fold(0, |value, b| with_digit(value, *b))
}

// The number that a field writes, if it is a numeral: there is a byte, and no zero before another.
pub(crate) fn numeral_of(field: &[u8]) -> Option<u32>
    ensures { result ≡ numeral field.now }
{
    let [first, rest @ ..] = field else {
        return None;
    };
    if *first == ZERO && !rest.is_empty() {
        return None;
    }
    digits_of(field)
}
