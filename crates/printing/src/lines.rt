// The line of a call, and the lines that answer.
ghost use Rattle.std.specs.Prelude.{◌≡◌, ◌+◌, ◌≤◌, true, [], ◌∷◌, ◌++◌, length, is_ok, IfOk, if◌then◌else◌, vec_len, vec_capacity};
ghost use Rattle.calls.specs.Numbers.{Words, answered, letter_of, numbers_of};
ghost use Rattle.calls.specs.Spelling.{call_line, tabbed};
ghost use Rattle.script.specs.Lines.{is_call, meaning};
ghost use Rattle.printing.specs.Replies.{no_call_line, letter_of_refusal, reply_line};

use crate::numbered::put_numbered;
use calls::{Answer, Call, Refusal};
use std::alloc::{AllocError, Global};

// The letter of a call as a byte.
fn letter_byte(call: &Call) -> u8
    ensures { result ≡ letter_of call.now }
{
    // a cast that is proved to keep it: `try_from` would answer an error that never comes
    call.letter() as u8
}

// The line of a call that is granted: ok, and the numbers of the answer.
fn put_granted(out: &mut Vec<u8>, letter: u8, answer: &Answer)
    requires { vec_len out.old + 49 ≤ vec_capacity out.old }
    ensures { out.new.items ≡ out.old.items ++ (reply_line letter (Ok answer.now) ++ 10 ∷ []) }
{
    let first = [letter, b'\t', b'o', b'k'];
    match answer {
        Answer::Done => put_numbered(out, &first, &[], b"\n"),
        Answer::Word(word) => put_numbered(out, &first, &[*word], b"\n"),
        Answer::Same(same) => put_numbered(out, &first, &[u32::from(*same)], b"\n"),
        Answer::Shape { references, words } => put_numbered(
            out,
            &first,
            &[*references, *words],
            b"\n",
        ),
        Answer::Time(time) => put_numbered(out, &first, &[*time], b"\n"),
        Answer::Progress {
            done,
            total,
            unfinished,
        } => put_numbered(out, &first, &[*done, *total, u32::from(*unfinished)], b"\n"),
        Answer::Counts {
            current,
            husks,
            uncut,
            closed,
        } => put_numbered(out, &first, &[*current, *husks, *uncut, *closed], b"\n"),
    }
}

// What the line of a refusal begins with.
fn refused_letter(letter: u8, refusal: &Refusal) -> u8
    ensures { result ≡ letter_of_refusal letter refusal.now }
{
    match refusal {
        Refusal::NoCall => b'-',
        _ => letter,
    }
}

// The line of a call that is refused: no, and the number of the refusal.
fn put_refused(out: &mut Vec<u8>, letter: u8, refusal: &Refusal)
    requires { vec_len out.old + 49 ≤ vec_capacity out.old }
    ensures { out.new.items ≡ out.old.items ++ (reply_line letter (Err refusal.now) ++ 10 ∷ []) }
{
    let first = [refused_letter(letter, refusal), b'\t', b'n', b'o'];
    put_numbered(out, &first, &[refusal.number()], b"\n")
}

// The line of a call: its letter, and its numbers, each of 32 bits.
fn put_asked(out: &mut Vec<u8>, call: &Call)
    requires { vec_len out.old + 34 ≤ vec_capacity out.old }
    ensures line { out.new.items ≡ out.old.items ++ call_line call.now }
    ensures words { Words (numbers_of call.now) }
{
    let first = [letter_byte(call)];
    match call {
        Call::Make {
            place,
            references,
            words,
        } => put_numbered(out, &first, &[*place, *references, *words], b""),
        Call::Load {
            into,
            from,
            reference,
        } => put_numbered(out, &first, &[*into, *from, *reference], b""),
        Call::Store {
            into,
            reference,
            from,
        } => put_numbered(out, &first, &[*into, *reference, *from], b""),
        Call::Read { from, word } => put_numbered(out, &first, &[*from, *word], b""),
        Call::Write { into, word, value } => put_numbered(
            out,
            &first,
            &[*into, *word, *value],
            b"",
        ),
        Call::Copy { into, from } => put_numbered(out, &first, &[*into, *from], b""),
        Call::Clear { place } => put_numbered(out, &first, &[*place], b""),
        Call::Same { left, right } => put_numbered(out, &first, &[*left, *right], b""),
        Call::Shape { place } => put_numbered(out, &first, &[*place], b""),
        Call::Schedule { time, place } => put_numbered(out, &first, &[*time, *place], b""),
        Call::Next { into } => put_numbered(out, &first, &[*into], b""),
        Call::Begin => put_numbered(out, &first, &[], b""),
        Call::Step { units } => put_numbered(out, &first, &[*units], b""),
        Call::Count => put_numbered(out, &first, &[], b""),
    }
}

// A call as its line, which reads as that call again.
pub fn call_line(heap: Global, call: &Call) -> Result<Vec<u8>, AllocError>
    ensures line { IfOk result (λ v. v.items ≡ call_line call.now) }
    ensures reads { IfOk result (λ v. meaning v.items ≡ is_call call.now) }
{
    let mut line = Vec::with_capacity(heap, 34)?;
    put_asked(&mut line, call);
    Ok(line)
}

// The reply to a call, behind what is in a buffer; where there is no memory for it the buffer stays.
pub fn add_reply(
    out: &mut Vec<u8>,
    call: &Call,
    answer: &Result<Answer, Refusal>,
) -> Result<(), AllocError>
    ensures items { out.new.items ≡ (if is_ok result then out.old.items ++ (reply_line (letter_of call.now) answer.now ++ 10 ∷ []) else out.old.items) }
    ensures succeeds { vec_len out.old + 49 ≤ vec_capacity out.old → is_ok result ≡ true }
{
    // the longest line is that of four numbers behind four bytes, and its line feed
    out.reserve(49)?;
    let letter = letter_byte(call);
    match answer {
        Ok(answer) => put_granted(out, letter, answer),
        Err(refusal) => put_refused(out, letter, refusal),
    }
    Ok(())
}

// A line of other bytes, likewise.
pub fn add_line(out: &mut Vec<u8>, bytes: &[u8]) -> Result<(), AllocError>
    ensures items { out.new.items ≡ (if is_ok result then out.old.items ++ (bytes.now ++ 10 ∷ []) else out.old.items) }
    ensures succeeds { vec_len out.old + length bytes.now + 1 ≤ vec_capacity out.old → is_ok result ≡ true }
{
    out.reserve(bytes.len().checked_add(1).ok_or(AllocError)?)?;
    // neither fails, since there is room
    let _ = out.extend_from_slice(bytes);
    let _ = out.push(b'\n');
    Ok(())
}

// The reply to a line that is no call, likewise.
pub fn add_no_call(out: &mut Vec<u8>) -> Result<(), AllocError>
    ensures items { out.new.items ≡ (if is_ok result then out.old.items ++ (no_call_line ++ 10 ∷ []) else out.old.items) }
    ensures succeeds { vec_len out.old + 7 ≤ vec_capacity out.old → is_ok result ≡ true }
{
    add_line(out, b"-\tno\t3")
}
