// What a line of a script is read as.
use calls::Call;

// A remark borrows the line.
#[derive(Clone, Copy)]
pub enum Line<'a> {
    Call(Call),
    Remark(&'a [u8]),
    NoCall,
}
