// When a place of an agenda is due: by time, then by serial, as the order of the fields says.
#[derive(Clone, Copy, PartialEq, Eq, PartialOrd, Ord)]
pub struct Key {
    pub time: u32,
    pub serial: u32,
}
