// A change of an agenda.
use holders::key::Key;

#[derive(Clone, Copy)]
pub(crate) enum Change {
    Put { place: u32, number: u32 },
    KeyPlace { place: u32, key: Key },
    Unkey { place: u32 },
}
