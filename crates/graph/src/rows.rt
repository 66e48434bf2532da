// The entries of a record, by the row that they stand in.
ghost use Rattle.std.specs.Prelude.{◌≡◌, length, if◌then◌else◌, is_some, vec_len, nat_lt, slice_set};
ghost use Rattle.graph.specs.Numbers.{Found};
ghost use Rattle.graph.specs.View.{record_of, row_of, with_entry};

use crate::records::Record;

// The two rows of a record.
#[derive(Clone, Copy)]
pub(crate) enum Row {
    References,
    Words,
}

impl Record {
    // An entry of a row, if there is such a one.
    pub(crate) fn entry(&self, row: Row, at: u32) -> Option<u32>
        ensures { Found (row_of row (record_of self.now)) at result }
    {
        let entries = match row {
            Row::References => &self.references,
            Row::Words => &self.words,
        };
        entries.get(at as usize).copied()
    }

    // Sets an entry of a row, if there is such a one.
    pub(crate) fn set_entry(&mut self, row: Row, at: u32, value: u32) -> Option<()>
        ensures found { is_some result ≡ nat_lt at (length (row_of row (record_of self.old))) }
        ensures after { record_of self.new ≡ (if is_some result then with_entry row (record_of self.old) at value else record_of self.old) }
    {
        match row {
            Row::References => set(&mut self.references, at, value),
            Row::Words => set(&mut self.words, at, value),
        }
    }
}

// Sets an entry of this row, if there is such a one.
fn set(entries: &mut Vec<u32>, at: u32, value: u32) -> Option<()>
    ensures found { is_some result ≡ nat_lt at (length entries.old.items) }
    ensures after { entries.new.items ≡ (if is_some result then slice_set entries.old.items at value else entries.old.items) }
    ensures len { vec_len entries.new ≡ vec_len entries.old }
{
    *entries.get_mut(at as usize)? = value;
    Some(())
}
