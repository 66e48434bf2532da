// What a graph has in a place, and in the record of a number.
ghost use Rattle.std.specs.Prelude.{◌≡◌, length, if◌then◌else◌, MatchOption, Ok, Err, is_some, nat_lt};
ghost use Rattle.model.specs.Graph.{absent, in_place, names_nil, record_at, no_such_record};
ghost use Rattle.calls.specs.declared.Refusal.TheVariants.{NoSuchPlace, Nil};
ghost use Rattle.graph.specs.Numbers.{Found};
ghost use Rattle.graph.specs.View.{graph_of, row_of, Stands, with_entry_of};

use crate::Graph;
use crate::rows::Row;
use calls::Refusal;

impl Graph {
    // The number in a place.
    pub(crate) fn held(&self, place: u32) -> Result<u32, Refusal>
        ensures { result ≡ (if absent (graph_of self.now) place then Err NoSuchPlace else Ok (in_place (graph_of self.now) place)) }
    {
        self.places
            .get(place as usize)
            .copied()
            .ok_or(Refusal::NoSuchPlace)
    }

    // The number of the record in a place.
    pub(crate) fn named(&self, place: u32) -> Result<u32, Refusal>
        ensures { result ≡ (if absent (graph_of self.now) place then Err NoSuchPlace else if names_nil (graph_of self.now) place then Err Nil else Ok (in_place (graph_of self.now) place)) }
    {
        let number = self.held(place)?;
        // 0 is nil, a number like any other, so a test and no option
        if number == 0 {
            return Err(Refusal::Nil);
        }
        Ok(number)
    }

    // Where the record of a number stands, if there is one.
    fn position(&self, number: u32) -> Option<usize>
        ensures { MatchOption result (record_at (graph_of self.now) number ≡ no_such_record) (λ i. Stands self.now number i) }
    {
        let at = number.checked_sub(1)? as usize;
        (at < self.records.len()).then_some(at)
    }

    // How many references and words the record of a number has, none where there is no record: a pair in every case.
    pub(crate) fn lengths(&self, number: u32) -> (u32, u32)
        ensures references { result.0 ≡ length (record_at (graph_of self.now) number).refs }
        ensures words { result.1 ≡ length (record_at (graph_of self.now) number).words }
    {
        self.position(number)
            .map_or((0, 0), |at| self.records[at].lengths())
    }

    // A reference or a word of the record of a number, if there is such a one.
    pub(crate) fn entry(&self, number: u32, row: Row, at: u32) -> Option<u32>
        ensures { Found (row_of row (record_at (graph_of self.now) number)) at result }
    {
        self.records[self.position(number)?].entry(row, at)
    }

    // Sets a reference or a word of the record of a number, if there is such a one.
    pub(crate) fn set_entry(&mut self, number: u32, row: Row, at: u32, value: u32) -> Option<()>
        ensures found { is_some result ≡ nat_lt at (length (row_of row (record_at (graph_of self.old) number))) }
        ensures after { graph_of self.new ≡ (if is_some result then with_entry_of (graph_of self.old) number row at value else graph_of self.old) }
        ensures agenda { self.new.agenda ≡ self.old.agenda }
    {
        let place = self.position(number)?;
        self.records[place].set_entry(row, at, value)
    }
}
