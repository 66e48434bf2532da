// The parts of a store, and what the calls ask of them and do to them.
ghost use Rattle.std.specs.Prelude.{◌≡◌, ℕ, ◌+◌, ◌<◌, ◌≤◌, not, length, ◌==◌, nat_lt, slice_index, slice_set};
ghost use Rattle.holders.specs.Keys.{spare_of};
ghost use Rattle.model.specs.Pages.{block_at, refs_of, words_of};
ghost use Rattle.model.specs.Making.{barrier};
ghost use Rattle.model.specs.Refusals.{first_keyed};
ghost use Rattle.collector.specs.View.{heap_of};
ghost use Rattle.operations.specs.Parts.{held_at, in_current_form};

use calls::Refusal;
use collector::collector::Collector;
use holders::agenda::Agenda;
use holders::holder::Holder;
use holders::key::Key;

// A collector with a holder and an agenda.
#[derive(Drop)]
pub struct Parts<H, A> {
    pub collector: Collector,
    pub holder: H,
    pub agenda: A,
}

impl<H: Holder, A> Parts<H, A> {
    // The number in a place, if there is such a place.
    pub fn held(&self, place: u32) -> Result<u32, Refusal>
        ensures { result ≡ held_at (H.Holder.row self.now.holder) place }
    {
        // a test, since a holder answers 0 where there is no such place
        if place >= H::count() {
            return Err(Refusal::NoSuchPlace);
        }
        Ok(self.holder.get(place))
    }

    // The place gets the number, behind the barrier.
    pub fn overwrite(&mut self, place: u32, number: u32)
        ensures heap { heap_of self.new.collector ≡ barrier (heap_of self.old.collector) (slice_index (H.Holder.row self.old.holder) place) }
        ensures row { H.Holder.row self.new.holder ≡ slice_set (H.Holder.row self.old.holder) place number }
        ensures agenda { self.new.agenda ≡ self.old.agenda }
    {
        let old = self.holder.get(place);
        self.collector.barrier(old);
        self.holder.put(place, number);
    }
}

// The block of the record that a number names, in current form, if it names one.
pub fn found(collector: &Collector, number: u32) -> Option<u32>
    ensures { result ≡ in_current_form (block_at (heap_of collector.now).pages number) }
{
    collector
        .is_block(number)
        .then(|| collector.current(number))
}

// Whether the block has no such reference, for calls that read no value. Beside the next: one of both would take a closure that is as long.
pub fn lacks_reference(collector: &Collector, block: u32, reference: u32) -> bool
    ensures { result ≡ not (nat_lt reference (length (refs_of (block_at (heap_of collector.now).pages block)))) }
{
    let (references, _) = collector.shape(block);
    reference >= references
}

// Whether the block has no such word.
pub fn lacks_word(collector: &Collector, block: u32, word: u32) -> bool
    ensures { result ≡ not (nat_lt word (length (words_of (block_at (heap_of collector.now).pages block)))) }
{
    let (_, words) = collector.shape(block);
    word >= words
}

// Whether a record of so many references and words is too large.
pub fn too_large(references: u32, words: u32) -> bool
    ensures { result ≡ nat_lt 30 (references + words) }
{
    u64::from(references) + u64::from(words) > 30
}

// Whether every place of the agenda has a key.
pub fn full<A: Agenda>(agenda: &A) -> bool
    ensures { result ≡ (spare_of (A.Agenda.keys agenda.now) == length (A.Agenda.keys agenda.now)) }
{
    agenda.spare() == A::count()
}

// The keyed place that comes first, with its key.
pub fn first_keyed<A: Agenda>(agenda: &A) -> Option<(Key, u32)>
    ensures { result ≡ first_keyed (A.Agenda.keys agenda.now) }
{
    let place = agenda.first();
    agenda.key(place).map(|key| (key, place))
}
