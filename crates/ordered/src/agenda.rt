// An agenda of sixty-four places, whose keyed ones stand in a binary heap.
ghost use Rattle.std.specs.Prelude.{◌≡◌, ◌<◌, true, false, replicate, Some, None, slice_set};
ghost use Rattle.arrayvec.specs.ArrayVec.{array_vec_len};
ghost use Rattle.holders.specs.Keys.{keyed};
ghost use Rattle.ordered.specs.Heaps.{tally, Entered, InOrder};
ghost use Rattle.std.proofs.Common.{rules};

use crate::heap::{index_of, rise, settle};
use arrayvec::ArrayVec;
use holders::agenda::Agenda;
use holders::holder::Holder;
use holders::key::Key;
use holders::table::TableAgenda;

// The numbers and the keys stand in a table, and beside it the heap of its keyed places.
#[derive(Drop)]
pub struct OrderedAgenda {
    table: TableAgenda,
    entries: ArrayVec<u32, 64>,
    ghost tallied: { array_vec_len entries ≡ tally table.keys },
    ghost entered: { Entered table.keys entries.items },
    ghost in_order: { InOrder table.keys entries.items },
}

impl OrderedAgenda {
    pub fn new() -> OrderedAgenda
        ensures numbers { result.table.numbers ≡ replicate 64 0 }
        ensures keys { result.table.keys ≡ replicate 64 None }
    {
        OrderedAgenda {
            table: TableAgenda::new(),
            entries: ArrayVec::new(),
        }
    }

    // Takes the keyed place p out of the heap, and its key away.
    fn take_out(&mut self, p: u32)
        requires { keyed self.old.table.keys p ≡ true }
        ensures same { self.new.table.numbers ≡ self.old.table.numbers }
        ensures changed { self.new.table.keys ≡ slice_set self.old.table.keys p None }
    {
        let i = index_of(&self.entries, p).unwrap();
        self.table.unkey(p);
        self.entries.swap_remove(i);
        if i < self.entries.len() {
            settle(&mut self.entries, &self.table, i);
        }
    }

    // Gives the place p, which has no key, a key, and puts it into the heap.
    fn bring_in(&mut self, p: u32, key: Key)
        requires within { p < 64 }
        requires unkeyed { keyed self.old.table.keys p ≡ false }
        ensures same { self.new.table.numbers ≡ self.old.table.numbers }
        ensures changed { self.new.table.keys ≡ slice_set self.old.table.keys p (Some key) }
    {
        let last = self.entries.len();
        self.table.key_place(p, key);
        self.entries.push(p);
        rise(&mut self.entries, &self.table, last);
    }
}

impl Holder for OrderedAgenda {
    const PLACES: u32 = 64;

    ghost PLACES = { 64 };

    ghost row = { λ a. a.table.numbers };

    ghost some = { Prim.search rules };

    ghost few = { Prim.search rules };

    ghost long = { λ a. a.table.wide };

    fn get(&self, i: u32) -> u32 {
        self.table.get(i)
    }

    // Besides what every holder promises: no key changes.
    fn put(&mut self, i: u32, v: u32)
        ensures number { self.new.table.numbers ≡ slice_set self.old.table.numbers i v }
        ensures same { self.new.table.keys ≡ self.old.table.keys }
    {
        self.table.put(i, v);
    }
}

impl Agenda for OrderedAgenda {
    ghost keys = { λ a. a.table.keys };

    ghost keyed = { λ a. a.table.deep };

    fn write(&mut self, i: u32, v: u32) {
        self.put(i, v);
    }

    fn key(&self, i: u32) -> Option<Key> {
        self.table.key(i)
    }

    #[tactic(auto, using(crate::proofs::Tallies::rekeyed))]
    fn key_place(&mut self, i: u32, key: Key) {
        if i < Self::count() {
            self.unkey(i);
            self.bring_in(i, key);
        }
    }

    fn unkey(&mut self, i: u32) {
        if self.key(i).is_some() {
            self.take_out(i);
        }
    }

    fn first(&self) -> u32 {
        self.entries.first().copied().unwrap_or(Self::count())
    }

    fn spare(&self) -> u32 {
        self.table.spare()
    }
}
