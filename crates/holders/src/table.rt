// An agenda of sixty-four places that searches its keys.
ghost use Rattle.std.specs.Prelude.{◌≡◌, ◌≤◌, length, replicate, None, slice_set, position};
ghost use Rattle.std.specs.Option.{is_none};
ghost use Rattle.holders.specs.Keys.{spare_of};
ghost use Rattle.std.proofs.Common.{rules};

use crate::agenda::Agenda;
use crate::holder::Holder;
use crate::key::Key;
use crate::row::{read_place, write_place};
use ranking::ranked::least;

#[derive(Drop)]
pub struct TableAgenda {
    // two rows and no row of pairs, since `least` goes over the keys as they lie
    numbers: [u32; 64],
    keys: [Option<Key>; 64],
    // the laws of an agenda are of lists, which have no length of their own as an array has
    ghost wide: { length numbers ≡ 64 },
    ghost deep: { length keys ≡ 64 },
}

impl TableAgenda {
    pub fn new() -> TableAgenda
        ensures numbers { result.numbers ≡ replicate 64 0 }
        ensures keys { result.keys ≡ replicate 64 None }
    {
        TableAgenda {
            numbers: [0; 64],
            keys: [None; 64],
        }
    }
}

// The lowest place with no key.
fn unkeyed(keys: &[Option<Key>]) -> Option<usize>
    ensures { result ≡ position is_none keys.now }
{
    keys.iter().position(Option::is_none)
}

impl Holder for TableAgenda {
    const PLACES: u32 = 64;

    ghost PLACES = { 64 };

    ghost row = { λ a. a.numbers };

    ghost some = { Prim.search rules };

    ghost few = { Prim.search rules };

    ghost long = { λ a. a.wide };

    fn get(&self, i: u32) -> u32 {
        read_place(&self.numbers, i, 0)
    }

    // Besides what every holder promises: no key changes.
    fn put(&mut self, i: u32, v: u32)
        ensures number { self.new.numbers ≡ slice_set self.old.numbers i v }
        ensures same { self.new.keys ≡ self.old.keys }
    {
        write_place(&mut self.numbers, i, v);
    }
}

impl Agenda for TableAgenda {
    ghost keys = { λ a. a.keys };

    ghost keyed = { λ a. a.deep };

    fn write(&mut self, i: u32, v: u32) {
        self.put(i, v);
    }

    fn key(&self, i: u32) -> Option<Key> {
        read_place(&self.keys, i, None)
    }

    fn key_place(&mut self, i: u32, key: Key) {
        write_place(&mut self.keys, i, Some(key));
    }

    fn unkey(&mut self, i: u32) {
        write_place(&mut self.keys, i, None);
    }

    fn first(&self) -> u32 {
        match least(&self.keys) {
            Some(place) if self.keys[place].is_some() => place as u32,
            _ => Self::count(),
        }
    }

    fn spare(&self) -> u32 {
        unkeyed(&self.keys).map_or(Self::count(), |place| place as u32)
    }
}
