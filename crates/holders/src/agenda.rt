// A holder whose places may bear a key.
ghost use Rattle.std.specs.Prelude.{◌≡◌, List, length, Some, None, Option, slice_index_or, slice_set};
ghost use Rattle.holders.specs.declared.key.Key.{Key};
ghost use Rattle.holders.specs.Keys.{first_of, spare_of, FirstKeyed, LowestUnkeyed};

use crate::holder::Holder;
use crate::key::Key;

pub trait Agenda: Holder {
    // the key of each place, if it bears one
    ghost keys: { Self → List (Option Key) };

    // The agenda's own put: the number at place i changes, and no key.
    fn write(&mut self, i: u32, v: u32)
        ensures number { Self.Holder.row self.new ≡ slice_set (Self.Holder.row self.old) i v }
        ensures same { keys self.new ≡ keys self.old };

    // The key of place i, or none where it bears none or there is no such place.
    fn key(&self, i: u32) -> Option<Key>
        ensures { result ≡ slice_index_or (keys self.now) i None };

    // Gives place i a key, in place of any that it bears, and changes no number.
    fn key_place(&mut self, i: u32, key: Key)
        ensures same { Self.Holder.row self.new ≡ Self.Holder.row self.old }
        ensures changed { keys self.new ≡ slice_set (keys self.old) i (Some key) };

    // Takes the key of place i away, and changes no number.
    fn unkey(&mut self, i: u32)
        ensures same { Self.Holder.row self.new ≡ Self.Holder.row self.old }
        ensures changed { keys self.new ≡ slice_set (keys self.old) i None };

    // The keyed place least by time, then serial, then place, or the number of places.
    // Here and in spare a number and no option: what an agenda means is that it answers how many places it has where there is none.
    fn first(&self) -> u32
        ensures value { result ≡ first_of (keys self.now) }
        ensures least { FirstKeyed (keys self.now) result };

    // The lowest place with no key, or the number of places.
    fn spare(&self) -> u32
        ensures value { result ≡ spare_of (keys self.now) }
        ensures lowest { LowestUnkeyed (keys self.now) result };

    ghost keyed: { (a : Self) → length (keys a) ≡ Self.Holder.PLACES };
}
