// A row of places, each with one number.
ghost use Rattle.std.specs.Prelude.{◌≡◌, ℕ, ◌≤◌, List, length, slice_index, slice_set};

pub trait Holder {
    // from 1 to 128, as the laws below say
    const PLACES: u32;

    ghost PLACES: { ℕ };

    // the number at each place
    ghost row: { Self → List ℕ };

    // How many places a holder of this kind has.
    fn count() -> u32
        ensures { result ≡ PLACES }
    {
        Self::PLACES
    }

    // The number at place i, or 0 where there is no such place: no option, since a holder never refuses.
    fn get(&self, i: u32) -> u32
        ensures { result ≡ slice_index (row self.now) i };

    // Puts the number v at place i, and nothing where there is no such place.
    fn put(&mut self, i: u32, v: u32)
        ensures number { row self.new ≡ slice_set (row self.old) i v };

    ghost some: { 1 ≤ PLACES };

    ghost few: { PLACES ≤ 128 };

    ghost long: { (h : Self) → length (row h) ≡ PLACES };
}
