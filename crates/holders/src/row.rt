// Rows of places: past the end a read gives what stands for nothing, and a write changes nothing.
ghost use Rattle.std.specs.Prelude.{◌≡◌, slice_index_or, slice_set};

// What stands at place i of the row, or `nothing` where there is no such place.
pub(crate) fn read_place<T: Copy>(row: &[T], i: u32, nothing: T) -> T
    ensures { result ≡ slice_index_or row.now i nothing }
{
    row.get(i as usize).copied().unwrap_or(nothing)
}

// Puts the item at place i of the row, and nothing where there is no such place.
pub(crate) fn write_place<T: Copy>(row: &mut [T], i: u32, item: T)
    ensures { row.new ≡ slice_set row.old i item }
{
    let place = i as usize;
    // an index, since a loan from get_mut leaves no fact on the item that it wrote
    if place < row.len() {
        row[place] = item;
    }
}
