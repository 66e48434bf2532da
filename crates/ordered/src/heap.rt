// A binary heap of places, by their keys: steps on its entries.
// By hand, since std's BinaryHeap allocates and takes out its first entry alone. An index goes along a branch of the heap, so `while` and no range.
// The clauses speak of the two parts of an agenda: these steps run while the agenda's own invariant does not hold.
ghost use Rattle.std.specs.Prelude.{◌≡◌, ℕ, ◌+◌, ◌*◌, ◌<◌, ◌==◌, false, length, position};
ghost use Rattle.holders.specs.Keys.{sooner};
ghost use Rattle.ordered.specs.Heaps.{up, at, Above, Entered, InOrder, InOrderBut, Under};

use holders::agenda::Agenda;
use holders::table::TableAgenda;
use ranking::ranked::Ranked;

// Whether the place p comes before the place q.
pub(crate) fn ahead(table: &TableAgenda, p: u32, q: u32) -> bool
    ensures { result ≡ sooner table.now.keys p q }
{
    let one = table.key(p);
    let other = table.key(q);
    one.precedes(other) || (!other.precedes(one) && p < q)
}

// The index of the place p in the entries.
pub(crate) fn index_of(entries: &[u32], p: u32) -> Option<usize>
    ensures { result ≡ position (λ entry. entry == p) entries.now }
{
    entries.iter().position(|entry| *entry == p)
}

// The index below i whose entry comes first.
pub(crate) fn lesser(entries: &[u32], table: &TableAgenda, i: usize) -> usize
    requires { 2 * i + 1 < length entries.now }
    ensures within { result < length entries.now }
    ensures under { (0 < result) × (up result ≡ i) }
    ensures least { (j : ℕ) → 0 < j → j < length entries.now → up j ≡ i → sooner table.now.keys (at entries.now j) (at entries.now result) ≡ false }
{
    let left = 2 * i + 1;
    let right = left + 1;
    if right < entries.len() && ahead(table, entries[right], entries[left]) {
        right
    } else {
        left
    }
}

// Moves the entry at i up until it is in order.
pub(crate) fn rise(entries: &mut [u32], table: &TableAgenda, start: usize)
    requires entry { start < length entries.old }
    requires entered { Entered table.now.keys entries.old }
    requires near { InOrderBut table.now.keys entries.old start × Above (sooner table.now.keys) (at entries.old) (length entries.old) start }
    ensures entered { Entered table.now.keys entries.new }
    ensures in_order { InOrder table.now.keys entries.new }
{
    let mut i = start;
    while i > 0 {
        let above = (i - 1) / 2;
        if !ahead(table, entries[i], entries[above]) {
            return;
        }
        entries.swap(i, above);
        i = above;
    }
}

// Moves the entry at i down until it is in order.
pub(crate) fn sink(entries: &mut [u32], table: &TableAgenda, start: usize)
    requires entry { start < length entries.old }
    requires entered { Entered table.now.keys entries.old }
    requires near { InOrderBut table.now.keys entries.old start × Under (sooner table.now.keys) (at entries.old) start }
    ensures entered { Entered table.now.keys entries.new }
    ensures in_order { InOrder table.now.keys entries.new }
{
    let mut i = start;
    while 2 * i + 1 < entries.len() {
        let below = lesser(entries, table, i);
        if !ahead(table, entries[below], entries[i]) {
            return;
        }
        entries.swap(below, i);
        i = below;
    }
}

// Moves the entry at i, which may be wrong both ways, to where it is in order.
pub(crate) fn settle(entries: &mut [u32], table: &TableAgenda, i: usize)
    requires entry { i < length entries.old }
    requires entered { Entered table.now.keys entries.old }
    requires near { InOrderBut table.now.keys entries.old i }
    ensures entered { Entered table.now.keys entries.new }
    ensures in_order { InOrder table.now.keys entries.new }
{
    if i > 0 && ahead(table, entries[i], entries[(i - 1) / 2]) {
        rise(entries, table, i);
    } else {
        sink(entries, table, i);
    }
}
