// Items that stand in one total order, and the place of the least in a row of them.
ghost use Rattle.std.specs.Prelude.{◌≡◌, Bool, true, false, length, MatchOption};
ghost use Rattle.ranking.specs.Orders.{none_last, least_of, Least};
ghost use Rattle.std.proofs.Common.{rules};

// A trait beside std's Ord, since Ord lets two items that differ compare as equal, and its options put none first.
pub trait Ranked {
    // whether the first item comes before the second
    ghost before: { Self → Self → Bool };

    fn precedes(self, other: Self) -> bool
        ensures { result ≡ before self other };

    ghost never_itself: { (x : Self) → before x x ≡ false };

    ghost one_way: { (x y : Self) → before x y ≡ true → before y x ≡ false };

    ghost either_way: { (x y : Self) → before x y ≡ false → before y x ≡ false → x ≡ y };

    ghost chain: { (x y z : Self) → before x y ≡ true → before y z ≡ true → before x z ≡ true };
}

// The place of the least item, the lowest of equals, or none of an empty row.
// A row in which some items do not count is a row of options: none comes after every item. A `for` and no `min`, which asks for an Ord.
pub fn least<T: Ranked + Copy>(row: &[T]) -> Option<usize>
    ensures value { result ≡ least_of T.before row.now }
    ensures least { MatchOption result (length row.now ≡ 0) (λ b. Least T.before row.now b) }
{
    let mut best = *row.first()?;
    let mut place = 0;
    for (i, item) in row.iter().enumerate() {
        if item.precedes(best) {
            best = *item;
            place = i;
        }
    }
    Some(place)
}

// None comes after every item.
impl<T: Ranked + Copy> Ranked for Option<T> {
    ghost before = { none_last T.Ranked.before };

    ghost never_itself = { Prim.search rules };

    ghost one_way = { Prim.search rules };

    ghost either_way = { Prim.search rules };

    ghost chain = { Prim.search rules };

    fn precedes(self, other: Option<T>) -> bool {
        match (self, other) {
            (None, _) => false,
            (Some(_), None) => true,
            (Some(one), Some(another)) => one.precedes(another),
        }
    }
}
