// Tables of places that are free or taken.
ghost use Rattle.std.specs.Prelude.{◌≡◌, ◌<◌, length, take, IfSome, slice_set};
ghost use Rattle.rules.specs.Tables.{at, first_free};

/// The first free place of a table.
pub fn first_free<T>(table: &[Option<T>]) -> Option<usize>
    ensures value { result ≡ first_free 0 table.now }
    ensures within { IfSome result (λ k. k < length table.now) }
{
    table.iter().position(|place| place.is_none())
}

/// What stands in a place of a table; past its end nothing does.
pub fn at<T: Copy>(table: &[Option<T>], place: usize) -> Option<T>
    ensures { result ≡ at table.now place }
{
    table.get(place).copied().flatten()
}

/// Puts a value into a place of a table; past its end it goes nowhere.
pub fn put<T: Copy>(table: &mut [T], place: usize, value: T)
    ensures { table.new ≡ slice_set table.old place value }
{
    if place < table.len() {
        table[place] = value;
    }
}

/// The first `count` places of a table, or all where it has not so many.
pub fn front<T>(table: &[T], count: usize) -> &[T]
    ensures { result.now ≡ take count table.now }
{
    &table[0..count.min(table.len())]
}
