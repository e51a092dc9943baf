// Free-running ring indices, 32 bits that wrap: a full ring and an empty one differ, and only a slot is taken modulo the
// number of slots.
ghost use Rattle.std.specs.Prelude.{◌≡◌, ◌+◌, ◌%◌, ◌^◌};
ghost use Rattle.abi.specs.Index.{distance, Difference, Advanced};

/// How many steps lead from the index `from` to the index `to`, as from a consumer to its producer.
pub fn distance(from: u32, to: u32) -> u32
    ensures value { result ≡ distance from to }
    ensures counts { Difference from to result }
{
    to.wrapping_sub(from)
}

/// The index that lies `by` steps after `index`.
pub fn advance(index: u32, by: u32) -> u32
    ensures value { result ≡ (index + by) % 2 ^ 32 }
    ensures counts { Advanced index by result }
{
    index.wrapping_add(by)
}
