// The product by eight: a length in bytes as a length in bits.
ghost use Rattle.std.specs.Prelude.{◌≡◌, ◌*◌, ◌≤◌, Decides};
ghost use Rattle.encoding.specs.Offsets.{wrapped, Wraps};

use crate::offset::Offset;

/// Eight times a length, exactly. Example: 268,435,456 bytes are 2,147,483,648 bits.
pub fn exact(bytes: u64) -> u128
    ensures { result ≡ 8 * bytes }
{
    u128::from(bytes) * 8
}

/// Eight times a length, wrapped in the width O. Example: 268,435,456 bytes in 32 bits give -2,147,483,648.
pub fn wrapped_bits<O: Offset>(bytes: u64) -> O
    ensures value { O.Offset.number result ≡ wrapped O.Offset.ceiling (8 * bytes) }
    ensures law { Wraps }
{
    O::wrapping(exact(bytes))
}

/// Whether eight times a length fits the width O. Example: 268,435,455 bytes fit 32 bits, one more does not.
pub fn fits<O: Offset>(bytes: u64) -> bool
    ensures { Decides result (8 * bytes ≤ O.Offset.ceiling) }
{
    exact(bytes) <= u128::from(O::max_value())
}
