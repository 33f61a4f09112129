// The rows part of a column record, taken off its front row by row.

ghost use Rattle.std.specs.Prelude.{ℕ, ◌<◌, Bool, List, length, IfOk, MatchResult};
ghost use Rattle.records.specs.Layout.{RowAt};

use crate::record::{BadRecord, Number, read_mark};

/// A row of a column.
#[derive(Clone, Copy, Debug)]
pub struct Row<'a> {
    // A null row keeps the bytes that are stored for it, so a row is no `Option`.
    pub valid: bool,
    pub bytes: &'a [u8],
}

/// One row off the front, and what follows it.
///
/// A row is a byte, 1 for valid and 0 for null, a size (4 bytes, lowest first) and that many bytes.
/// Refused are another first byte and bytes that end too early.
/// The bytes `1 2 0 0 0 65 66 7` give a valid row with the bytes `65 66`, and what follows is `7`.
pub fn next_row<'a>(b: &'a [u8]) -> Result<(Row<'a>, &'a [u8]), BadRecord>
    ensures reads { MatchResult result (λ p. RowAt b.now p.0.valid p.0.bytes.now p.1.now) (λ _. (v : Bool) (s rest : List ℕ) → RowAt b.now v s rest → ⊥) }
    ensures shorter { IfOk result (λ p. length p.1.now < length b.now) }
{
    let (valid, rest) = read_mark(b)?;
    let (size, rest) = u32::read(rest)?;
    // `as`: std has no `From<u32>` for `usize`.
    let (bytes, rest) = rest.split_at_checked(size as usize).ok_or(BadRecord)?;
    Ok((Row { valid, bytes }, rest))
}
