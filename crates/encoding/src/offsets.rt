// Lent lists of offsets, and the rules that they keep.
ghost use Rattle.std.specs.Prelude.{◌≡◌, map, length};
ghost use Rattle.encoding.specs.Offsets.{numbers, ceiling_of, wide_of, Judged, Answered};

use crate::offset::Offset;

/// A lent list of offsets, of either width.
#[derive(Clone, Copy)]
pub enum Offsets<'a> {
    Narrow(&'a [i32]),
    Wide(&'a [i64]),
}

/// An offset breaks the rules: the row that it ends, or row 0 for the first offset.
#[derive(Clone, Copy, PartialEq, Debug)]
pub struct OffsetFault {
    pub row: usize,
}

/// Whether every offset keeps the rules: none negative, none falling, none above `end`.
/// Answers the row of the first that does not. Example: 0, 5, 3 is refused with row 1.
pub fn check<O: Offset>(offsets: &[O], end: u64) -> Result<(), OffsetFault>
    ensures { Judged (map O.Offset.number offsets.now) O.Offset.ceiling end result }
{
    let mut last = 0;
    for (i, offset) in offsets.iter().enumerate() {
        let row = i.saturating_sub(1);
        last = offset
            .to_u64()
            .filter(|n| (last..=end).contains(n))
            .ok_or(OffsetFault { row })?;
    }
    Ok(())
}

/// Offset i, or nothing where there is none or it is negative.
pub fn read<O: Offset>(offsets: &[O], i: usize) -> Option<u64>
    ensures { Answered (map O.Offset.number offsets.now) O.Offset.ceiling i result }
{
    offsets.get(i)?.to_u64()
}

// One branch for each question: a value can choose a width, a type, by a branch alone.
impl Offsets<'_> {
    /// How many offsets there are.
    pub fn len(&self) -> usize
        ensures { result ≡ length (numbers self.now) }
    {
        match self {
            Offsets::Narrow(s) => s.len(),
            Offsets::Wide(s) => s.len(),
        }
    }

    /// Whether the offsets have 64 bits.
    pub fn is_wide(&self) -> bool
        ensures { result ≡ wide_of self.now }
    {
        matches!(self, Offsets::Wide(_))
    }

    /// Offset i, or nothing where there is none or it is negative.
    pub fn get(&self, i: usize) -> Option<u64>
        ensures { Answered (numbers self.now) (ceiling_of self.now) i result }
    {
        match self {
            Offsets::Narrow(s) => read(s, i),
            Offsets::Wide(s) => read(s, i),
        }
    }

    /// Whether every offset keeps the rules; see the function `check`.
    pub fn check(&self, end: u64) -> Result<(), OffsetFault>
        ensures { Judged (numbers self.now) (ceiling_of self.now) end result }
    {
        match self {
            Offsets::Narrow(s) => check(s, end),
            Offsets::Wide(s) => check(s, end),
        }
    }
}
