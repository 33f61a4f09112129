// Lengths of rows, in bytes (or elements) and in bits.
ghost use Rattle.std.specs.Prelude.{◌≡◌, ◌≤◌, Decides};
ghost use Rattle.encoding.specs.Offsets.{wrapped};
ghost use Rattle.kernels.specs.Examples.{ExamplesHold};
ghost use Rattle.kernels.specs.Lengths.{number as fault_number, in_unit, Fills};

use columns::measure::Measure;
use encoding::bits;
use encoding::offset::Offset;

/// What a length counts. It is data, which clauses name: as a closure it would stand in each clause by what it answers.
#[derive(Clone, Copy, PartialEq, Debug)]
pub enum Unit {
    Bytes,
    Bits,
}

/// Why lengths are not written.
#[derive(Clone, Copy, PartialEq, Debug)]
pub enum LengthFault {
    /// There are more rows than the list has places.
    Rows,
}

impl LengthFault {
    /// The number of the refusal.
    pub fn number(self) -> u64
        ensures { result ≡ fault_number self }
    {
        match self {
            LengthFault::Rows => 12,
        }
    }
}

impl Unit {
    // A length in bytes, in this unit, wrapped in a width.
    fn wrapped<O: Offset>(self, bytes: u64) -> O
        ensures { O.Offset.number result ≡ wrapped O.Offset.ceiling (in_unit self bytes) }
    {
        match self {
            Unit::Bytes => O::wrapping(u128::from(bytes)),
            Unit::Bits => bits::wrapped_bits(bytes),
        }
    }

    // Whether a length in bytes, in this unit, fits a width.
    fn fits<O: Offset>(self, bytes: u64) -> bool
        ensures { Decides result (in_unit self bytes ≤ O.Offset.ceiling) }
    {
        match self {
            Unit::Bytes => bytes <= O::max_value(),
            Unit::Bits => bits::fits::<O>(bytes),
        }
    }
}

/// Writes the length of every row in the unit into the list, as `length` and `bit_length` do.
pub fn fill<M: Measure, O: Offset>(
    column: &M,
    unit: Unit,
    out: &mut [O],
) -> Result<usize, LengthFault>
    ensures { Fills unit O.Offset.number O.Offset.ceiling (M.Measure.lengths column.now) out.old out.new result }
{
    if column.len() > out.len() {
        return Err(LengthFault::Rows);
    }
    let mut over = 0;
    // No `zip` with the lengths: of a list that is written through it, a proof knows the length alone. The count is of what is
    // written here.
    for (i, place) in out.iter_mut().enumerate() {
        let Some(bytes) = column.row_len(i) else {
            break;
        };
        *place = unit.wrapped(bytes);
        if !unit.fits::<O>(bytes) {
            over += 1;
        }
    }
    Ok(over)
}

/// Writes the length of every row, null rows too, into the list, from its first place on; places past the rows stay.
/// Refuses by 12, with nothing written, where the list is shorter than the rows. Answers how many lengths do not fit the
/// list's width and are wrapped. Example: the rows "Tür" and "ab" give 4 and 2.
pub fn length<M: Measure, O: Offset>(column: &M, out: &mut [O]) -> Result<usize, LengthFault>
    ensures { Fills Unit.Bytes O.Offset.number O.Offset.ceiling (M.Measure.lengths column.now) out.old out.new result }
{
    fill(column, Unit::Bytes, out)
}

/// Writes eight times the length of every row, wrapped in the list's width, and answers how many rows do not fit it,
/// null rows counted too; otherwise as `length`. Example: 268,435,456 bytes in 32 bits give -2,147,483,648, counted.
pub fn bit_length<M: Measure, O: Offset>(column: &M, out: &mut [O]) -> Result<usize, LengthFault>
    ensures fills { Fills Unit.Bits O.Offset.number O.Offset.ceiling (M.Measure.lengths column.now) out.old out.new result }
    ensures examples { ExamplesHold }
{
    fill(column, Unit::Bits, out)
}
