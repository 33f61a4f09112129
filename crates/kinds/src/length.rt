// Lengths by kind.
ghost use Rattle.std.specs.Prelude.{◌≡◌, cond};
ghost use Rattle.kernels.specs.Lengths.{answered, filled};
ghost use Rattle.kinds.specs.Lengths.{measured, ceiling, room, Low, true_lengths, in_width, over_of, Writes};

use crate::column::Column;
use crate::fault::KindFault;
use columns::measure::Measure;
use kernels::length::{LengthFault, Unit, fill};

// Writes lengths into the list of the width that is meant; the other list stays. Two lists and no struct of both: its clauses
// would say `lists.exit.0` and `lists.exit.1.0` for `narrow.new` and `wide.new`. A branch, since a value chooses a type by no
// other way.
fn choose<M: Measure>(
    column: &M,
    unit: Unit,
    is_wide: bool,
    narrow: &mut [i32],
    wide: &mut [i64],
) -> Result<usize, LengthFault>
    ensures answer { result ≡ answered unit (ceiling is_wide) (M.Measure.lengths column.now) (room is_wide narrow.old wide.old) }
    ensures narrow { narrow.new ≡ cond is_wide narrow.old (filled unit 2147483647 (M.Measure.lengths column.now) narrow.old) }
    ensures wide { wide.new ≡ cond is_wide (filled unit 9223372036854775807 (M.Measure.lengths column.now) wide.old) wide.old }
{
    if is_wide {
        fill(column, unit, wide)
    } else {
        fill(column, unit, narrow)
    }
}

/// Writes the length of every row in the unit, null rows too, into the list of the kind's width: 32 bits, or 64 for the
/// large kinds. Places past the rows, and the other list, stay. Answers how many numbers do not fit the width and are
/// wrapped. Refuses by 15 where the operation lacks the kind, and by 12 where the list is shorter than the rows, with
/// nothing written. The lengths themselves always fit the width.
pub fn measure(
    column: &Column<'_>,
    unit: Unit,
    narrow: &mut [i32],
    wide: &mut [i64],
) -> Result<usize, KindFault>
    ensures writes { Writes (in_width unit) (over_of unit) (measured column.now) narrow.old wide.old narrow.new wide.new result }
    ensures low { Low (measured column.now) }
{
    match column {
        Column::Offset(c) => Ok(choose(c, unit, c.is_wide(), narrow, wide)?),
        Column::Unbuilt(_) => Err(KindFault::Lacks),
    }
}

/// Writes the length of every row, as `measure` does in bytes. Example: Utf8 rows "Tür" and "ab" give 4 and 2.
pub fn length(column: &Column<'_>, narrow: &mut [i32], wide: &mut [i64]) -> Result<(), KindFault>
    ensures { Writes true_lengths (λ _. tt) (measured column.now) narrow.old wide.old narrow.new wide.new result }
{
    measure(column, Unit::Bytes, narrow, wide)?;
    Ok(())
}

/// Writes eight times the length of every row, wrapped in the kind's width, and answers how many rows do not fit it, null
/// rows counted too. Example: a Utf8 row of 268,435,456 bytes gives -2,147,483,648, counted.
pub fn bit_length(
    column: &Column<'_>,
    narrow: &mut [i32],
    wide: &mut [i64],
) -> Result<usize, KindFault>
    ensures { Writes (in_width Unit.Bits) (over_of Unit.Bits) (measured column.now) narrow.old wide.old narrow.new wide.new result }
{
    measure(column, Unit::Bits, narrow, wide)
}
