// The lengths of a column, as an operation prints them.
ghost use Rattle.std.specs.Prelude.{◌≡◌, ◌≤◌, cond, take, IfOk};
ghost use Rattle.columns.specs.OffsetColumn.{lists_of};
ghost use Rattle.kinds.specs.Lengths.{room};
ghost use Rattle.job.specs.Measured.{null_rows, MeasuredAs};

use crate::fault::JobError;
use columns::measure::Measure;
use columns::offset_column::OffsetColumn;
use columns::rows::Rows;
use columns::source::Source;
use kernels::length::Unit;
use kinds::column::Column;
use kinds::length::measure;
use std::alloc::{AllocError, Global};

/// The lengths of a column: how many null rows it has, how many lengths are wrapped, and every row's number.
#[derive(PartialEq, Debug, Drop)]
pub struct Lengths {
    pub nulls: usize,
    pub wrapped: usize,
    pub numbers: Vec<i64>,
}

/// How many rows of a source are null.
pub(crate) fn count_nulls<S: Source>(source: &S) -> usize
    ensures { result ≡ null_rows (S.Source.meaning source.now).rows }
{
    Rows::new(source).filter(|row| !row.valid).count()
}

// The first numbers of the list that is meant: a branch, since a value chooses a type by no other way.
fn numbers_of(
    heap: Global,
    is_wide: bool,
    rows: usize,
    narrow: &[i32],
    wide: &[i64],
) -> Result<Vec<i64>, AllocError>
    requires { rows ≤ room is_wide narrow.now wide.now }
    ensures { IfOk result (λ v. v.items ≡ take rows (cond is_wide wide.now narrow.now)) }
{
    if is_wide {
        Vec::from_slice(heap, &wide[..rows])
    } else {
        narrow[..rows].iter().map(|n| i64::from(*n)).collect(heap)
    }
}

// The lengths of a column in a unit, by way of two lists, one for each width. Refuses by 12 where it has more rows than a
// list has places.
pub(crate) fn lengths_of(
    heap: Global,
    column: &OffsetColumn<'_>,
    unit: Unit,
) -> Result<Lengths, JobError>
    ensures { MeasuredAs unit (lists_of column.now) result }
{
    // A kernel is lent its memory, whichever width it writes.
    let mut narrow = [0i32; 4096];
    let mut wide = [0i64; 4096];
    let wrapped = measure(&Column::Offset(*column), unit, &mut narrow, &mut wide)?;
    Ok(Lengths {
        nulls: count_nulls(column),
        wrapped,
        numbers: numbers_of(heap, column.is_wide(), column.len(), &narrow, &wide)?,
    })
}
