// Operations, and what they print.
ghost use Rattle.std.specs.Prelude.{◌≡◌, ℕ, List, ◌++◌, string_bytes, OnOk};
ghost use Rattle.std.specs.List.{flat_map};
ghost use Rattle.job.specs.Lines.{number_line};
ghost use Rattle.job.specs.Printed.{Prints, LackingAnswered, OperatePrinted};
ghost use Rattle.job.specs.States.{records_of};

use crate::entry::Columns;
use crate::fault::JobError;
use crate::lengths::Lengths;
use crate::print::Line;
use kernels::length::Unit;
use kinds::fault::KindFault;
use records::record::Record;
use std::alloc::AllocError;

// Adds every number on a line of its own.
fn put_numbers(out: &mut String, numbers: &[i64]) -> Result<(), AllocError>
    ensures { OnOk result (string_bytes out.new ≡ string_bytes out.old ++ flat_map number_line numbers.now) }
{
    for n in numbers {
        writeln!(out, "{n}")?;
    }
    Ok(())
}

// Adds what an operation answers: its lengths, or the number of its fault. Want of memory is passed on.
fn put_answer(
    out: &mut String,
    operation: u64,
    answer: Result<Lengths, JobError>,
) -> Result<(), AllocError>
    ensures { OnOk result ((added : List ℕ) × (string_bytes out.new ≡ string_bytes out.old ++ added) × Prints operation answer added) }
{
    match answer {
        Ok(lengths) => {
            let answer = Ok(&lengths);
            writeln!(out, "{}", Line { operation, answer })?;
            put_numbers(out, &lengths.numbers)
        }
        Err(JobError::Fault(fault)) => {
            let answer = Err(fault);
            writeln!(out, "{}", Line { operation, answer })
        }
        Err(JobError::Memory(e)) => Err(e),
    }
}

// The answer of an operation over two columns that is not built: that it lacks their kinds, or that one of them is not read.
fn lacking(columns: &Columns<'_, '_>, left: u16, right: u16) -> Result<Lengths, JobError>
    ensures { LackingAnswered (records_of columns.now.entries.now) left right result }
{
    columns.check(left)?;
    columns.check(right)?;
    Err(KindFault::Lacks.into())
}

/// Prints what an operation answers: for lengths their line and numbers, for an operation that is not built 15, and for a
/// column that is not read 18. A column record is no operation and prints nothing. The only error is want of memory.
pub fn operate(
    columns: &Columns<'_, '_>,
    n: u64,
    found: Record<'_>,
    out: &mut String,
) -> Result<(), AllocError>
    ensures { OnOk result (OperatePrinted (records_of columns.now.entries.now) n found.entry (string_bytes out.old) (string_bytes out.new)) }
{
    match found {
        Record::Column { .. } => Ok(()),
        Record::Cut { column, .. } | Record::CutByCharacter { column, .. } => {
            put_answer(out, n, lacking(columns, column, column))
        }
        Record::Join { left, right } => put_answer(out, n, lacking(columns, left, right)),
        Record::Length { column } => put_answer(out, n, columns.measure(column, Unit::Bytes)),
        Record::BitLength { column } => put_answer(out, n, columns.measure(column, Unit::Bits)),
    }
}
