// Column records that a job has taken.
ghost use Rattle.std.specs.Prelude.{◌≡◌, ℕ, List, None, MatchResult};
ghost use Rattle.records.specs.Layout.{GivenRow, Laid};
ghost use Rattle.job.specs.declared.column.OffsetFormat.{OffsetFormat as Built};
ghost use Rattle.job.specs.Faults.{OnFault};
ghost use Rattle.job.specs.Measured.{ColumnMeasured};
ghost use Rattle.job.specs.Printed.{IsRead};
ghost use Rattle.job.specs.States.{records_of, Has};
ghost use Rattle.job.specs.Taken.{Meets};
ghost use Rattle.job.specs.Transcript.{ColumnAnswer, IsNotRead};

use crate::column::{OffsetFormat, built};
use crate::fault::{JobError, JobFault};
use crate::gather::Gathered;
use crate::lengths::Lengths;
use crate::part::Part;
use kernels::length::Unit;
use kinds::fault::KindFault;
use records::format::Format;
use std::alloc::Global;

/// A column record that was taken: its format, and the part of the file that holds its rows.
#[derive(Clone, Copy)]
pub struct Entry<'a> {
    pub format: Format,
    pub part: &'a [u8],
}

impl Part<'_> {
    /// Whether the column over the rows can be made. Refuses by 17 a part that is not laid out as rows, by 15 a format that is
    /// not built, and by 4 a text column with a row that is no text.
    pub(crate) fn check(self, heap: Global, format: Format) -> Result<(), JobError>
        ensures { MatchResult result (λ _. (rs : List GivenRow) × Laid self.entry.bytes.now rs × ColumnAnswer format rs None)
            (OnFault (Meets format self.entry.bytes.now)) }
    {
        match built(format) {
            Some(known) => known.check(heap, self),
            None => {
                Gathered::<i64>::gather(heap, self)?;
                Err(KindFault::Lacks.into())
            }
        }
    }
}

/// The column records that a job has taken, and the memory in which their columns are made.
#[derive(Clone, Copy)]
pub struct Columns<'c, 'a> {
    pub heap: Global,
    pub entries: &'c [Entry<'a>],
}

impl<'a> Columns<'_, 'a> {
    // The format and the rows part of a column. Refuses by 18 where it is not taken, its format is not built, or its part is
    // too long.
    fn find(&self, column: u16) -> Result<(OffsetFormat, Part<'a>), JobFault>
        ensures { MatchResult result (λ p. Has (records_of self.now.entries.now) column p.0 p.1.bytes.now)
            (λ e. (e ≡ JobFault.NotRead) × ((f : Built) (part : List ℕ) → Has (records_of self.now.entries.now) column f part → ⊥)) }
    {
        if let Some(entry) = self.entries.get(usize::from(column))
            && let Some(format) = built(entry.format)
            && let Some(part) = Part::new(entry.part)
        {
            Ok((format, part))
        } else {
            Err(JobFault::NotRead)
        }
    }

    /// Whether a column of a job is read. Refuses by 18 where it is not.
    pub(crate) fn check(&self, column: u16) -> Result<(), JobError>
        ensures { MatchResult result (λ _. IsRead (records_of self.now.entries.now) column)
            (OnFault (λ f. (f ≡ JobFault.NotRead) × IsNotRead (records_of self.now.entries.now) column)) }
    {
        let (format, part) = self.find(column)?;
        format.check(self.heap, part).map_err(JobError::unread)
    }

    /// The lengths of a column of a job. Refuses by 18 where it is not read, and by 12 where it has more rows than 4,096.
    pub fn measure(&self, column: u16, unit: Unit) -> Result<Lengths, JobError>
        ensures { ColumnMeasured unit (records_of self.now.entries.now) column result }
    {
        let (format, part) = self.find(column)?;
        format
            .measure(self.heap, part, unit)
            .map_err(JobError::unread)
    }
}
