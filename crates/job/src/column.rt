// Columns of a job, made anew from their records for each question.
ghost use Rattle.std.specs.Prelude.{◌≡◌};
ghost use Rattle.kinds.specs.Lengths.{ceiling};
ghost use Rattle.job.specs.Measured.{PartChecked, PartMeasured};
ghost use Rattle.job.specs.Transcript.{built as built_format};

use crate::fault::JobError;
use crate::gather::Gathered;
use crate::lengths::{Lengths, lengths_of};
use crate::part::Part;
use encoding::offset::Offset;
use kernels::length::Unit;
use records::format::Format;
use std::alloc::Global;

/// A format that is built: whether its rows are text, and whether its offsets have 64 bits. Two marks and no enum of four:
/// each is asked alone.
#[derive(Clone, Copy, PartialEq, Debug)]
pub struct OffsetFormat {
    pub text: bool,
    pub wide: bool,
}

/// The format, where it is built. Example: `U` is text with 64-bit offsets.
pub fn built(format: Format) -> Option<OffsetFormat>
    ensures { result ≡ built_format format }
{
    let (text, wide) = match format {
        Format::Utf8 => (true, false),
        Format::LargeUtf8 => (true, true),
        Format::Binary => (false, false),
        Format::LargeBinary => (false, true),
        Format::Utf8View | Format::BinaryView | Format::FixedSizeBinary { .. } => return None,
    };
    Some(OffsetFormat { text, wide })
}

// Whether the column over the rows of a record can be made, in one width of offsets. `heap` goes beside `part` here and below:
// memory is no part of a record, and a struct of both would be made at each call.
fn check_in<O: Offset>(heap: Global, text: bool, part: Part<'_>) -> Result<(), JobError>
    ensures { PartChecked text part.entry.bytes.now result }
{
    Gathered::<O>::gather(heap, part)?.column(text)?;
    Ok(())
}

// Measures the column over the rows of a record, in one width of offsets.
fn measure_in<O: Offset>(
    heap: Global,
    text: bool,
    part: Part<'_>,
    unit: Unit,
) -> Result<Lengths, JobError>
    ensures { PartMeasured unit text O.Offset.ceiling part.entry.bytes.now result }
{
    let lists = Gathered::<O>::gather(heap, part)?;
    let column = lists.column(text)?;
    lengths_of(heap, &column, unit)
}

// Two branches on the width, and no function for both: a value chooses a type parameter by a branch alone, and a branch that
// calls either of two generic functions would need a trait of its own.
impl OffsetFormat {
    // Whether the column over the rows of a record can be made.
    pub(crate) fn check(self, heap: Global, part: Part<'_>) -> Result<(), JobError>
        ensures { PartChecked self.text part.entry.bytes.now result }
    {
        if self.wide {
            check_in::<i64>(heap, self.text, part)
        } else {
            check_in::<i32>(heap, self.text, part)
        }
    }

    // Measures the column over the rows of a record.
    pub(crate) fn measure(
        self,
        heap: Global,
        part: Part<'_>,
        unit: Unit,
    ) -> Result<Lengths, JobError>
        ensures { PartMeasured unit self.text (ceiling self.wide) part.entry.bytes.now result }
    {
        if self.wide {
            measure_in::<i64>(heap, self.text, part, unit)
        } else {
            measure_in::<i32>(heap, self.text, part, unit)
        }
    }
}
