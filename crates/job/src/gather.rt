// The lists of a column, gathered from the rows part of its record.

ghost use Rattle.std.specs.Prelude.{◌≡◌, ℕ, ◌+◌, ◌*◌, ◌<◌, ◌≤◌, true, List, [], ◌∷◌, ◌++◌, length, pos, IfOk, vec_len, MatchResult, OnOk};
ghost use Rattle.encoding.specs.Bitmap.{bit};

use crate::fault::{JobError, JobFault};
use crate::part::Part;
use columns::fault::ColumnFault;
use columns::lists::Lists;
use columns::offset_column::OffsetColumn;
use encoding::bitmap::{Bitmap, write};
use encoding::offset::Offset;
use records::rows::{Row, next_row};
use std::alloc::{AllocError, Global};

/// The lists of a column, gathered from the rows part of its record.
#[derive(Drop)]
pub struct Gathered<O> {
    pub offsets: Vec<O>,
    pub data: Vec<u8>,
    pub validity: Vec<u8>,
    // There is one offset more than rows.
    ghost begun: { 0 < vec_len offsets },
    // A rows part of 65,536 bytes has no more rows and bytes of rows together.
    ghost small: { vec_len offsets + vec_len «data» ≤ 65537 },
}

// The number n as an offset.
fn to_offset<O: Offset>(n: usize) -> O
    requires { n ≤ 65536 }
    ensures { O.Offset.number result ≡ pos n }
{
    // `as`: std has no `From<usize>` for `u64`.
    O::from_u64(n as u64).unwrap()
}

// Writes the bit of a row that comes after so many rows; the bits of these rows stay.
fn add_bit(validity: &mut Vec<u8>, rows: usize, valid: bool) -> Result<(), AllocError>
    requires { rows ≤ 8 * vec_len validity.old }
    ensures { OnOk result ((rows < 8 * length validity.new.items) × (bit validity.new.items rows ≡ valid)
        × ((k : ℕ) → k < rows → bit validity.new.items k ≡ bit validity.old.items k)) }
{
    if rows % 8 == 0 {
        validity.push(0)?;
    }
    write(validity, 0, rows, valid).unwrap();
    Ok(())
}

impl<O: Offset> Gathered<O> {
    ghost use Rattle.columns.specs.Faults.{number as column_fault_number};
    ghost use Rattle.job.specs.Faults.{OnFault};
    ghost use Rattle.job.specs.Gathered.{Lays};
    ghost use Rattle.job.specs.Measured.{Shows};
    ghost use Rattle.job.specs.Transcript.{AllText};
    ghost use Rattle.records.specs.Layout.{GivenRow, Laid};

    // The lists of no rows.
    fn new(heap: Global) -> Result<Gathered<O>, AllocError>
        ensures { IfOk result (λ g. Lays O.Offset.number g []) }
    {
        let mut offsets = Vec::new(heap);
        offsets.push(to_offset(0))?;
        Ok(Gathered {
            offsets,
            data: Vec::new(heap),
            validity: Vec::new(heap),
        })
    }

    // Adds a row to the lists.
    fn add_row(&mut self, row: Row<'_>) -> Result<(), AllocError>
        requires size { vec_len self.old.offsets + vec_len self.old.«data» + length row.bytes.now ≤ 65536 }
        requires covered { vec_len self.old.offsets ≤ 8 * vec_len self.old.validity + 1 }
        ensures { OnOk result ((rs : List GivenRow) → Lays O.Offset.number self.old rs
            → Lays O.Offset.number self.new (rs ++ record { valid = row.entry.valid; bytes = row.entry.bytes.now } ∷ [])) }
    {
        let rows = self.offsets.len() - 1;
        self.data.extend_from_slice(row.bytes)?;
        self.offsets.push(to_offset(self.data.len()))?;
        add_bit(&mut self.validity, rows, row.valid)
    }

    /// The column over the lists. It is made unless it is text and a row is no text.
    pub(crate) fn column(&self, text: bool) -> Result<OffsetColumn<'_>, ColumnFault>
        ensures { (rs : List GivenRow) → Lays O.Offset.number self.now rs → MatchResult result (λ c. (text ≡ true → AllText rs) × Shows O.Offset.ceiling rs c)
            (λ f. (text ≡ true) × (AllText rs → ⊥) × (column_fault_number f ≡ 4)) }
    {
        let map = Bitmap {
            bytes: &self.validity,
            start: 0,
        };
        OffsetColumn::new(Lists {
            text,
            rows: self.offsets.len() - 1,
            offsets: O::lend(&self.offsets),
            data: &self.data,
            validity: Some(map),
        })
    }

    /// The lists over which the rows of a record stand. Refuses by 17 a part that is not laid out as rows.
    pub(crate) fn gather(heap: Global, part: Part<'_>) -> Result<Gathered<O>, JobError>
        ensures { MatchResult result (λ g. (rs : List GivenRow) × Laid part.entry.bytes.now rs × Lays O.Offset.number g rs)
            (OnFault (λ f. (f ≡ JobFault.Record) × ((rs : List GivenRow) → Laid part.entry.bytes.now rs → ⊥))) }
    {
        let mut lists = Gathered::new(heap)?;
        // What is left of the part: a row's size is known only once it is read.
        let mut rest = part.bytes;
        while !rest.is_empty() {
            let (row, after) = next_row(rest)?;
            lists.add_row(row)?;
            rest = after;
        }
        Ok(lists)
    }
}
