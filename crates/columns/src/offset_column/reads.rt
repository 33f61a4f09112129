// A column by offsets as a source of rows, and by its lengths.
ghost use Rattle.std.specs.Prelude.{◌≡◌, ℕ, ◌<◌, ◌≤◌, length, slice_index};
ghost use Rattle.encoding.specs.Offsets.{ceiling_of, wide_of};
ghost use Rattle.columns.specs.Lists.{valid_at, meaning_of, lengths_of};
ghost use Rattle.columns.specs.OffsetColumn.{lists_of};
ghost use Rattle.columns.specs.Meanings.{good};

use crate::measure::Measure;
use crate::offset_column::OffsetColumn;
use crate::row::Row;
use crate::source::Source;
use encoding::bitmap::Bitmap;

// Whether row i holds a value.
fn valid(validity: Option<Bitmap<'_>>, i: usize) -> bool
    ensures { result ≡ valid_at validity.entry i }
{
    validity.is_none_or(|map| map.get(i).unwrap_or(false))
}

impl OffsetColumn<'_> {
    /// Whether its offsets have 64 bits; no row's length passes their ceiling.
    pub fn is_wide(&self) -> bool
        ensures value { result ≡ wide_of (lists_of self.now).offsets }
        ensures low { (i : ℕ) → i < length (lengths_of (lists_of self.now))
            → slice_index (lengths_of (lists_of self.now)) i ≤ ceiling_of (lists_of self.now).offsets }
    {
        self.sound.lists.offsets.is_wide()
    }
}

impl<'a> Source for OffsetColumn<'a> {
    ghost meaning = { λ c. meaning_of (lists_of c) };

    ghost good = { λ c. good c.sound.lists c.sound.shaped c.sound.ordered c.texts };

    fn is_text(&self) -> bool {
        self.sound.lists.text
    }

    fn count(&self) -> usize {
        self.sound.lists.rows
    }

    fn row(&self, i: usize) -> Option<Row<'_>> {
        // The bound is tried here and in `row_len`: `part` requires it, so that the check of texts has no option to open.
        if i >= self.sound.lists.rows {
            return None;
        }
        let (base, bytes) = self.sound.part(i);
        Some(Row {
            valid: valid(self.sound.lists.validity, i),
            bytes,
            base: base as u64,
        })
    }
}

impl<'a> Measure for OffsetColumn<'a> {
    ghost lengths = { λ c. lengths_of (lists_of c) };

    fn len(&self) -> usize {
        self.sound.lists.rows
    }

    fn row_len(&self, i: usize) -> Option<u64> {
        if i >= self.sound.lists.rows {
            return None;
        }
        let (_, bytes) = self.sound.part(i);
        Some(bytes.len() as u64)
    }
}
