// Sources of rows.
ghost use Rattle.std.specs.Prelude.{◌≡◌, ◌<◌, ◌≤◌, length, MatchOption, slice_index_or};
ghost use Rattle.columns.specs.Rows.{SourceRow, Meaning, Good, row_of};

use crate::row::Row;

/// What has rows to be read. A question changes nothing.
pub trait Source {
    ghost meaning: { Self → Meaning };

    /// Whether its rows are text.
    fn is_text(&self) -> bool
        ensures { result ≡ (meaning self.now).text };

    /// How many rows it has.
    fn count(&self) -> usize
        ensures { result ≡ length (meaning self.now).rows };

    /// The row at i, or nothing from the count on.
    fn row(&self, i: usize) -> Option<Row<'_>>
        ensures { MatchOption result (length (meaning self.now).rows ≤ i)
            (λ w. (i < length (meaning self.now).rows) × ((d : SourceRow) → slice_index_or (meaning self.now).rows i d ≡ row_of w)) };

    // What holds of every source.
    ghost good: { (s : Self) → Good (meaning s) };
}
