// The rows of a source, one after another.
ghost use Rattle.std.specs.Prelude.{◌≡◌, drop};
ghost use Rattle.std.specs.Iterator.{YieldsFirstBy, item_count};
ghost use Rattle.columns.specs.Rows.{row_of};

use crate::row::Row;
use crate::source::Source;

/// The rows of a source from row `next` on, one after another.
#[derive(Clone, Copy)]
pub struct Rows<'s, S: Source> {
    pub source: &'s S,
    pub next: usize,
}

impl<'s, S: Source> Rows<'s, S> {
    /// All rows of the source, from the first on.
    pub fn new(source: &'s S) -> Rows<'s, S>
        ensures { (result.source.now ≡ source.now) × (result.next ≡ 0) }
    {
        Rows { source, next: 0 }
    }
}

impl<'s, S: Source> Iterator for Rows<'s, S> {
    type Item = Row<'s>;

    ghost next_gives = { YieldsFirstBy row_of (λ r. drop r.next (S.Source.meaning r.source.now).rows) };

    ghost remaining = { item_count (λ r. drop r.next (S.Source.meaning r.source.now).rows) };

    fn next(&mut self) -> Option<Row<'s>> {
        let row = self.source.row(self.next)?;
        self.next += 1;
        Some(row)
    }
}
