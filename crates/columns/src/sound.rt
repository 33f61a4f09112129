// Lists whose rows can be read.
ghost use Rattle.std.specs.Prelude.{◌≡◌, ◌<◌, ◌≤◌, MatchResult};
ghost use Rattle.encoding.specs.Offsets.{numbers, place, at};
ghost use Rattle.columns.specs.Lists.{Shaped, Ordered, TextsTo, bytes_at};
ghost use Rattle.columns.specs.Grounds.{FirstIllFormed, Refused};

use crate::fault::ColumnFault;
use crate::lists::Lists;
use encoding::utf8;

/// Lists whose counts, sizes and offsets are right.
#[derive(Clone, Copy)]
pub(crate) struct SoundLists<'a> {
    pub(crate) lists: Lists<'a>,
    ghost shaped: { Shaped lists },
    ghost ordered: { Ordered lists },
}

impl<'a> SoundLists<'a> {
    // The lists, or the first ground that counts, sizes or offsets give against them.
    pub(crate) fn new(lists: Lists<'a>) -> Result<SoundLists<'a>, ColumnFault>
        ensures { MatchResult result (λ s. s.lists ≡ lists.entry) (Refused lists.entry) }
    {
        if !lists.is_shaped() {
            return Err(ColumnFault::Shape);
        }
        lists.offsets.check(lists.data.len() as u64)?;
        Ok(SoundLists { lists })
    }

    // The place that offset k names.
    fn place(&self, k: usize) -> usize
        requires { k ≤ self.now.lists.rows }
        ensures { result ≡ place (at (numbers self.now.lists.offsets) k) }
    {
        // `as` in this file and in reads.rt: std has no `From` between `u64` and `usize`.
        self.lists.offsets.get(k).unwrap() as usize
    }

    // The bytes of row i, with the place where they begin.
    pub(crate) fn part(&self, i: usize) -> (usize, &'a [u8])
        requires { i < self.now.lists.rows }
        ensures { (result.0 ≡ place (at (numbers self.now.lists.offsets) i))
            × (result.1.now ≡ bytes_at (numbers self.now.lists.offsets) self.now.lists.«data».now i) }
    {
        let base = self.place(i);
        let end = self.place(i + 1);
        (base, &self.lists.data[base..end])
    }

    // Whether every row is text; else the first row that is not.
    pub(crate) fn check_texts(&self) -> Result<(), ColumnFault>
        ensures { MatchResult result (λ _. TextsTo self.now.lists self.now.lists.rows) (FirstIllFormed self.now.lists) }
    {
        // By number, since the fault names the row.
        for row in 0..self.lists.rows {
            let (_, bytes) = self.part(row);
            utf8::check(bytes).map_err(|fault| ColumnFault::Text { row, fault })?;
        }
        Ok(())
    }
}
