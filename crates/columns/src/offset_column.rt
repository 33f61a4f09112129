// Columns by offsets, of either width, text or binary.
ghost use Rattle.columns.specs.Lists.{TextsTested};

use crate::fault::ColumnFault;
use crate::lists::Lists;
use crate::sound::SoundLists;

pub mod reads;

/// A column over lent lists that keep the rules.
#[derive(Clone, Copy)]
pub struct OffsetColumn<'a> {
    sound: SoundLists<'a>,
    ghost texts: { TextsTested sound.lists },
}

impl<'a> OffsetColumn<'a> {
    ghost use Rattle.columns.specs.OffsetColumn.{Made};

    /// The column over these lists, or the first ground that holds against it: 1 for counts and sizes, 2 for the first
    /// offset that breaks the rules, 4 for the first row of a text column that is ill-formed.
    /// Example: rows 2, offsets 0 1 3, data "abc" has the rows "a" and "bc".
    pub fn new(lists: Lists<'a>) -> Result<OffsetColumn<'a>, ColumnFault>
        ensures { Made lists.entry result }
    {
        let sound = SoundLists::new(lists)?;
        if sound.lists.text {
            sound.check_texts()?;
        }
        Ok(OffsetColumn { sound })
    }
}
