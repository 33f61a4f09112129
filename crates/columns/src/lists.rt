// What a column by offsets is made from.
ghost use Rattle.std.specs.Prelude.{◌≡◌, Decides};
ghost use Rattle.columns.specs.Lists.{Shaped, covers};

use encoding::bitmap::Bitmap;
use encoding::offsets::Offsets;

/// The greatest number of rows.
pub const MAX_ROWS: usize = 2_147_483_647;

/// What a column by offsets is made from: one offset more than rows, the data that they cut, and a validity map or none.
#[derive(Clone, Copy)]
pub struct Lists<'a> {
    pub text: bool,
    pub rows: usize,
    pub offsets: Offsets<'a>,
    pub data: &'a [u8],
    pub validity: Option<Bitmap<'a>>,
}

// Whether the map, where there is one, has a bit for each of so many rows.
fn is_covered(validity: Option<Bitmap<'_>>, rows: usize) -> bool
    ensures { result ≡ covers validity.entry rows }
{
    validity.is_none_or(|map| map.covers(rows))
}

impl Lists<'_> {
    // Whether counts and sizes are right.
    pub(crate) fn is_shaped(&self) -> bool
        ensures { Decides result (Shaped self.now) }
    {
        self.rows <= MAX_ROWS
            && self.offsets.len() == self.rows + 1
            && is_covered(self.validity, self.rows)
    }
}
