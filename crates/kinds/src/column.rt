// Columns of any kind.
ghost use Rattle.std.specs.Prelude.{◌≡◌};
ghost use Rattle.kinds.specs.Kinds.{offset_kind, kind_of};

use crate::kind::Kind;
use columns::offset_column::OffsetColumn;
use columns::source::Source;

/// A column of any kind: one case for each make. A kind that has no make yet is named, and every operation lacks it.
#[derive(Clone, Copy)]
pub enum Column<'a> {
    Offset(OffsetColumn<'a>),
    Unbuilt(Kind),
}

fn offset_kind(text: bool, wide: bool) -> Kind
    ensures { result ≡ offset_kind text wide }
{
    match (text, wide) {
        (true, false) => Kind::Utf8,
        (true, true) => Kind::LargeUtf8,
        (false, false) => Kind::Binary,
        (false, true) => Kind::LargeBinary,
    }
}

impl Column<'_> {
    /// The column's kind. Example: 64-bit offsets over text make LargeUtf8.
    pub fn kind(&self) -> Kind
        ensures { result ≡ kind_of self.now }
    {
        match self {
            Column::Offset(c) => offset_kind(c.is_text(), c.is_wide()),
            Column::Unbuilt(kind) => *kind,
        }
    }
}
