// Why a column cannot be made.
ghost use Rattle.std.specs.Prelude.{◌≡◌};
ghost use Rattle.columns.specs.Faults.{number as fault_number};
ghost use Rattle.columns.specs.declared.fault.ColumnFault.TheVariants.{Offset};

use encoding::offsets::OffsetFault;
use encoding::utf8::TextFault;

/// Why a column cannot be made.
#[derive(Clone, Copy, PartialEq, Debug)]
pub enum ColumnFault {
    /// A count, a width or a list's size breaks the rules.
    Shape,
    /// An offset or a list size breaks them.
    Offset { row: usize },
    /// A view breaks them.
    View { row: usize },
    /// A row of a text column cannot be read.
    Text { row: usize, fault: TextFault },
}

impl ColumnFault {
    /// The number of the refusal.
    pub fn number(self) -> u64
        ensures { result ≡ fault_number self }
    {
        match self {
            ColumnFault::Shape => 1,
            ColumnFault::Offset { .. } => 2,
            ColumnFault::View { .. } => 3,
            ColumnFault::Text { .. } => 4,
        }
    }
}

// By hand: a derived `From` says nothing in a clause.
impl From<OffsetFault> for ColumnFault {
    ghost from_gives = { λ e r. r ≡ Offset e.row };

    fn from(e: OffsetFault) -> ColumnFault {
        ColumnFault::Offset { row: e.row }
    }
}
