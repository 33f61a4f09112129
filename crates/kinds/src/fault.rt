// Why a call by kind is refused.
ghost use Rattle.std.specs.Prelude.{◌≡◌};
ghost use Rattle.kinds.specs.Faults.{number as fault_number};
ghost use Rattle.kinds.specs.declared.fault.KindFault.TheVariants.{Length};

use kernels::length::LengthFault;

/// Why a call by kind is refused.
#[derive(Clone, Copy, PartialEq, Debug)]
pub enum KindFault {
    /// The operation lacks this kind.
    Lacks,
    /// The lengths are not written.
    Length(LengthFault),
}

impl KindFault {
    /// The number of the refusal.
    pub fn number(self) -> u64
        ensures { result ≡ fault_number self }
    {
        match self {
            KindFault::Lacks => 15,
            KindFault::Length(fault) => fault.number(),
        }
    }
}

// By hand: a derived `From` says nothing in a clause.
impl From<LengthFault> for KindFault {
    ghost from_gives = { λ e r. r ≡ Length e };

    fn from(e: LengthFault) -> KindFault {
        KindFault::Length(e)
    }
}
