// The lines that a job prints.
ghost use Rattle.std.specs.Prelude.{Some};
ghost use Rattle.job.specs.Faults.{number as fault_number};
ghost use Rattle.job.specs.Lines.{operation_text, refusal_text};

use crate::fault::JobFault;
use crate::lengths::Lengths;
use std::fmt;

/// An operation's line: its number, the refusal or 0, and how many rows, null rows and wrapped lengths it has.
/// Example: `1 0 2 1 0`.
#[derive(Clone, Copy, PartialEq, Debug)]
pub struct Line<'a> {
    pub operation: u64,
    pub answer: Result<&'a Lengths, JobFault>,
}

impl fmt::Display for Line<'_> {
    ghost output = { λ l. Some (operation_text l.operation l.answer) };

    fn fmt<W: fmt::Write>(&self, f: &mut fmt::Formatter<W>) -> fmt::Result {
        let n = self.operation;
        match self.answer {
            Ok(lengths) => {
                let Lengths {
                    nulls,
                    wrapped,
                    numbers,
                } = lengths;
                let rows = numbers.len();
                write!(f, "{n} 0 {rows} {nulls} {wrapped}")
            }
            Err(fault) => write!(f, "{n} {} 0 0 0", fault.number()),
        }
    }
}

/// A refusal that belongs to no operation. Example: `17 0 0 0`.
#[derive(Clone, Copy, PartialEq, Debug)]
pub struct Refusal {
    pub fault: JobFault,
}

impl fmt::Display for Refusal {
    ghost output = { λ r. Some (refusal_text (fault_number r.fault)) };

    fn fmt<W: fmt::Write>(&self, f: &mut fmt::Formatter<W>) -> fmt::Result {
        let number = self.fault.number();
        write!(f, "{number} 0 0 0")
    }
}
