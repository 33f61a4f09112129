// Why a job's operation, column or file is refused, and why a job cannot go on.
ghost use Rattle.std.specs.Prelude.{◌≡◌, alloc_error};
ghost use Rattle.job.specs.Faults.{number as fault_number, unread_of};
ghost use Rattle.job.specs.declared.fault.JobError.TheVariants.{Memory, Fault};
ghost use Rattle.job.specs.declared.fault.JobFault.TheVariants.{Record, Column, Kind};

use columns::fault::ColumnFault;
use kinds::fault::KindFault;
use records::record::BadRecord;
use std::alloc::{AllocError, AllocFailed};

/// Why a part of a job is refused. Its number stands in specs/Faults.antt.
#[derive(Clone, Copy, PartialEq, Debug)]
pub enum JobFault {
    /// A record is not as it should be.
    Record,
    /// A column of this number is not read yet.
    NotRead,
    /// The file is too long.
    File,
    /// A column cannot be made.
    Column(ColumnFault),
    /// The call by kind is refused.
    Kind(KindFault),
}

/// Why a part of a job has no answer: there is no memory, and the job stops, or the part is refused.
#[derive(Clone, Copy, PartialEq, Debug)]
pub enum JobError {
    Memory(AllocError),
    Fault(JobFault),
}

// By hand: a derived `From` says nothing in a clause.
impl From<AllocError> for JobError {
    ghost from_gives = { λ e r. r ≡ Memory e };

    fn from(e: AllocError) -> JobError {
        JobError::Memory(e)
    }
}

impl<T: Drop> From<AllocFailed<T>> for JobError {
    ghost from_gives = { λ _ r. r ≡ Memory alloc_error };

    fn from(e: AllocFailed<T>) -> JobError {
        JobError::Memory(AllocError::from(e))
    }
}

impl From<JobFault> for JobError {
    ghost from_gives = { λ e r. r ≡ Fault e };

    fn from(e: JobFault) -> JobError {
        JobError::Fault(e)
    }
}

impl From<BadRecord> for JobError {
    ghost from_gives = { λ _ r. r ≡ Fault Record };

    fn from(_e: BadRecord) -> JobError {
        JobError::Fault(JobFault::Record)
    }
}

impl From<ColumnFault> for JobError {
    ghost from_gives = { λ e r. r ≡ Fault (Column e) };

    fn from(e: ColumnFault) -> JobError {
        JobError::Fault(JobFault::Column(e))
    }
}

impl From<KindFault> for JobError {
    ghost from_gives = { λ e r. r ≡ Fault (Kind e) };

    fn from(e: KindFault) -> JobError {
        JobError::Fault(JobFault::Kind(e))
    }
}

impl JobFault {
    /// The number that is printed for the fault.
    pub fn number(self) -> u64
        ensures { result ≡ fault_number self }
    {
        match self {
            JobFault::Record => 17,
            JobFault::NotRead => 18,
            JobFault::File => 19,
            JobFault::Column(fault) => fault.number(),
            JobFault::Kind(fault) => fault.number(),
        }
    }
}

impl JobError {
    /// The error as a later operation meets it: a column that could not be made counts as not read.
    pub(crate) fn unread(self) -> JobError
        ensures { result ≡ unread_of self }
    {
        match self {
            JobError::Fault(JobFault::Record | JobFault::Column(_)) => {
                JobError::Fault(JobFault::NotRead)
            }
            other => other,
        }
    }
}
