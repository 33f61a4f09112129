// A job run record by record.
ghost use Rattle.std.specs.Prelude.{◌≡◌, ◌+◌, ◌^◌, ◌<◌, [], length as size, string_bytes, IfOk, MatchResult};
ghost use Rattle.job.specs.Transcript.{Transcript, OneTranscript};

use crate::entry::{Columns, Entry};
use crate::fault::{JobError, JobFault};
use crate::operate::operate;
use crate::part::{MAX_FILE, Part};
use crate::print::Refusal;
use records::format::read_format;
use records::record::{Record, next_record};
use std::alloc::{AllocError, Global};

/// A job on its way: the column records taken, how many operations ran, and what is left of the file.
#[derive(Drop)]
pub struct Job<'a> {
    heap: Global,
    columns: Vec<Entry<'a>>,
    operations: u64,
    rest: &'a [u8],
    // Each operation takes at least a byte of the file.
    ghost few: { operations + size rest.now < 2 ^ 64 },
}

impl<'a> Job<'a> {
    ghost use Rattle.job.specs.Faults.{OnFault};
    ghost use Rattle.job.specs.Steps.{state_of, Took, Ends, Made, Stepped};
    ghost use Rattle.job.specs.Taken.{NotListed};

    /// A job over a file, before its first step.
    pub fn new(heap: Global, file: &'a [u8]) -> Job<'a>
        ensures { state_of result ≡ record { columns = []; operations = 0; rest = file.now } }
    {
        Job {
            heap,
            columns: Vec::new(heap),
            operations: 0,
            rest: file,
        }
    }

    // Takes a column record. Refuses by 17, with nothing changed, letters that are no format and rows that are not laid out.
    fn take(&mut self, letters: &[u8], part: Part<'a>, out: &mut String) -> Result<(), JobError>
        ensures { MatchResult result (λ _. Took (state_of self.old) (state_of self.new) letters.now part.entry.bytes.now (string_bytes out.old) (string_bytes out.new))
            (OnFault (λ f. (f ≡ JobFault.Record) × NotListed letters.now part.entry.bytes.now × (state_of self.new ≡ state_of self.old) × (string_bytes out.new ≡ string_bytes out.old))) }
    {
        let format = read_format(letters).ok_or(JobFault::Record)?;
        match part.check(self.heap, format) {
            Ok(()) => {}
            Err(e @ (JobError::Memory(_) | JobError::Fault(JobFault::Record))) => return Err(e),
            Err(JobError::Fault(fault)) => writeln!(out, "{}", Refusal { fault })?,
        }
        self.columns.push(Entry {
            format,
            part: part.bytes,
        })?;
        Ok(())
    }

    // Takes the next record. A fault ends the job, and is not printed yet.
    fn advance(&mut self, out: &mut String) -> Result<(), JobError>
        requires { 0 < size self.old.rest.now }
        ensures { MatchResult result (λ _. Made (state_of self.old) (state_of self.new) (string_bytes out.old) (string_bytes out.new))
            (OnFault (λ f. Ends (state_of self.old) (state_of self.new) f (string_bytes out.old) (string_bytes out.new))) }
    {
        if self.rest.len() > MAX_FILE {
            return Err(JobFault::File.into());
        }
        let (found, after) = next_record(self.rest)?;
        if let Record::Column { format, rows } = found {
            self.take(format, Part { bytes: rows }, out)?;
        } else {
            let columns = Columns {
                heap: self.heap,
                entries: &self.columns,
            };
            operate(&columns, self.operations + 1, found, out)?;
            self.operations += 1;
        }
        self.rest = after;
        Ok(())
    }

    /// One step: takes the next record and adds what it prints. Answers false, with nothing changed, where nothing is left
    /// of the file. The only error is want of memory.
    pub fn step(&mut self, out: &mut String) -> Result<bool, AllocError>
        ensures { IfOk result (λ more. Stepped (state_of self.old) (state_of self.new) (string_bytes out.old) (string_bytes out.new) more) }
    {
        if self.rest.is_empty() {
            return Ok(false);
        }
        match self.advance(out) {
            Ok(()) => {}
            Err(JobError::Memory(e)) => return Err(e),
            Err(JobError::Fault(fault)) => {
                writeln!(out, "{}", Refusal { fault })?;
                self.rest = &[];
            }
        }
        Ok(true)
    }
}

/// The transcript of a whole job file; a file has no two. The only error is want of memory.
pub fn run(heap: Global, file: &[u8]) -> Result<String, AllocError>
    ensures value { IfOk result (λ s. Transcript file.now (string_bytes s)) }
    ensures only { OneTranscript }
{
    let mut out = String::new(heap);
    let mut job = Job::new(heap, file);
    while job.step(&mut out)? {}
    Ok(out)
}
