// The program: runs a job file and prints its transcript as it goes.
#![tactic(auto)]

use anyhow::anyhow;
use job::part::MAX_FILE;
use job::run::Job;
use std::alloc::Global;
use std::fs::File;
use std::io::Read;
use std::{env, io};

// One byte more than a job file may have: what is read of a longer file is enough to refuse it.
// `as`: std has no `From<usize>` for `u64`.
const ENOUGH: u64 = MAX_FILE as u64 + 1;

// The text is printed once so much of it stands ready, and at the end.
const READY: usize = 4096;

const USAGE: &str =
    "usage: herringiron [FILE]\nRuns the job file FILE, or the one on standard input, and prints its transcript.\n";

fn read_some<R: Read + Drop>(heap: Global, source: R) -> io::Result<Vec<u8>> {
    let mut bytes = Vec::new(heap);
    source.take(ENOUGH).read_to_end(&mut bytes)?;
    Ok(bytes)
}

fn run_job(rt: &HostRuntime, file: &[u8]) -> anyhow::Result<()> {
    let heap = rt.alloc();
    let mut job = Job::new(heap, file);
    let mut out = String::new(heap);
    while job.step(&mut out).map_err(|_| anyhow!("no memory"))? {
        if out.len() >= READY {
            rt.print(out.as_str())?;
            out.clear();
        }
    }
    rt.print(out.as_str())?;
    Ok(())
}

fn start(rt: &HostRuntime) -> anyhow::Result<()> {
    let heap = rt.alloc();
    let Some(path) = env::args(rt)?.nth(1) else {
        let file = read_some(heap, rt.stdin())?;
        return run_job(rt, file.as_slice());
    };
    if path.as_str() == "--help" {
        rt.print(USAGE)?;
        return Ok(());
    }
    let file = read_some(heap, File::open(rt, path.as_str())?)?;
    run_job(rt, file.as_slice())
}

fn main(rt: HostRuntime) -> anyhow::Result<()> {
    start(&rt)
}
