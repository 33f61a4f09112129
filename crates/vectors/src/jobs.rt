// Vectors of whole jobs.
use crate::words::read_bytes;
use job::run::run;
use std::alloc::Global;

// The lines of an answer, each with its newline.
fn read_lines(heap: Global, answer: &str) -> anyhow::Result<String> {
    let mut text = String::new(heap);
    if answer.is_empty() {
        return Ok(text);
    }
    for line in answer.split('|') {
        let line = line.trim();
        writeln!(text, "{line}")?;
    }
    Ok(text)
}

fn prints(heap: Global, file: &[u8], answer: &str) -> anyhow::Result<bool> {
    let wanted = read_lines(heap, answer)?;
    let printed = run(heap, file)?;
    Ok(printed.as_str() == wanted.as_str())
}

/// Whether the job file of these bytes prints the answer.
pub(crate) fn job_agrees(heap: Global, asked: &str, answer: &str) -> anyhow::Result<bool> {
    let file = read_bytes(heap, asked)?;
    prints(heap, file.as_slice(), answer)
}

/// Whether the job file of so many bytes 0 prints the answer.
pub(crate) fn long_agrees(heap: Global, asked: &str, answer: &str) -> anyhow::Result<bool> {
    let n = asked.parse::<usize>()?;
    let file = vec![in heap; 0u8; n]?;
    prints(heap, file.as_slice(), answer)
}

// A job file: a column of n empty valid rows, its length, its bit length, and its join with itself.
fn tall_file(heap: Global, n: u16) -> anyhow::Result<Vec<u8>> {
    let mut file = Vec::new(heap);
    let size = u32::from(n) * 5 + 4;
    file.extend_from_slice(&size.to_le_bytes())?;
    file.extend_from_slice(&[1, 0, 1, b'z'])?;
    for _ in 0..n {
        file.extend_from_slice(&[1, 0, 0, 0, 0])?;
    }
    file.extend_from_slice(&[4, 0, 0, 0, 5, 0, 0, 0])?;
    file.extend_from_slice(&[4, 0, 0, 0, 6, 0, 0, 0])?;
    file.extend_from_slice(&[6, 0, 0, 0, 4, 0, 0, 0, 0, 0])?;
    Ok(file)
}

// The lines of more than one number.
fn heads(heap: Global, text: &str) -> anyhow::Result<String> {
    let mut kept = String::new(heap);
    for line in text.lines().filter(|line| line.contains(' ')) {
        writeln!(kept, "{line}")?;
    }
    Ok(kept)
}

/// Whether a column of so many rows makes the operations on it print the answer.
pub(crate) fn rows_agree(heap: Global, asked: &str, answer: &str) -> anyhow::Result<bool> {
    let n = asked.parse::<u16>()?;
    let file = tall_file(heap, n)?;
    let printed = run(heap, file.as_slice())?;
    let kept = heads(heap, printed.as_str())?;
    let wanted = read_lines(heap, answer)?;
    Ok(kept.as_str() == wanted.as_str())
}
