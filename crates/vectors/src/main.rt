// Runs vectors from outside against the crates, and says how many differ.
//
// The standard input has one vector on a line: a question, a colon and the answer that a document gives.
// Bytes are written as two hexadecimal digits, numbers in decimal.
//
//   utf8 54 C3 BC 72 : ok 3          the row is text, of 3 characters
//   utf8 61 ED A0 80 : bad 1         the first unreadable character begins at byte 1
//   exact 1 : 8                      1 byte is 8 bits
//   bits 1 : 32 8 fits               in 32 signed bits that is 8, and it fits
//   bits 268435456 : 32 -2147483648 wraps
//   boundary 54 C3 BC 72 2 : no      place 2 of the row is no boundary
//   place 54 C3 BC 72 2 : 3          the first 2 characters end before byte 3; `none` where so many cannot be read
//   job 04 00 00 00 05 00 00 00 : 1 18 0 0 0
//                                    the job file of these bytes prints this line; `|` stands between two lines,
//                                    and nothing after the colon means that nothing is printed
//   long 65537 : 19 0 0 0            the job file of so many bytes 0 prints this
//   rows 4097 : 1 12 0 0 0 | 2 12 0 0 0 | 3 15 0 0 0
//                                    a column of so many empty valid rows, format z, then its length, bit length
//                                    and join with itself print these lines, the rows' numbers left out
//   column u 2 : 0 1 3 : 61 62 63 : 1 02 : text 0+61 1-6263
//                                    the column of format u and 2 rows over these offsets, this data and a map
//                                    from bit 1 on (`none` for no map) is text (under z and Z `binary`), and its
//                                    rows have these bases, are valid (`+`) or null (`-`), and have these bytes
//   column u 2 : 0 3 2 : 61 62 63 : none : refused 2 1
//                                    the column is refused by 2, which tells row 1
//
// A line that begins with `#`, and an empty one, is passed over.
// The row of a utf8 vector is also given to the reader of `std`: a line differs where one of the two readers does.
// A line that cannot be read differs too. Each line that differs is echoed.
#![tactic(auto)]

mod encodings;
mod jobs;
mod offset_columns;
mod words;

use crate::words::{first_word, halves};
use std::alloc::Global;
use std::io::{BufRead, BufReader};

// Whether a line of a section has the answer that it should; no line of the section: nothing.
fn judged<F: Fn(&str, &str) -> anyhow::Result<bool>>(
    section: &str,
    agrees: &F,
    line: &str,
) -> Option<bool>
    requires { F.IsAlwaysCallable agrees.now }
{
    let (question, answer) = halves(line)?;
    let (name, asked) = first_word(question);
    if name != section {
        return None;
    }
    Some(agrees(asked, answer).unwrap_or(false))
}

// Runs the vectors of a section, and returns how many there were.
fn run_section<F: Fn(&str, &str) -> anyhow::Result<bool>>(
    rt: &HostRuntime,
    lines: &[String],
    section: &str,
    agrees: F,
) -> anyhow::Result<usize>
    requires { F.IsAlwaysCallable agrees }
{
    // Counted here: a line that differs is printed on the way, which may fail.
    let mut run: usize = 0;
    let mut differ: usize = 0;
    for line in lines {
        let Some(same) = judged(section, &agrees, line.as_str()) else {
            continue;
        };
        run = run.saturating_add(1);
        if !same {
            differ = differ.saturating_add(1);
            println!(rt; "{line}")?;
        }
    }
    println!(rt; "{section}: {run} run, {differ} differ")?;
    Ok(run)
}

fn is_vector(line: &str) -> bool {
    !line.is_empty() && !line.starts_with('#')
}

fn vectors(rt: &HostRuntime) -> anyhow::Result<Vec<String>> {
    let mut lines = Vec::new(rt.alloc());
    for line in BufReader::new(rt.alloc(), rt.stdin())?.lines(rt.alloc()) {
        let line = line?;
        if is_vector(line.as_str()) {
            lines.push(line)?;
        }
    }
    Ok(lines)
}

// Runs the sections, in the order in which they are told.
fn run_all(rt: &HostRuntime) -> anyhow::Result<()> {
    let lines = vectors(rt)?;
    let all = lines.as_slice();
    let heap = rt.alloc();
    let counts = [
        run_section(rt, all, "utf8", |q, a| encodings::utf8_agrees(heap, q, a))?,
        run_section(rt, all, "exact", encodings::exact_agrees)?,
        run_section(rt, all, "bits", encodings::bits_agree)?,
        run_section(
            rt,
            all,
            "boundary",
            |q, a| encodings::boundary_agrees(heap, q, a),
        )?,
        run_section(rt, all, "place", |q, a| encodings::place_agrees(heap, q, a))?,
        run_section(rt, all, "job", |q, a| jobs::job_agrees(heap, q, a))?,
        run_section(rt, all, "long", |q, a| jobs::long_agrees(heap, q, a))?,
        run_section(rt, all, "rows", |q, a| jobs::rows_agree(heap, q, a))?,
        run_section(
            rt,
            all,
            "column",
            |q, a| offset_columns::column_agrees(heap, q, a),
        )?,
    ];
    let run = counts
        .iter()
        .fold(0usize, |n, count| n.saturating_add(*count));
    let unread = lines.len().saturating_sub(run);
    println!(rt; "lines of no section: {unread}")?;
    Ok(())
}

fn main(rt: HostRuntime) -> anyhow::Result<()> {
    run_all(&rt)
}
