// Vectors of columns by offsets.
use crate::words::{first_word, halves, read_bytes, read_numbers};
use anyhow::{Context, bail};
use columns::fault::ColumnFault;
use columns::lists::Lists;
use columns::offset_column::OffsetColumn;
use columns::row::Row;
use columns::rows::Rows;
use columns::source::Source;
use encoding::bitmap::Bitmap;
use encoding::offset::Offset;
use std::alloc::Global;
use std::fmt;
use std::num::ParseIntError;
use std::str::FromStr;

// A validity map: its bytes and its start bit.
#[derive(Drop)]
struct Map {
    bytes: Vec<u8>,
    start: usize,
}

// What a column is made from.
#[derive(Drop)]
struct Parts<O> {
    text: bool,
    rows: usize,
    offsets: Vec<O>,
    data: Vec<u8>,
    map: Option<Map>,
}

impl<O: Offset> Parts<O> {
    fn column(&self) -> Result<OffsetColumn<'_>, ColumnFault> {
        OffsetColumn::new(Lists {
            text: self.text,
            rows: self.rows,
            offsets: O::lend(self.offsets.as_slice()),
            data: self.data.as_slice(),
            validity: self.map.as_ref().map(|map| Bitmap {
                bytes: map.bytes.as_slice(),
                start: map.start,
            }),
        })
    }
}

// A row as a vector writes it: its base, `+` or `-`, and its bytes.
#[derive(Clone, Copy)]
struct Written<'a>(Row<'a>);

impl fmt::Display for Written<'_> {
    fn fmt<W: fmt::Write>(&self, f: &mut fmt::Formatter<W>) -> fmt::Result {
        let base = self.0.base;
        let mark = if self.0.valid { '+' } else { '-' };
        write!(f, " {base}{mark}")?;
        for b in self.0.bytes {
            write!(f, "{b:02x}")?;
        }
        Ok(())
    }
}

// A refusal as a vector writes it.
#[derive(Clone, Copy)]
struct Refusal(ColumnFault);

impl fmt::Display for Refusal {
    fn fmt<W: fmt::Write>(&self, f: &mut fmt::Formatter<W>) -> fmt::Result {
        let number = self.0.number();
        match self.0 {
            ColumnFault::Shape => write!(f, "refused {number}"),
            ColumnFault::Offset { row }
            | ColumnFault::View { row }
            | ColumnFault::Text { row, .. } => write!(f, "refused {number} {row}"),
        }
    }
}

// What a column says of itself.
fn shown(heap: Global, column: &OffsetColumn<'_>) -> anyhow::Result<String> {
    let word = if column.is_text() { "text" } else { "binary" };
    let mut out = String::from_str(heap, word)?;
    // Counted here: `count()` of the rows asks for a proof that the number fits, and this crate has no proofs.
    let mut count = 0usize;
    for row in Rows::new(column) {
        let row = Written(row);
        write!(out, "{row}")?;
        count = count.saturating_add(1);
    }
    if count != column.count() {
        bail!("a row is missing, or one too many");
    }
    Ok(out)
}

// What the making of a column answers.
fn made<O: Offset>(heap: Global, parts: &Parts<O>) -> anyhow::Result<String> {
    match parts.column() {
        Ok(column) => shown(heap, &column),
        Err(fault) => Ok(Refusal(fault).to_string(heap)?),
    }
}

fn read_map(heap: Global, words: &str) -> anyhow::Result<Option<Map>> {
    if words == "none" {
        return Ok(None);
    }
    let (number, rest) = first_word(words);
    let start = number.parse::<usize>()?;
    let bytes = read_bytes(heap, rest)?;
    Ok(Some(Map { bytes, start }))
}

// The offsets, the data, the map and the answer of a vector.
fn fields(text: &str) -> Option<(&str, &str, &str, &str)> {
    let (offsets, rest) = halves(text)?;
    let (data, rest) = halves(rest)?;
    let (map, answer) = halves(rest)?;
    Some((offsets, data, map, answer))
}

// Whether the column of so many rows, in one width of offsets, is made or refused as the answer says.
fn agrees_in<O: Offset + FromStr<Err = ParseIntError> + Drop>(
    heap: Global,
    text: bool,
    count: &str,
    rest: &str,
) -> anyhow::Result<bool> {
    let (offsets, data, map, answer) = fields(rest).context("a field is missing")?;
    let parts = Parts::<O> {
        text,
        rows: count.parse::<usize>()?,
        offsets: read_numbers(heap, offsets)?,
        data: read_bytes(heap, data)?,
        map: read_map(heap, map)?,
    };
    let said = made(heap, &parts)?;
    Ok(said.as_str() == answer)
}

/// Whether the column of this format and row count, over the lists that follow, is made or refused as the answer says.
pub(crate) fn column_agrees(heap: Global, asked: &str, rest: &str) -> anyhow::Result<bool> {
    let (letter, count) = first_word(asked);
    // The letter is a word of the file, and chooses the width, a type.
    match letter {
        "u" => agrees_in::<i32>(heap, true, count, rest),
        "U" => agrees_in::<i64>(heap, true, count, rest),
        "z" => agrees_in::<i32>(heap, false, count, rest),
        "Z" => agrees_in::<i64>(heap, false, count, rest),
        _ => bail!("no format"),
    }
}
