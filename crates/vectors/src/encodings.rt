// Vectors of the crate `encoding`.
use crate::words::{first_word, last_word, read_bytes};
use anyhow::{anyhow, bail};
use encoding::offset::Offset;
use encoding::{bits, utf8};
use std::alloc::Global;

// What a reader says of a row: how many characters it has, or where the first unreadable one begins.
type Reading = Result<usize, usize>;

fn expected(answer: &str) -> anyhow::Result<Reading> {
    let (word, number) = first_word(answer);
    let n = number.parse::<usize>()?;
    match word {
        "ok" => Ok(Ok(n)),
        "bad" => Ok(Err(n)),
        _ => Err(anyhow!("neither ok nor bad")),
    }
}

fn our_reading(row: &[u8]) -> Reading {
    utf8::check(row)
        .map(|()| utf8::count(row))
        .map_err(|fault| fault.place)
}

fn std_reading(row: &[u8]) -> Reading {
    std::str::from_utf8(row)
        .map(|text| text.chars().count())
        .map_err(|fault| fault.valid_up_to())
}

pub(crate) fn utf8_agrees(heap: Global, asked: &str, answer: &str) -> anyhow::Result<bool> {
    let row = read_bytes(heap, asked)?;
    let wanted = expected(answer)?;
    Ok(our_reading(row.as_slice()) == wanted && std_reading(row.as_slice()) == wanted)
}

pub(crate) fn exact_agrees(asked: &str, answer: &str) -> anyhow::Result<bool> {
    let bytes = asked.parse::<u64>()?;
    let wanted = answer.parse::<u128>()?;
    Ok(bits::exact(bytes) == wanted)
}

// The product in a width, and the vector's word for whether it fits there.
fn product<O: Offset + Into<i64>>(bytes: u64) -> (i64, &'static str) {
    let number = bits::wrapped_bits::<O>(bytes).into();
    let word = if bits::fits::<O>(bytes) {
        "fits"
    } else {
        "wraps"
    };
    (number, word)
}

pub(crate) fn bits_agree(asked: &str, answer: &str) -> anyhow::Result<bool> {
    let bytes = asked.parse::<u64>()?;
    let (width, rest) = first_word(answer);
    let (number, word) = first_word(rest);
    let wanted = number.parse::<i64>()?;
    // As the letter of a column does, the word chooses a type.
    let said = match width {
        "32" => product::<i32>(bytes),
        "64" => product::<i64>(bytes),
        _ => bail!("no width"),
    };
    Ok(said.0 == wanted && said.1 == word)
}

pub(crate) fn boundary_agrees(heap: Global, asked: &str, answer: &str) -> anyhow::Result<bool> {
    let (words, number) = last_word(asked);
    let row = read_bytes(heap, words)?;
    let p = number.parse::<usize>()?;
    let said = if utf8::is_boundary(row.as_slice(), p) {
        "yes"
    } else {
        "no"
    };
    Ok(answer == said)
}

pub(crate) fn place_agrees(heap: Global, asked: &str, answer: &str) -> anyhow::Result<bool> {
    let (words, number) = last_word(asked);
    let row = read_bytes(heap, words)?;
    let k = number.parse::<usize>()?;
    match utf8::place(row.as_slice(), k) {
        Some(p) => Ok(answer.parse::<usize>()? == p),
        None => Ok(answer == "none"),
    }
}
