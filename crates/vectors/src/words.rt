// The words of a vector.
use anyhow::anyhow;
use std::alloc::Global;
use std::num::ParseIntError;
use std::str::FromStr;

// By hand: the library's reader of digits takes small letters and a `+` too, and a vector with these has to differ, as it did.
fn hex_digit(b: u8) -> Option<u8> {
    match b {
        b'0'..=b'9' => Some(b - b'0'),
        b'A'..=b'F' => Some(b - b'A' + 10),
        _ => None,
    }
}

fn hex_byte(word: &str) -> Option<u8> {
    let [a, b] = word.as_bytes() else {
        return None;
    };
    hex_digit(*a)?.checked_mul(16)?.checked_add(hex_digit(*b)?)
}

/// The bytes that words write.
pub(crate) fn read_bytes(heap: Global, words: &str) -> anyhow::Result<Vec<u8>> {
    words
        .split_whitespace()
        .map(|word| hex_byte(word).ok_or_else(|| anyhow!("no byte")))
        .try_collect(heap)
}

/// The numbers that words write in decimal.
pub(crate) fn read_numbers<T: FromStr<Err = ParseIntError> + Drop>(
    heap: Global,
    words: &str,
) -> anyhow::Result<Vec<T>> {
    words
        .split_whitespace()
        .map(|word| -> anyhow::Result<T> { Ok(word.parse::<T>()?) })
        .try_collect(heap)
}

/// A text before and after its first colon, without the spaces around each.
pub(crate) fn halves(line: &str) -> Option<(&str, &str)> {
    let (question, answer) = line.split_once(':')?;
    Some((question.trim(), answer.trim()))
}

/// A text's first word and what follows it.
pub(crate) fn first_word(text: &str) -> (&str, &str) {
    text.split_once(' ').unwrap_or((text, ""))
}

/// What stands before a text's last word, and that word.
pub(crate) fn last_word(text: &str) -> (&str, &str) {
    text.rsplit_once(' ').unwrap_or(("", text))
}
