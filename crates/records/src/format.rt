// The format of a column, read from its letters.

ghost use Rattle.std.specs.Prelude.{◌≡◌, ℕ, ◌-◌, ◌≤◌, decimal, MatchOption, ◌≢◌};
ghost use Rattle.std.specs.Int.{IsInRange};
ghost use Rattle.records.specs.Formats.{Lawful, letters};

/// How the rows of a column are held.
#[derive(Clone, Copy, PartialEq, Debug)]
pub enum Format {
    Utf8,
    LargeUtf8,
    Binary,
    LargeBinary,
    Utf8View,
    BinaryView,
    FixedSizeBinary { width: u32 },
}

// The greatest width, and how many digits it has.
const MAX_WIDTH: u64 = 2_147_483_647;

const MAX_DIGITS: usize = 10;

// What a digit counts for.
fn digit(b: u8) -> Option<u64>
    ensures { MatchOption result (IsInRange 48 57 b → ⊥) (λ d. IsInRange 48 57 b × (d ≡ b - 48)) }
{
    match b {
        b'0'..=b'9' => Some(u64::from(b - b'0')),
        _ => None,
    }
}

// The number that these digits write, if they have no spare 0 and it is at most 2147483647.
// By hand: std's `parse` took three times as long, a fifth of a job of such columns.
fn read_width(digits: &[u8]) -> Option<u32>
    ensures { MatchOption result ((w : ℕ) → w ≤ 2147483647 → digits.now ≢ decimal w) (λ w. (w ≤ 2147483647) × (digits.now ≡ decimal w)) }
{
    if digits.is_empty() || digits.len() > MAX_DIGITS {
        return None;
    }
    if digits[0] == b'0' && digits.len() > 1 {
        return None;
    }
    let mut width = 0;
    for b in digits {
        let d = digit(*b)?;
        width = width * 10 + d;
    }
    if width > MAX_WIDTH {
        return None;
    }
    // `as`: std has no `From<u64>` for `u32`.
    Some(width as u32)
}

/// The format that these letters name.
///
/// They are `u`, `U`, `z`, `Z`, `vu` and `vz`, and `w:` with a width in decimal.
/// Refused is any other text, and a width with a spare 0 or above 2147483647.
/// `w:12` gives a width of 12, and `w:012` no format.
pub fn read_format(f: &[u8]) -> Option<Format>
    ensures { MatchOption result ((x : Format) → Lawful x → f.now ≢ letters x) (λ x. Lawful x × (f.now ≡ letters x)) }
{
    match f {
        [b'u'] => Some(Format::Utf8),
        [b'U'] => Some(Format::LargeUtf8),
        [b'z'] => Some(Format::Binary),
        [b'Z'] => Some(Format::LargeBinary),
        [b'v', b'u'] => Some(Format::Utf8View),
        [b'v', b'z'] => Some(Format::BinaryView),
        [b'w', b':', digits @ ..] => {
            let width = read_width(digits)?;
            Some(Format::FixedSizeBinary { width })
        }
        _ => None,
    }
}
