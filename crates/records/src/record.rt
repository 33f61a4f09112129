// The records of a job file, taken off its front one by one.

ghost use Rattle.std.specs.Prelude.{◌≡◌, ℕ, ◌<◌, Bool, List, [], ◌∷◌, length, ℤ, IfOk, Option, MatchResult, ◌≢◌};
ghost use Rattle.records.specs.Kinds.{Decodes, kind_of};
ghost use Rattle.records.specs.Layout.{ColumnBody, CutBody, Fields, JoinBody, LengthPart, Reads, Stands, le, mark_of};

/// A record of a job file. Its parts are borrowed from the file.
#[derive(Clone, Copy, Debug)]
pub enum Record<'a> {
    Column {
        format: &'a [u8],
        rows: &'a [u8],
    },
    Cut {
        column: u16,
        start: i64,
        length: Option<u64>,
    },
    CutByCharacter {
        column: u16,
        start: i64,
        length: Option<u64>,
    },
    Join {
        left: u16,
        right: u16,
    },
    Length {
        column: u16,
    },
    BitLength {
        column: u16,
    },
}

/// No record stands here.
#[derive(Clone, Copy, PartialEq, Debug)]
pub struct BadRecord;

// The kinds of records.
#[derive(Clone, Copy, PartialEq, Debug)]
enum RecordKind {
    Column,
    Cut,
    CutByCharacter,
    Join,
    Length,
    BitLength,
}

impl TryFrom<u16> for RecordKind {
    type Error = BadRecord;

    ghost try_from_gives = { Decodes };

    fn try_from(number: u16) -> Result<Self, BadRecord> {
        match number {
            1 => Ok(RecordKind::Column),
            2 => Ok(RecordKind::Cut),
            3 => Ok(RecordKind::CutByCharacter),
            4 => Ok(RecordKind::Join),
            5 => Ok(RecordKind::Length),
            6 => Ok(RecordKind::BitLength),
            _ => Err(BadRecord),
        }
    }
}

// The bytes of a kind, which the size of a record counts too.
const KIND_BYTES: usize = 2;

// A number as a file gives it: N bytes, the lowest first.
pub(crate) trait Number<const N: usize>: Copy {
    ghost number: { Self → ℕ };

    fn from_bytes(bytes: &[u8; N]) -> Self
        ensures { number result ≡ le bytes.now };

    // The number at the front, and what follows it.
    final fn read(b: &[u8]) -> Result<(Self, &[u8]), BadRecord>
        ensures { MatchResult result (λ p. Reads N (number p.0) b.now p.1.now) (λ _. (x : ℕ) (rest : List ℕ) → Reads N x b.now rest → ⊥) }
    {
        // No `split_first_chunk`: it asks for a proof that N bytes fit in memory, before it is known that so many stand here.
        let (bytes, rest) = b.split_at_checked(N).ok_or(BadRecord)?;
        let bytes = bytes.try_into().map_err(|_| BadRecord)?;
        Ok((Self::from_bytes(bytes), rest))
    }
}

// Each width by itself: `from_le_bytes` belongs to the type, and no trait of std has it.
impl Number<2> for u16 {
    ghost number = { λ x. x };

    fn from_bytes(bytes: &[u8; 2]) -> u16 {
        u16::from_le_bytes(*bytes)
    }
}

impl Number<4> for u32 {
    ghost number = { λ x. x };

    fn from_bytes(bytes: &[u8; 4]) -> u32 {
        u32::from_le_bytes(*bytes)
    }
}

impl Number<8> for u64 {
    ghost number = { λ x. x };

    fn from_bytes(bytes: &[u8; 8]) -> u64 {
        u64::from_le_bytes(*bytes)
    }
}

// The number that the bytes give, with nothing after it.
fn last<T: Number<N>, const N: usize>(b: &[u8]) -> Result<T, BadRecord>
    ensures { MatchResult result (λ x. Reads N (T.number x) b.now []) (λ _. (x : ℕ) → Reads N x b.now [] → ⊥) }
{
    match T::read(b)? {
        (x, []) => Ok(x),
        _ => Err(BadRecord),
    }
}

// The byte 1 as yes or the byte 0 as no, and what follows it. Any other byte is no answer.
pub(crate) fn read_mark(b: &[u8]) -> Result<(bool, &[u8]), BadRecord>
    ensures { MatchResult result (λ p. b.now ≡ mark_of p.0 ∷ p.1.now) (λ _. (v : Bool) (rest : List ℕ) → b.now ≢ mark_of v ∷ rest) }
{
    match b {
        [0, rest @ ..] => Ok((false, rest)),
        [1, rest @ ..] => Ok((true, rest)),
        _ => Err(BadRecord),
    }
}

// The length that ends the body of a cut, or `None` where it is left out.
fn read_length(b: &[u8]) -> Result<Option<u64>, BadRecord>
    ensures { MatchResult result (λ l. LengthPart l b.now) (λ _. (l : Option ℕ) → LengthPart l b.now → ⊥) }
{
    match read_mark(b)? {
        (false, []) => Ok(None),
        (true, rest) => Ok(Some(last(rest)?)),
        _ => Err(BadRecord),
    }
}

// The format and the rows part of a column record.
fn read_column(body: &[u8]) -> Result<(&[u8], &[u8]), BadRecord>
    ensures { MatchResult result (λ p. ColumnBody p.0.now p.1.now body.now) (λ _. (f rows : List ℕ) → ColumnBody f rows body.now → ⊥) }
{
    let (size, rest) = body.split_first().ok_or(BadRecord)?;
    rest.split_at_checked(usize::from(*size)).ok_or(BadRecord)
}

// The column, the start and the length of a cut.
fn read_cut(body: &[u8]) -> Result<(u16, i64, Option<u64>), BadRecord>
    ensures { MatchResult result (λ p. CutBody p.0 p.1 p.2 body.now) (λ _. (c : ℕ) (s : ℤ) (l : Option ℕ) → CutBody c s l body.now → ⊥) }
{
    let (column, rest) = u16::read(body)?;
    let (start, rest) = u64::read(rest)?;
    let length = read_length(rest)?;
    Ok((column, start.cast_signed(), length))
}

// The two columns of a join.
fn read_join(body: &[u8]) -> Result<(u16, u16), BadRecord>
    ensures { MatchResult result (λ p. JoinBody p.0 p.1 body.now) (λ _. (x y : ℕ) → JoinBody x y body.now → ⊥) }
{
    let (left, rest) = u16::read(body)?;
    let right = last(rest)?;
    Ok((left, right))
}

// The record of this kind with this body. Inlined, so that no record is copied on its way out of `next_record`.
#[inline(always)]
fn read_body<'a>(kind: RecordKind, body: &'a [u8]) -> Result<Record<'a>, BadRecord>
    ensures { MatchResult result (λ x. (kind_of x ≡ kind) × Fields x body.now) (λ _. (x : Record) → kind_of x ≡ kind → Fields x body.now → ⊥) }
{
    // The two cuts, and the two lengths, differ in their names alone: one arm for both would have to match the kind again.
    match kind {
        RecordKind::Column => {
            let (format, rows) = read_column(body)?;
            Ok(Record::Column { format, rows })
        }
        RecordKind::Cut => {
            let (column, start, length) = read_cut(body)?;
            Ok(Record::Cut {
                column,
                start,
                length,
            })
        }
        RecordKind::CutByCharacter => {
            let (column, start, length) = read_cut(body)?;
            Ok(Record::CutByCharacter {
                column,
                start,
                length,
            })
        }
        RecordKind::Join => {
            let (left, right) = read_join(body)?;
            Ok(Record::Join { left, right })
        }
        RecordKind::Length => Ok(Record::Length {
            column: last(body)?,
        }),
        RecordKind::BitLength => Ok(Record::BitLength {
            column: last(body)?,
        }),
    }
}

/// The record at the front of a job file, and what follows it.
///
/// A record is a size (4 bytes, lowest first), a kind (2 bytes) and a body of `size - 2` bytes.
/// Refused are a size below 2 or past the end of the file, a kind that is not 1 to 6, and a body
/// that ends before its fields do or has bytes after them.
/// The bytes `4 0 0 0 5 0 3 0 9` give the length of column 3, and what follows is `9`.
pub fn next_record<'a>(file: &'a [u8]) -> Result<(Record<'a>, &'a [u8]), BadRecord>
    ensures reads { MatchResult result (λ p. Stands file.now p.0 p.1.now) (λ _. (x : Record) (rest : List ℕ) → Stands file.now x rest → ⊥) }
    ensures shorter { IfOk result (λ p. length p.1.now < length file.now) }
{
    let (size, rest) = u32::read(file)?;
    let (kind, rest) = u16::read(rest)?;
    // `as`: std has no `From<u32>` for `usize`.
    let body_size = (size as usize).checked_sub(KIND_BYTES).ok_or(BadRecord)?;
    let (body, rest) = rest.split_at_checked(body_size).ok_or(BadRecord)?;
    let kind = RecordKind::try_from(kind)?;
    Ok((read_body(kind, body)?, rest))
}
