// Validity maps: a bit for each row, 1 for a row that holds a value.
ghost use Rattle.std.specs.Prelude.{◌≡◌, ◌+◌, ◌*◌, ◌/◌, ◌%◌, ◌<◌, ◌≤◌, ◌↔◌, length, Decides, IsOk, MatchOption};
ghost use Rattle.encoding.specs.Bitmap.{bit, marked, with_bit, BitLaws};

/// A validity map: bytes with a start bit. The bit of row i is bit start + i, the lowest bit of each byte first.
#[derive(Clone, Copy)]
pub struct Bitmap<'a> {
    pub bytes: &'a [u8],
    pub start: usize,
}

// The byte that holds bit start + i, and the place of the bit there: added in parts, since start + i may not fit.
fn place(start: usize, i: usize) -> (usize, usize)
    ensures { (result.0 ≡ (start + i) / 8) × (result.1 ≡ (start + i) % 8) }
{
    let low = start % 8 + i % 8;
    (start / 8 + i / 8 + low / 8, low % 8)
}

// The byte b with its bit k as valid says.
fn with_bit(b: u8, k: usize, valid: bool) -> u8
    requires { k < 8 }
    ensures { result ≡ marked b k valid }
{
    let mark = 1 << k;
    if valid { b | mark } else { b & !mark }
}

impl Bitmap<'_> {
    /// Whether it has a bit for each of so many rows.
    pub fn covers(&self, rows: usize) -> bool
        ensures { Decides result (self.now.start + rows ≤ 8 * length self.now.bytes.now) }
    {
        // `as`: std has no `From<usize>` for `u128`.
        let end = self.start as u128 + rows as u128;
        end <= 8 * self.bytes.len() as u128
    }

    /// The bit of row i, or nothing where the map ends before it.
    pub fn get(&self, i: usize) -> Option<bool>
        ensures { MatchOption result (8 * length self.now.bytes.now ≤ self.now.start + i) (λ v. (self.now.start + i < 8 * length self.now.bytes.now) × (v ≡ bit self.now.bytes.now (self.now.start + i))) }
    {
        let (byte, k) = place(self.start, i);
        self.bytes.get(byte).map(|b| (b >> k) & 1 == 1)
    }
}

/// The map ends before the bit.
#[derive(Clone, Copy, PartialEq, Debug)]
pub struct NoBit;

/// Writes the bit of row i; every other bit stays. An error, and nothing written, where the map ends before it.
pub fn write(bytes: &mut [u8], start: usize, i: usize, valid: bool) -> Result<(), NoBit>
    ensures ok { IsOk result ↔ (start + i < 8 * length bytes.old) }
    ensures after { bytes.new ≡ with_bit bytes.old (start + i) valid }
    ensures law { BitLaws }
{
    let (byte, k) = place(start, i);
    // By index, since after a write through `get_mut` a proof knows no element of the slice.
    let b = *bytes.get(byte).ok_or(NoBit)?;
    bytes[byte] = with_bit(b, k, valid);
    Ok(())
}
