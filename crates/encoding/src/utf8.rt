// Text rules: UTF-8 after the grammar of RFC 3629.
ghost use Rattle.std.specs.Prelude.{◌≡◌, ℕ, ◌<◌, ◌≤◌, drop, Decides, MatchOption, MatchResult};
ghost use Rattle.encoding.specs.Scalars.{Rfc3629};
ghost use Rattle.encoding.specs.Utf8.{Text, size_of, Char, Front, Tail, Second, Chars, Begins, Reaches, Unreadable, Boundary, Boundaries, first_bytes};

/// The first unreadable character of a row begins at this byte.
#[derive(Clone, Copy, PartialEq, Debug)]
pub struct TextFault {
    pub place: usize,
}

/// The size of the character that b begins, or nothing. Example: C3 begins two bytes, C0 none.
pub fn char_size(b: u8) -> Option<usize>
    ensures { result ≡ size_of b }
{
    match b {
        0x00..=0x7f => Some(1),
        0xc2..=0xdf => Some(2),
        0xe0..=0xef => Some(3),
        0xf0..=0xf4 => Some(4),
        _ => None,
    }
}

fn tail(b: u8) -> bool
    ensures { Decides result (Tail b) }
{
    matches!(b, 0x80..=0xbf)
}

// Whether b1 may follow b0 in a character of three or four bytes.
fn second(b0: u8, b1: u8) -> bool
    ensures { Decides result (Second b0 b1) }
{
    match b0 {
        0xe0 => matches!(b1, 0xa0..=0xbf),
        0xed => matches!(b1, 0x80..=0x9f),
        0xf0 => matches!(b1, 0x90..=0xbf),
        0xf4 => matches!(b1, 0x80..=0x8f),
        _ => tail(b1),
    }
}

// Whether the bytes are one character.
fn is_char(c: &[u8]) -> bool
    ensures { Decides result (Char c.now) }
{
    match *c {
        [0x00..=0x7f] => true,
        [0xc2..=0xdf, b] => tail(b),
        [a @ 0xe0..=0xef, b, c] => second(a, b) && tail(c),
        [a @ 0xf0..=0xf4, b, c, d] => second(a, b) && tail(c) && tail(d),
        _ => false,
    }
}

/// The size of the character at the front and what follows it, or nothing where no character can be read.
/// Example: C3 BC 72 gives 2 and 72.
pub fn first_char(s: &[u8]) -> Option<(usize, &[u8])>
    ensures { MatchOption result ((n : ℕ) → Front s.now n → ⊥)
        (λ p. Front s.now p.0 × (p.1.now ≡ drop p.0 s.now)) }
{
    let n = char_size(*s.first()?)?;
    let (c, rest) = s.split_at_checked(n)?;
    is_char(c).then_some((n, rest))
}

/// Whether the bytes are text; else where the first unreadable character begins.
/// Example: 61 ED A0 80 is refused at place 1.
// Not by std's `from_utf8`: the grammar stands here, and the vectors set this reader beside that one.
pub fn check(s: &[u8]) -> Result<(), TextFault>
    ensures answer { MatchResult result (λ _. Text s.now) (λ f. Unreadable s.now f.place × (Text s.now → ⊥)) }
    ensures law { Rfc3629 }
{
    // What is left, and the place where it begins: a character's size is known only once it is read.
    let mut rest = s;
    let mut place = 0;
    while !rest.is_empty() {
        let (n, after) = first_char(rest).ok_or(TextFault { place })?;
        place += n;
        rest = after;
    }
    Ok(())
}

/// How many bytes are no following bytes: in text, the number of its characters.
/// Example: 54 C3 BC 72 has 3.
pub fn count(s: &[u8]) -> usize
    ensures value { result ≡ first_bytes s.now }
    ensures chars { (n : ℕ) → Chars n s.now → result ≡ n }
{
    // A sum, since `filter` and `count` took twice as long: 2.6 ms or more for 4 MB, in place of 1.3.
    s.iter().map(|b| usize::from(!tail(*b))).sum()
}

/// The byte place after the first k characters, or nothing where so many cannot be read.
/// In text that is where character k begins, or the end. Example: k = 2 in 54 C3 BC 72 gives 3.
pub fn place(s: &[u8], k: usize) -> Option<usize>
    ensures reads { MatchOption result ((p : ℕ) → Reaches s.now k p → ⊥) (λ p. Reaches s.now k p) }
    ensures text { (n : ℕ) → Chars n s.now → MatchOption result (n < k) (λ p. (k ≤ n) × Begins s.now k p) }
{
    // As in `check`.
    let mut rest = s;
    let mut p = 0;
    for _ in 0..k {
        let (n, after) = first_char(rest)?;
        p += n;
        rest = after;
    }
    Some(p)
}

/// Whether a place of a row is a boundary: 0, the row's length, or a byte outside 80-BF.
/// In text the boundaries are the places where characters begin, and the end.
pub fn is_boundary(s: &[u8], p: usize) -> bool
    ensures tells { Decides result (Boundary s.now p) }
    ensures law { Boundaries }
{
    s.get(p).map_or(p == s.len(), |b| p == 0 || !tail(*b))
}
