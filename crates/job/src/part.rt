// The rows part of a column record.
ghost use Rattle.std.specs.Prelude.{◌≡◌, ◌<◌, ◌≤◌, length, MatchOption};

/// The greatest size of a job file, in bytes.
pub const MAX_FILE: usize = 65_536;

/// The bytes that hold the rows of a column record: no more than a job file may have.
#[derive(Clone, Copy)]
pub(crate) struct Part<'a> {
    pub bytes: &'a [u8],
    ghost small: { length bytes.now ≤ 65536 },
}

impl<'a> Part<'a> {
    // The part of these bytes, or nothing where they are too many.
    pub(crate) fn new(bytes: &'a [u8]) -> Option<Part<'a>>
        ensures { MatchOption result (65536 < length bytes.now) (λ p. p.bytes.now ≡ bytes.now) }
    {
        if bytes.len() > MAX_FILE {
            return None;
        }
        Some(Part { bytes })
    }
}
