// What has a length in each row.
ghost use Rattle.std.specs.Prelude.{◌≡◌, ℕ, ◌<◌, ◌≤◌, List, length, MatchOption, slice_index};

/// What has a length in each row: the columns of bytes, and the list columns, whose lengths are all that is read of them.
pub trait Measure {
    ghost lengths: { Self → List ℕ };

    /// How many rows it has.
    fn len(&self) -> usize
        ensures { result ≡ length (lengths self.now) };

    /// The length of row i, or nothing from the row count on.
    fn row_len(&self, i: usize) -> Option<u64>
        ensures { MatchOption result (length (lengths self.now) ≤ i)
            (λ n. (i < length (lengths self.now)) × (n ≡ slice_index (lengths self.now) i)) };
}
