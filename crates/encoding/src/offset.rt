// The two widths of offsets, under one trait.
ghost use Rattle.std.specs.Prelude.{◌≡◌, ℕ, ◌^◌, ◌<◌, ◌≤◌, map, ℤ, pos, ◌<ℤ◌, MatchOption};
ghost use Rattle.encoding.specs.Offsets.{numbers, ceiling_of, wrapped};
ghost use Rattle.std.proofs.Common.{lit<, lit≤};

use crate::offsets::Offsets;

/// A signed width in which offsets and lengths are given: i32 or i64.
pub trait Offset: Copy {
    ghost number: { Self → ℤ };

    ghost ceiling: { ℕ };

    /// The greatest number of the width: 2,147,483,647 for i32.
    fn max_value() -> u64
        ensures { result ≡ ceiling };

    /// The number n in this width, or nothing where it lies above the ceiling.
    fn from_u64(n: u64) -> Option<Self>
        ensures { MatchOption result (ceiling < n) (λ o. (n ≤ ceiling) × (number o ≡ pos n)) };

    /// The number as an unsigned one, or nothing where it is negative.
    fn to_u64(self) -> Option<u64>
        ensures { MatchOption result (number self <ℤ pos 0) (λ n. (number self ≡ pos n) × (n ≤ ceiling)) };

    /// A lent list of this width.
    fn lend(list: &[Self]) -> Offsets<'_>
        ensures numbers { numbers result ≡ map number list.now }
        ensures ceiling { ceiling_of result ≡ ceiling };

    /// The number n wrapped in this width: 2,147,483,648 as an i32 is -2,147,483,648.
    fn wrapping(n: u128) -> Self
        ensures { number result ≡ wrapped ceiling n };

    ghost small: { ceiling < 2 ^ 63 };

    ghost least: { 2147483647 ≤ ceiling };

    ghost same: { (a b : Self) → number a ≡ number b → a ≡ b };
}

// Each width converts by itself: one text over `TryFrom` was tried and needs a law longer than both lines, and no law bounds `to_u64` by the
// width. `to_u64` is a test, since `try_from` took a third more instructions. The other lines name what is a width's own: its
// greatest number, its list, its count of numbers. `as` cuts to the width, for which std has no `From`.
impl Offset for i32 {
    ghost number = { λ z. z };

    ghost ceiling = { 2147483647 };

    ghost small = { lit< tt };

    ghost least = { lit≤ tt };

    ghost same = { λ a b same. same };

    fn max_value() -> u64 {
        u64::from(i32::MAX.cast_unsigned())
    }

    fn from_u64(n: u64) -> Option<i32> {
        i32::try_from(n).ok()
    }

    fn to_u64(self) -> Option<u64> {
        (self >= 0).then_some(u64::from(self.cast_unsigned()))
    }

    fn lend(list: &[i32]) -> Offsets<'_> {
        Offsets::Narrow(list)
    }

    fn wrapping(n: u128) -> i32 {
        ((n % (1 << 32)) as u32).cast_signed()
    }
}

impl Offset for i64 {
    ghost number = { λ z. z };

    ghost ceiling = { 9223372036854775807 };

    ghost small = { lit< tt };

    ghost least = { lit≤ tt };

    ghost same = { λ a b same. same };

    fn max_value() -> u64 {
        i64::MAX.cast_unsigned()
    }

    fn from_u64(n: u64) -> Option<i64> {
        i64::try_from(n).ok()
    }

    fn to_u64(self) -> Option<u64> {
        (self >= 0).then_some(self.cast_unsigned())
    }

    fn lend(list: &[i64]) -> Offsets<'_> {
        Offsets::Wide(list)
    }

    fn wrapping(n: u128) -> i64 {
        ((n % (1 << 64)) as u64).cast_signed()
    }
}
