// Offset and text rules, known to the crates above by their contracts alone.
#![tactic(auto)]

pub mod bitmap;
pub mod bits;
pub mod offset;
pub mod offsets;
pub mod utf8;
