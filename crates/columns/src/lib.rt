// What is read: rows, sources of rows, and columns over lent lists.
#![tactic(auto)]

pub mod fault;
pub mod lists;
pub mod measure;
pub mod offset_column;
pub mod row;
pub mod rows;
mod sound;
pub mod source;
