// The file of a job: its records, the rows of a column, and the format of a column.
#![tactic(auto)]

pub mod format;
pub mod record;
pub mod rows;
