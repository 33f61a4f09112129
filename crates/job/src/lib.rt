// Jobs: a file of records run and written out.
#![tactic(auto)]

pub mod column;
pub mod entry;
pub mod fault;
pub mod gather;
pub mod lengths;
pub mod operate;
pub mod part;
pub mod print;
pub mod run;
