// The calls by kind: columns of all thirteen kinds under one type.
#![tactic(auto)]

pub mod column;
pub mod fault;
pub mod kind;
pub mod length;
