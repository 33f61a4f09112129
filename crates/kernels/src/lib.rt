// The kernels, generic over what is read and what is written.
#![tactic(auto)]

pub mod length;
