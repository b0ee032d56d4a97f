// The calls of `exports_telegrams` for C: each under its own name, with its own promise, is the call of the library.
#![tactic(auto)]

pub mod reading;
pub mod writing;
