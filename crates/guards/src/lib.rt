// Stamps and numbers: what stands in the guard beside an end's record after a call, and the number that is told.
#![tactic(auto)]

pub mod guard;

pub use guard::{number_after, number_told, stamp_after};
