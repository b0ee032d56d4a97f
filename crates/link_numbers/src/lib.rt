// The number that stands for the phase of an initiator, and for the state of a responder, in the bytes of its record.
#![tactic(auto)]

mod bits;
pub mod phases;
pub mod states;

pub use phases::{phase_number, phase_of};
pub use states::{state_number, state_of};
