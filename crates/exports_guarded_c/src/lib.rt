// The calls of `exports_guarded` for C: each under its own name, with its own promise, is the call of the library.
#![tactic(auto)]

pub mod guarded_initiator;
pub mod guarded_responder;
