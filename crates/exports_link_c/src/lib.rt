// The calls of `exports_link` for C: each under its own name, with its own promise, is the call of the library.
#![tactic(auto)]

pub mod initiator_end;
pub mod responder_end;
