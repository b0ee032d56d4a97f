// The order link with a guard beside each record: an end hears only what was received after its own last telegram, and an answer names
// the order that it answers.
#![tactic(auto)]

pub mod guarded_initiator;
pub mod guarded_responder;
mod refusal;
