// The two ends of the order link for programs in other languages: each end's record is lent as bytes.
#![tactic(auto)]

mod bytes;
pub mod initiator_end;
pub mod responder_end;
