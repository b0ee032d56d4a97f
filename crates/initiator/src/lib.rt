// The initiator of the order link: it opens the link, sends an order, and reports what became of it.
#![tactic(auto)]

pub mod answer;
pub mod by_value;
pub mod calls;
pub mod head;
pub mod state;

pub use answer::InitiatorAnswer;
pub use head::{InitiatorHead, InitiatorHeadTurn};
pub use state::{Initiator, Phase};
