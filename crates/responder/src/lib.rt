// The responder of the order link: it answers an opening, hands each new order up once, and repeats the held reply.
#![tactic(auto)]

pub mod answer;
pub mod calls;
pub mod head;
mod moves;
pub mod state;

pub use answer::ResponderAnswer;
pub use head::ResponderHead;
pub use state::Responder;
