// What every crate above shares and what needs neither codes nor telegrams: addresses and SAPs, all refusals with their numbers, a part of a
// byte string, bytes put to the front of a lent buffer, and an answer with the record that comes back beside it.
#![tactic(auto)]

pub mod address;
pub mod buffers;
pub mod part;
pub mod refusal;
pub mod returned;

pub use address::{Address, Sap};
pub use buffers::copy_to_front;
pub use part::Part;
pub use refusal::{Refusal, answer_number};
pub use returned::Returned;
