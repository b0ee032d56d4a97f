// The order link's telegrams: which headers they have, and what heard bytes are to an end of the link. What the link does with
// them is in the crates above, in the words of `specs/Turns.antt`; no rule of the link there names SRD low, Slave, Ok or DataLow.
#![tactic(auto)]

pub mod headers;
pub mod heard;

pub use headers::{Bit, ok_header, opening_header, order_header, reply_header};
pub use heard::{ReplyHeard, RequestHeard, reply_heard, request_heard, request_to};
