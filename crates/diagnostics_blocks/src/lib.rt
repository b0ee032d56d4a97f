// What the blocks of extended diagnostics say: the three bytes of a channel block, and the bits of an identifier block's body. The types are those
// of profirust's dp/diagnostics.rs; where the blocks stand, the walk of crate `diagnostics` says.
#![tactic(auto)]

pub mod channel;
pub mod modules;

pub use channel::{ChannelDataType, ChannelDiagnostics, ChannelError};
