// The telegrams of the bus, and reading them: what profirust's telegram.rs has beyond the codes, but for writing.
#![tactic(auto)]

pub mod deserialize;
pub mod frame;
pub mod header;
pub mod kinds;

pub use deserialize::Deserialized;
pub use frame::{Frame, FrameFound, frame_of};
pub use header::DataTelegramHeader;
pub use kinds::{DataTelegram, Telegram, TokenTelegram};
