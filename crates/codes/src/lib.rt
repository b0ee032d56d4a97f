// The codes of a PROFIBUS telegram: what profirust's consts.rs and telegram.rs up to `FunctionCode` have.
#![tactic(auto)]

pub mod consts;
pub mod frame_check;
pub mod frame_count_bit;
pub mod function_code;
pub mod request_type;
pub mod response;

pub use frame_check::checksum;
pub use frame_count_bit::FrameCountBit;
pub use function_code::FunctionCode;
pub use request_type::RequestType;
pub use response::{ResponseState, ResponseStatus};
