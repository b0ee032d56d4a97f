// The headers of the link's four telegrams, and an order's bit. Promises: `specs/Headers.antt`.
ghost use Rattle.std.specs.Prelude.{◌≡◌};
ghost use Rattle.link_telegrams.specs.Headers.{opening_header, order_header, ok_header, reply_header, fcb_of_bit, cycled_bit, link_header};

use codes::{FrameCountBit, FunctionCode, ResponseState, ResponseStatus};
use link_rules::Link;
use telegram::DataTelegramHeader;

// The frame count bit of an order, FCV being set.
#[derive(Clone, Copy, Debug, PartialEq, Eq)]
pub enum Bit {
    Low,
    High,
}

impl Bit {
    // (No `From`: it is read as a question, `bit.frame_count_bit()`.)
    pub fn frame_count_bit(self) -> FrameCountBit
        ensures { result ≡ fcb_of_bit self }
    {
        match self {
            Bit::Low => FrameCountBit::Low,
            Bit::High => FrameCountBit::High,
        }
    }

    pub fn cycle(self) -> Bit
        ensures { result ≡ cycled_bit self }
    {
        match self {
            Bit::Low => Bit::High,
            Bit::High => Bit::Low,
        }
    }
}

fn link_header(link: Link, fc: FunctionCode) -> DataTelegramHeader
    ensures { result ≡ link_header link fc }
{
    DataTelegramHeader {
        da: link.peer,
        sa: link.own,
        dsap: None,
        ssap: None,
        fc,
    }
}

#[tactic(auto, unfolding(crate::specs::Headers::opening_header))]
pub fn opening_header(link: Link) -> DataTelegramHeader
    ensures { result ≡ opening_header link }
{
    link_header(link, FunctionCode::new_srd_low(FrameCountBit::First))
}

#[tactic(auto, unfolding(crate::specs::Headers::order_header))]
pub fn order_header(link: Link, bit: Bit) -> DataTelegramHeader
    ensures { result ≡ order_header link bit }
{
    link_header(link, FunctionCode::new_srd_low(bit.frame_count_bit()))
}

#[tactic(auto, unfolding(crate::specs::Headers::ok_header))]
pub fn ok_header(link: Link) -> DataTelegramHeader
    ensures { result ≡ ok_header link }
{
    link_header(
        link,
        FunctionCode::new_response(ResponseState::Slave, ResponseStatus::Ok),
    )
}

#[tactic(auto, unfolding(crate::specs::Headers::reply_header))]
pub fn reply_header(link: Link) -> DataTelegramHeader
    ensures { result ≡ reply_header link }
{
    link_header(
        link,
        FunctionCode::new_response(ResponseState::Slave, ResponseStatus::DataLow),
    )
}
