// Reading, after telegram.rs, made from the frame (frame.rt). Promise: `read_of` in specs/Reading.antt.
ghost use Rattle.std.specs.Prelude.{◌≡◌, ◌+◌, ◌<◌, ◌≤◌, length};
ghost use Rattle.ground.specs.Bits.{digit};
ghost use Rattle.telegram.specs.Frames.{frame_is, framing_of};
ghost use Rattle.telegram.specs.Leaves.{reading_of, token_of, content_of};
ghost use Rattle.telegram.specs.Reading.{shown_reading, read_of, header_at, saps_at, sap_at, top};

use crate::frame::{Frame, FrameFound, frame_of, sum_holds};
use crate::header::DataTelegramHeader;
use crate::kinds::{DataTelegram, Telegram, TokenTelegram};
use codes::{FunctionCode, consts};
use ground::{Address, Part, Refusal, Sap};

// What reading finds: a telegram with its total length, too few bytes to tell, or a refusal of 1 to 7.
// (Document 01: `Option<Result<..>>` becomes a three-way answer; the Rust's is `Option<Result<(Telegram, usize), ()>>`.)
#[derive(Clone, Copy, Debug, PartialEq, Eq)]
pub enum Deserialized {
    Telegram(Telegram, usize),
    Incomplete,
    Refused(Refusal),
}

// How many SAP bytes an address byte announces: 1 where its top bit is set.
fn announced(address: u8) -> usize
    ensures { (result ≡ digit (top address)) × (result ≤ 1) }
{
    (address / 128) as usize
}

// How many SAP bytes the two addresses at a place announce.
#[tactic(auto, unfolding(crate::specs::Reading::saps_at))]
fn saps_at(buffer: &[u8], at: usize) -> usize
    requires { at + 1 < length buffer.now }
    ensures { (result ≡ saps_at buffer.now at) × (result ≤ 2) }
{
    announced(buffer[at]) + announced(buffer[at + 1])
}

fn sap_at(buffer: &[u8], address: u8, at: usize) -> Option<Sap>
    requires { at < length buffer.now }
    ensures { result ≡ sap_at (top address) buffer.now at }
{
    if address < 128 {
        None
    } else {
        Some(Sap(buffer[at]))
    }
}

// The header whose da stands at `at`. A byte follows the function code, be it only the checksum, and one more after it.
#[tactic(auto, unfolding(crate::specs::Reading::header_at))]
fn header_at(buffer: &[u8], at: usize, fc: FunctionCode) -> DataTelegramHeader
    requires { at + 4 < length buffer.now }
    ensures { result ≡ header_at buffer.now at fc }
{
    let da = buffer[at];
    let sa = buffer[at + 1];
    DataTelegramHeader {
        da: Address(da % 128),
        sa: Address(sa % 128),
        dsap: sap_at(buffer, da, at + 3),
        ssap: sap_at(buffer, sa, at + 3 + announced(da)),
        fc,
    }
}

// Steps 5 to 7, for `l` bytes from da through the PDU.
#[tactic(auto, unfolding(crate::specs::Leaves::content_of))]
fn read_content(buffer: &[u8], at: usize, l: usize, fc: FunctionCode) -> Deserialized
    requires { (3 ≤ l) × (at + l + 2 ≤ length buffer.now) }
    ensures { shown_reading result ≡ content_of buffer.now at l fc }
{
    let saps = saps_at(buffer, at);
    if l < 3 + saps {
        return Deserialized::Refused(Refusal::SapMissing);
    }
    let start = at + 3 + saps;
    let end = at + l;
    if !sum_holds(buffer, at, end) {
        return Deserialized::Refused(Refusal::Checksum);
    }
    if buffer[end + 1] != consts::ED {
        return Deserialized::Refused(Refusal::EndDelimiter);
    }
    let h = header_at(buffer, at, fc);
    let pdu = Part {
        start,
        len: l - (3 + saps),
    };
    Deserialized::Telegram(Telegram::Data(DataTelegram { h, pdu }), end + 2)
}

// Step 4, of a frame that was found in these bytes.
fn read_framed(buffer: &[u8], frame: Frame) -> Deserialized
    requires { (3 ≤ frame.len) × (frame.at + frame.len + 2 ≤ length buffer.now) }
    ensures { shown_reading result ≡ reading_of buffer.now (frame_is frame) }
{
    let Some(fc) = FunctionCode::from_byte(frame.code) else {
        return Deserialized::Refused(Refusal::FunctionCode);
    };
    read_content(buffer, frame.at, frame.len, fc)
}

// Steps 1 to 3 are the frame's, and so is a start that is none of a data telegram.
#[tactic(auto, using(crate::proofs::FrameLaws::found_long, crate::proofs::FrameLaws::found_within))]
fn read_data(buffer: &[u8]) -> Deserialized
    ensures { shown_reading result ≡ reading_of buffer.now (framing_of buffer.now) }
{
    match frame_of(buffer) {
        FrameFound::Is(frame) => read_framed(buffer, frame),
        FrameFound::Incomplete => Deserialized::Incomplete,
        FrameFound::Refused(refusal) => Deserialized::Refused(refusal),
    }
}

#[tactic(auto, unfolding(crate::specs::Leaves::token_of))]
fn read_token(buffer: &[u8]) -> Deserialized
    ensures { shown_reading result ≡ token_of buffer.now }
{
    let [_, da, sa, ..] = *buffer else {
        return Deserialized::Incomplete;
    };
    let token = TokenTelegram::new(Address(da), Address(sa));
    Deserialized::Telegram(Telegram::Token(token), 3)
}

impl Telegram {
    // The telegram that these bytes begin with.
    #[tactic(auto, using(crate::proofs::Answers::nothing_read, crate::proofs::Answers::confirmation_read, crate::proofs::Answers::token_start, crate::proofs::FrameLaws::framed_read))]
    pub fn deserialize(buffer: &[u8]) -> Deserialized
        ensures { shown_reading result ≡ read_of buffer.now }
    {
        match *buffer {
            [] => Deserialized::Incomplete,
            [consts::SC, ..] => Deserialized::Telegram(Telegram::ShortConfirmation, 1),
            [consts::SD4, ..] => read_token(buffer),
            _ => read_data(buffer),
        }
    }
}
