// The function code, to and from its byte, and whether a byte that is not decoded asks for a reply. Promise: `code_byte`,
// `function_code_of`, `reply_found` and `response_code` in specs/FunctionCodes.antt.
ghost use Rattle.std.specs.Prelude.{◌≡◌, ◌/◌, ◌%◌, ◌<◌, ◌==◌, slice_index, None, Some};
ghost use Rattle.codes.specs.FrameCountBits.{frame_count_bit_of};
ghost use Rattle.codes.specs.FunctionCodes.{code_byte, function_code_of, frame_count_part, reply_found, request_of, response_code, response_of};
ghost use Rattle.codes.specs.RequestTypes.{request_type_of};
ghost use Rattle.codes.specs.Responses.{state_of, status_of};
ghost use Rattle.ground.specs.Bits.{bit};
ghost use Rattle.ground.specs.Pick.{if};

use crate::frame_count_bit::FrameCountBit;
use crate::request_type::RequestType;
use crate::response::{ResponseState, ResponseStatus};

#[derive(Clone, Copy, Debug, PartialEq, Eq)]
pub enum FunctionCode {
    // This marks a request telegram
    Request {
        fcb: FrameCountBit,
        req: RequestType,
    },
    // This marks a response telegram
    Response {
        state: ResponseState,
        status: ResponseStatus,
    },
}

// FCB and FCV at their places in the byte.
fn frame_count_part(fcb: FrameCountBit) -> u8
    ensures { result ≡ frame_count_part fcb }
{
    match fcb {
        FrameCountBit::First => 0x20,
        FrameCountBit::High => 0x30,
        FrameCountBit::Low => 0x10,
        FrameCountBit::Inactive => 0,
    }
}

// Of a request by the number of its type: the frame count bit has no part in it.
#[tactic(auto, unfolding(crate::specs::RequestTypes::request_type_of))]
fn request_reply(b: u8) -> Option<bool>
    ensures { result ≡ reply_found (request_of FrameCountBit.Inactive (request_type_of b)) }
{
    match b {
        0x80 | 0 | 4 | 6 => Some(false),
        3 | 5 | 7 | 9 | 12..=15 => Some(true),
        _ => None,
    }
}

// Of a response by the number of its status: two bits always name a state.
#[tactic(auto, unfolding(crate::specs::Responses::status_of))]
fn response_reply(b: u8) -> Option<bool>
    ensures { result ≡ reply_found (response_of (Some ResponseState.Slave) (status_of b)) }
{
    match b {
        0..=3 | 8..=10 | 12 | 13 => Some(false),
        _ => None,
    }
}

// What each byte is as a function code, for the eye: byte XY stands in row X, column Y. The digits of an entry are 0xKABB.
// K   0 not read, 1 request, 2 response
// A   of a request FCB and FCV: 0 neither (Inactive), 1 FCV (Low), 2 FCB (First), 3 both (High); of a response its state
// BB  the number of the request type, or of the status
// `./run codes` says it in words. That every entry is the one that document 01's rule asks for is computed in the proof of `from_byte`.
// (Document 01 asks for a const table of 256 numbers here, and its own number in each.)
#[rattlefmt::skip]
const CODES: [[u16; 16]; 16] = [
    //   _0      _1      _2      _3      _4      _5      _6      _7      _8      _9      _A      _B      _C      _D      _E      _F
    [0x2000, 0x2001, 0x2002, 0x2003, 0x0000, 0x0000, 0x0000, 0x0000, 0x2008, 0x2009, 0x200A, 0x0000, 0x200C, 0x200D, 0x0000, 0x0000], // 0_
    [0x2100, 0x2101, 0x2102, 0x2103, 0x0000, 0x0000, 0x0000, 0x0000, 0x2108, 0x2109, 0x210A, 0x0000, 0x210C, 0x210D, 0x0000, 0x0000], // 1_
    [0x2200, 0x2201, 0x2202, 0x2203, 0x0000, 0x0000, 0x0000, 0x0000, 0x2208, 0x2209, 0x220A, 0x0000, 0x220C, 0x220D, 0x0000, 0x0000], // 2_
    [0x2300, 0x2301, 0x2302, 0x2303, 0x0000, 0x0000, 0x0000, 0x0000, 0x2308, 0x2309, 0x230A, 0x0000, 0x230C, 0x230D, 0x0000, 0x0000], // 3_
    [0x1000, 0x0000, 0x0000, 0x1003, 0x1004, 0x1005, 0x1006, 0x1007, 0x0000, 0x1009, 0x0000, 0x0000, 0x100C, 0x100D, 0x100E, 0x100F], // 4_
    [0x1100, 0x0000, 0x0000, 0x1103, 0x1104, 0x1105, 0x1106, 0x1107, 0x0000, 0x1109, 0x0000, 0x0000, 0x110C, 0x110D, 0x110E, 0x110F], // 5_
    [0x1200, 0x0000, 0x0000, 0x1203, 0x1204, 0x1205, 0x1206, 0x1207, 0x0000, 0x1209, 0x0000, 0x0000, 0x120C, 0x120D, 0x120E, 0x120F], // 6_
    [0x1300, 0x0000, 0x0000, 0x1303, 0x1304, 0x1305, 0x1306, 0x1307, 0x0000, 0x1309, 0x0000, 0x0000, 0x130C, 0x130D, 0x130E, 0x130F], // 7_
    [0x2000, 0x2001, 0x2002, 0x2003, 0x0000, 0x0000, 0x0000, 0x0000, 0x2008, 0x2009, 0x200A, 0x0000, 0x200C, 0x200D, 0x0000, 0x0000], // 8_
    [0x2100, 0x2101, 0x2102, 0x2103, 0x0000, 0x0000, 0x0000, 0x0000, 0x2108, 0x2109, 0x210A, 0x0000, 0x210C, 0x210D, 0x0000, 0x0000], // 9_
    [0x2200, 0x2201, 0x2202, 0x2203, 0x0000, 0x0000, 0x0000, 0x0000, 0x2208, 0x2209, 0x220A, 0x0000, 0x220C, 0x220D, 0x0000, 0x0000], // A_
    [0x2300, 0x2301, 0x2302, 0x2303, 0x0000, 0x0000, 0x0000, 0x0000, 0x2308, 0x2309, 0x230A, 0x0000, 0x230C, 0x230D, 0x0000, 0x0000], // B_
    [0x1080, 0x0000, 0x0000, 0x0000, 0x0000, 0x0000, 0x0000, 0x0000, 0x0000, 0x0000, 0x0000, 0x0000, 0x0000, 0x0000, 0x0000, 0x0000], // C_
    [0x1180, 0x0000, 0x0000, 0x0000, 0x0000, 0x0000, 0x0000, 0x0000, 0x0000, 0x0000, 0x0000, 0x0000, 0x0000, 0x0000, 0x0000, 0x0000], // D_
    [0x1280, 0x0000, 0x0000, 0x0000, 0x0000, 0x0000, 0x0000, 0x0000, 0x0000, 0x0000, 0x0000, 0x0000, 0x0000, 0x0000, 0x0000, 0x0000], // E_
    [0x1380, 0x0000, 0x0000, 0x0000, 0x0000, 0x0000, 0x0000, 0x0000, 0x0000, 0x0000, 0x0000, 0x0000, 0x0000, 0x0000, 0x0000, 0x0000], // F_
];

fn at_column(row: [u16; 16], y: usize) -> u16
    requires { y < 16 }
    ensures { result ≡ slice_index row y }
{
    row[y]
}

// What the digits of an entry say.
fn entry_code(entry: u16) -> Option<FunctionCode>
    ensures { result ≡
        if (entry / 4096 == 0) None
        (if (entry / 4096 == 1) (request_of (frame_count_bit_of (bit 8 entry) (bit 9 entry)) (request_type_of (entry % 256)))
        (response_of (state_of (entry / 256 % 4)) (status_of (entry % 256)))) }
{
    let number = (entry % 256) as u8;
    if entry / 4096 == 0 {
        return None;
    }
    if entry / 4096 == 1 {
        let req = RequestType::from_u8(number)?;
        let fcb = FrameCountBit::from_fcv_fcb(entry / 256 % 2 == 1, entry / 512 % 2 == 1);
        return Some(FunctionCode::Request { fcb, req });
    }
    let state = ResponseState::from_u8((entry / 256 % 4) as u8)?;
    let status = ResponseStatus::from_u8(number)?;
    Some(FunctionCode::Response { state, status })
}

impl FunctionCode {
    // This and `from_byte` are profirust's calls: no `From` and `TryFrom` in their place.
    pub fn to_byte(self) -> u8
        ensures { result ≡ code_byte self }
    {
        match self {
            FunctionCode::Request { fcb, req } => 0x40 + frame_count_part(fcb) + req.number(),
            FunctionCode::Response { state, status } => state.number() * 16 + status.number(),
        }
    }

    pub fn from_byte(b: u8) -> Option<FunctionCode>
        ensures { result ≡ function_code_of b }
    {
        let y = (b % 16) as usize;
        let table = CODES;
        // Each row by a constant: so the compiler stores the one row that is asked for, and not in every call the whole table.
        let entry = match b / 16 {
            0 => at_column(table[0], y),
            1 => at_column(table[1], y),
            2 => at_column(table[2], y),
            3 => at_column(table[3], y),
            4 => at_column(table[4], y),
            5 => at_column(table[5], y),
            6 => at_column(table[6], y),
            7 => at_column(table[7], y),
            8 => at_column(table[8], y),
            9 => at_column(table[9], y),
            10 => at_column(table[10], y),
            11 => at_column(table[11], y),
            12 => at_column(table[12], y),
            13 => at_column(table[13], y),
            14 => at_column(table[14], y),
            _ => at_column(table[15], y),
        };
        entry_code(entry)
    }

    // What a writer has to know of a byte that it passes on: no code is made of it.
    pub fn reply_to_byte(b: u8) -> Option<bool>
        ensures { result ≡ reply_found (function_code_of b) }
    {
        if b / 64 % 2 == 0 {
            return response_reply(b % 16);
        }
        request_reply(b / 128 * 128 + b % 16)
    }

    // Two calls that differ in the type alone: profirust has both.
    pub fn new_srd_low(fcb: FrameCountBit) -> FunctionCode
        ensures { result ≡ FunctionCode.Request fcb RequestType.SrdLow }
    {
        FunctionCode::Request {
            fcb,
            req: RequestType::SrdLow,
        }
    }

    pub fn new_srd_high(fcb: FrameCountBit) -> FunctionCode
        ensures { result ≡ FunctionCode.Request fcb RequestType.SrdHigh }
    {
        FunctionCode::Request {
            fcb,
            req: RequestType::SrdHigh,
        }
    }
    // The code of a response. Whoever makes one calls this.
    pub fn new_response(state: ResponseState, status: ResponseStatus) -> FunctionCode
        ensures { result ≡ response_code state status }
    {
        FunctionCode::Response { state, status }
    }
}
