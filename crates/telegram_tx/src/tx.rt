// The calls that write a telegram into a lent buffer: the Rust's `TelegramTx`. Promise: `write_of` and `buffer_of` in specs/Writing.antt,
// and their twins for a code that comes as a byte, a token and a short confirmation.
ghost use Rattle.std.specs.Prelude.{◌≡◌, [], length, None};
ghost use Rattle.codes.specs.FunctionCodes.{function_code_of};
ghost use Rattle.telegram_tx.specs.Leaves.{Sends};
ghost use Rattle.telegram_tx.specs.Writing.{shown_writing, reply_of, send_of, write_of, left_of, buffer_of, write_found, buffer_found, write_token_of, token_buffer_of, write_confirmation_of, confirmation_buffer_of, plain_header, status_request, status_response};

use crate::coded::{coded_of, kept};
use codes::consts::{SC, SD4};
use codes::{FrameCountBit, FunctionCode, RequestType, ResponseState, ResponseStatus};
use ground::{Address, Refusal, copy_to_front};
use telegram::DataTelegramHeader;
use telegram_bytes::{CodedHeader, serialize};

// What was written: how many bytes, and who is to answer.
#[derive(Clone, Copy, Debug, PartialEq, Eq)]
pub struct TelegramTxResponse {
    bytes_sent: usize,
    // the station that a reply is expected from
    expects_reply: Option<Address>,
}

impl TelegramTxResponse {
    pub fn new(bytes_sent: usize, expects_reply: Option<Address>) -> TelegramTxResponse
        ensures { result ≡ record { bytes_sent = bytes_sent; expects_reply = expects_reply } }
    {
        TelegramTxResponse {
            bytes_sent,
            expects_reply,
        }
    }

    pub fn bytes_sent(self) -> usize
        ensures { result ≡ self.bytes_sent }
    {
        self.bytes_sent
    }

    pub fn expects_reply(self) -> Option<Address>
        ensures { result ≡ self.expects_reply }
    {
        self.expects_reply
    }
}

fn reply_of(da: Address, fc: FunctionCode) -> Option<Address>
    ensures { result ≡ reply_of da fc }
{
    match fc {
        FunctionCode::Request { req, .. } => req.expects_reply().then_some(da),
        FunctionCode::Response { .. } => None,
    }
}

// A data telegram by the byte of its function code, once it is known that the byte is one and who is to answer.
fn send_coded(
    header: CodedHeader,
    expects_reply: Option<Address>,
    pdu: &[u8],
    buf: &mut [u8],
) -> Result<TelegramTxResponse, Refusal>
    ensures { Sends header expects_reply pdu.now buf.old result buf.new }
{
    let bytes_sent = serialize(header, pdu, buf)?;
    Ok(TelegramTxResponse::new(bytes_sent, expects_reply))
}

// The PDU goes straight into the buffer behind the header: the Rust's closure becomes its bytes.
pub fn send_data_telegram(
    header: DataTelegramHeader,
    pdu: &[u8],
    buf: &mut [u8],
) -> Result<TelegramTxResponse, Refusal>
    ensures { (shown_writing result ≡ write_of header pdu.now (length buf.old))
        × (buf.new ≡ buffer_of header pdu.now buf.old) }
{
    let expects_reply = reply_of(header.da, header.fc);
    send_coded(coded_of(header), expects_reply, pdu, buf)
}

// A data telegram whose function code comes as a byte: the byte is tested and passed on, never decoded.
pub fn send_coded_telegram(
    header: CodedHeader,
    pdu: &[u8],
    buf: &mut [u8],
) -> Result<TelegramTxResponse, Refusal>
    ensures { (shown_writing result ≡ write_found (function_code_of header.code) header pdu.now (length buf.old))
        × (buf.new ≡ buffer_found (function_code_of header.code) header pdu.now buf.old) }
{
    let Some(expected) = FunctionCode::reply_to_byte(header.code) else {
        return Err(Refusal::FunctionCode);
    };
    send_coded(kept(header), expected.then_some(header.da), pdu, buf)
}

// Whole bytes, to which no reply is expected.
#[tactic(auto, using(ground::proofs::FrontLaws::copied_fits), unfolding(crate::specs::Writing::send_of))]
fn send_bytes(bytes: &[u8], buf: &mut [u8]) -> Result<TelegramTxResponse, Refusal>
    ensures { (shown_writing result ≡ send_of bytes.now None (length buf.old))
        × (buf.new ≡ left_of (send_of bytes.now None (length buf.old)) bytes.now buf.old) }
{
    if buf.len() < bytes.len() {
        return Err(Refusal::NoRoom);
    }
    copy_to_front(bytes, buf);
    Ok(TelegramTxResponse::new(bytes.len(), None))
}

// Whole bytes: a token's addresses are not tested.
pub fn send_token_telegram(
    da: Address,
    sa: Address,
    buf: &mut [u8],
) -> Result<TelegramTxResponse, Refusal>
    ensures { (shown_writing result ≡ write_token_of da sa (length buf.old))
        × (buf.new ≡ token_buffer_of da sa buf.old) }
{
    send_bytes(&[SD4, da.0, sa.0], buf)
}

pub fn send_short_confirmation(buf: &mut [u8]) -> Result<TelegramTxResponse, Refusal>
    ensures { (shown_writing result ≡ write_confirmation_of (length buf.old))
        × (buf.new ≡ confirmation_buffer_of buf.old) }
{
    send_bytes(&[SC], buf)
}

// A data telegram without SAPs and PDU.
fn send_plain(
    da: Address,
    sa: Address,
    fc: FunctionCode,
    buf: &mut [u8],
) -> Result<TelegramTxResponse, Refusal>
    ensures { (shown_writing result ≡ write_of (plain_header da sa fc) [] (length buf.old))
        × (buf.new ≡ buffer_of (plain_header da sa fc) [] buf.old) }
{
    let header = DataTelegramHeader {
        da,
        sa,
        dsap: None,
        ssap: None,
        fc,
    };
    send_data_telegram(header, b"", buf)
}

pub fn send_fdl_status_request(
    da: Address,
    sa: Address,
    buf: &mut [u8],
) -> Result<TelegramTxResponse, Refusal>
    ensures { (shown_writing result ≡ write_of (status_request da sa) [] (length buf.old))
        × (buf.new ≡ buffer_of (status_request da sa) [] buf.old) }
{
    let request = FunctionCode::Request {
        fcb: FrameCountBit::Inactive,
        req: RequestType::FdlStatus,
    };
    send_plain(da, sa, request, buf)
}

pub fn send_fdl_status_response(
    da: Address,
    sa: Address,
    state: ResponseState,
    status: ResponseStatus,
    buf: &mut [u8],
) -> Result<TelegramTxResponse, Refusal>
    ensures { (shown_writing result ≡ write_of (status_response da sa state status) [] (length buf.old))
        × (buf.new ≡ buffer_of (status_response da sa state status) [] buf.old) }
{
    let response = FunctionCode::new_response(state, status);
    send_plain(da, sa, response, buf)
}
