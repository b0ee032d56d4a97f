// A data telegram, written part by part, its function code by a byte. Promise, among private functions: `Fitted` in specs/Leaves.antt, of
// `coded_bytes`.
ghost use Rattle.std.specs.Prelude.{◌≡◌, ◌+◌, ◌≤◌, [], ◌∷◌, length};
ghost use Rattle.codes.specs.Delimiters.{SD2};
ghost use Rattle.telegram.specs.Picture.{sap_bytes, start_bytes};
ghost use Rattle.telegram_bytes.specs.Leaves.{Fitted, Writable};
ghost use Rattle.telegram_bytes.specs.Serialized.{coded_length, coded_bytes};

use crate::coded::CodedHeader;
use crate::put::Place;
use codes::consts::{SD1, SD2, SD3};
use ground::Sap;

fn sap_length(sap: Option<Sap>) -> usize
    ensures { (result ≡ length (sap_bytes sap)) × (result ≤ 1) }
{
    match sap {
        Some(_) => 1,
        None => 0,
    }
}

#[tactic(auto, using(crate::proofs::LengthLaws::coded_length_is))]
pub(crate) fn length_byte(header: CodedHeader, pdu: &[u8]) -> usize
    ensures { result ≡ coded_length header pdu.now }
{
    pdu.len() + sap_length(header.dsap) + sap_length(header.ssap) + 3
}

// A start of one byte, where so many bytes have room.
fn put_delimiter(buf: &mut [u8], room: usize, delimiter: u8) -> Option<usize>
    requires { 1 ≤ room }
    ensures { Fitted buf.old room (delimiter ∷ []) result buf.new }
{
    if buf.len() < room {
        return None;
    }
    buf[0] = delimiter;
    Some(1)
}

// The start of a telegram with any other length byte.
fn put_lengths(buf: &mut [u8], l: u8) -> Option<usize>
    ensures { Fitted buf.old (l + 6) (SD2 ∷ l ∷ l ∷ SD2 ∷ []) result buf.new }
{
    if buf.len() < l as usize + 6 {
        return None;
    }
    buf[0] = SD2;
    buf[1] = l;
    buf[2] = l;
    buf[3] = SD2;
    Some(4)
}

// The start of a telegram with length byte l, and how long it is, where the whole telegram has room. Else nothing is written. The room is
// tested beside the form of the start on which it depends, so that the form is decided once.
#[tactic(auto, using(crate::proofs::LengthLaws::start_else, crate::proofs::LengthLaws::start_3, crate::proofs::LengthLaws::start_11))]
fn put_start(buf: &mut [u8], l: usize) -> Option<usize>
    requires { l ≤ 249 }
    ensures { Fitted buf.old (length (start_bytes l) + l + 2) (start_bytes l) result buf.new }
{
    match l {
        // no content: neither SAPs nor a PDU
        3 => put_delimiter(buf, 6, SD1),
        // exactly 8 bytes of content
        11 => put_delimiter(buf, 14, SD3),
        _ => put_lengths(buf, l as u8),
    }
}

// Writes a data telegram with length byte l at the buffer's front, and gives its length. Where it has no room nothing is written.
#[tactic(auto, using(crate::proofs::LengthLaws::coded_length_split, crate::proofs::LengthLaws::coded_bytes_length))]
pub(crate) fn put_telegram(
    header: CodedHeader,
    pdu: &[u8],
    l: usize,
    buf: &mut [u8],
) -> Option<usize>
    requires { Writable header pdu.now l }
    ensures { Fitted buf.old (length (coded_bytes header pdu.now))
        (coded_bytes header pdu.now) result buf.new }
{
    let at = put_start(buf, l)?;
    let after_pdu = Place { at, sum: 0 }.put_head(buf, header).put_pdu(buf, pdu);
    Some(after_pdu.put_end(buf))
}
