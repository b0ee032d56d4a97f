// A data telegram, once its addresses, its length and the room for it are known to be fit. Promise: `serialize_of` and `serialized_to` in
// specs/Serialized.antt.
ghost use Rattle.std.specs.Prelude.{◌≡◌, length};
ghost use Rattle.telegram_bytes.specs.Serialized.{shown_serialized, serialize_of, serialized_to};

use crate::coded::CodedHeader;
use crate::parts::{length_byte, put_telegram};
use ground::Refusal;

// The PDU goes straight into the buffer behind the header.
#[tactic(auto, using(crate::proofs::LengthLaws::coded_bytes_length), unfolding(crate::specs::Serialized::serialize_of))]
pub fn serialize(header: CodedHeader, pdu: &[u8], buf: &mut [u8]) -> Result<usize, Refusal>
    ensures { (shown_serialized result ≡ serialize_of header pdu.now (length buf.old))
        × (buf.new ≡ serialized_to header pdu.now buf.old) }
{
    if 127 < header.da.0 || 127 < header.sa.0 {
        return Err(Refusal::AddressTooLarge);
    }
    let l = length_byte(header, pdu);
    if 249 < l {
        return Err(Refusal::TooLong);
    }
    put_telegram(header, pdu, l, buf).ok_or(Refusal::NoRoom)
}
