// A byte or a row of bytes laid down at a place, and whether one stands there. Promises: `Placed` in specs/Placed.antt, `begins` in
// specs/Begins.antt.
//
// Every call is total: what falls beyond the buffer's end is dropped, and the place then stops at one past the end. So a caller may check the room
// first, or compare the last place with the buffer's length afterwards.
ghost use Rattle.std.specs.Prelude.{◌≡◌, [], ◌∷◌, ◌+◌, ◌<◌, ◌^◌, min, drop};
ghost use Rattle.text.specs.Placed.{Placed};
ghost use Rattle.text.specs.Begins.{begins};

pub fn put_byte(buf: &mut [u8], at: usize, b: u8) -> usize
    ensures { Placed buf.old at (b ∷ []) result buf.new }
{
    if at < buf.len() {
        buf[at] = b;
        at + 1
    } else {
        buf.len() + 1
    }
}

pub fn put_bytes(buf: &mut [u8], at: usize, bytes: &[u8]) -> usize
    ensures { Placed buf.old at bytes.now result buf.new }
{
    let mut next = at.min(buf.len() + 1);
    for &b in bytes {
        next = put_byte(buf, next, b);
    }
    next
}

// Whether this byte stands at a place of the text.
#[tactic(auto, using(crate::proofs::BeginsLaws::byte_there, crate::proofs::BeginsLaws::byte_beyond))]
pub fn byte_is_at(text: &[u8], at: usize, b: u8) -> bool
    ensures { result ≡ begins (b ∷ []) (drop at text.now) }
{
    at < text.len() && text[at] == b
}

// Whether these bytes stand at a place of the text.
#[tactic(auto, using(crate::proofs::BeginsLaws::starts_at))]
pub fn begins_at(text: &[u8], at: usize, bytes: &[u8]) -> bool
    ensures { result ≡ begins bytes.now (drop at text.now) }
{
    text[at.min(text.len())..].starts_with(bytes)
}
