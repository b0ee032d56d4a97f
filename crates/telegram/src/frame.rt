// The frame of a data telegram: where it stands in bytes that hold all of it, before anything inside of it is judged. The reader
// and whoever judges the bytes themselves begin with it. Promise: `framing_of` and `sealed_of` in specs/Frames.antt.
ghost use Rattle.std.specs.Prelude.{◌≡◌, ◌+◌, ◌<◌, ◌≤◌, eqb, length};
ghost use Rattle.codes.specs.Checksums.{checksum_of};
ghost use Rattle.ground.specs.Part.{part, byte_at};
ghost use Rattle.telegram.specs.Frames.{shown_frame, framing_of, framing_at, sealed_of};
ghost use Rattle.telegram.specs.Leaves.{framing_long};

use codes::consts;
use ground::Refusal;

// Where a data telegram stands whose bytes are all there.
#[derive(Clone, Copy, Debug, PartialEq, Eq)]
pub struct Frame {
    // Where da stands
    pub at: usize,
    // How many bytes there are from da through the PDU
    pub len: usize,
    // How many bytes the telegram has in all
    pub total: usize,
    // The function code's byte
    pub code: u8,
}

// What is found at the front of bytes: a frame, too few bytes to tell, or a refusal of 1 to 3.
// (Document 01: `Option<Result<..>>` becomes a three-way answer.)
#[derive(Clone, Copy, Debug, PartialEq, Eq)]
pub enum FrameFound {
    Is(Frame),
    Incomplete,
    Refused(Refusal),
}

// Step 3: the checksum and the end delimiter stand behind the `len` bytes.
#[tactic(auto, unfolding(crate::specs::Frames::framing_at))]
fn frame_at(bytes: &[u8], at: usize, len: usize) -> FrameFound
    requires { (at ≤ 4) × (3 ≤ len) × (len < 256) }
    ensures { shown_frame result ≡ framing_at bytes.now at len }
{
    let total = at + len + 2;
    if bytes.len() < total {
        return FrameFound::Incomplete;
    }
    FrameFound::Is(Frame {
        at,
        len,
        total,
        code: bytes[at + 2],
    })
}

// Steps 1 and 2 of an SD2 telegram. The fourth byte is never looked at.
#[tactic(auto, unfolding(crate::specs::Leaves::framing_long, crate::specs::Frames::framing_lengths))]
fn frame_long(bytes: &[u8]) -> FrameFound
    ensures { shown_frame result ≡ framing_long bytes.now }
{
    if bytes.len() < 6 {
        return FrameFound::Incomplete;
    }
    let l = bytes[1];
    if l != bytes[2] {
        return FrameFound::Refused(Refusal::LengthsDiffer);
    }
    if l < 3 {
        return FrameFound::Refused(Refusal::LengthTooSmall);
    }
    frame_at(bytes, 4, l as usize)
}

// The frame of the data telegram that these bytes begin with. (Of the others step 1 is in step 3: their totals are 6 and 14.)
#[tactic(auto, using(crate::proofs::FrameLaws::nothing_framing, crate::proofs::FrameLaws::sd1_framing, crate::proofs::FrameLaws::sd2_framing, crate::proofs::FrameLaws::sd3_framing, crate::proofs::FrameLaws::unknown_framing))]
pub fn frame_of(bytes: &[u8]) -> FrameFound
    ensures { shown_frame result ≡ framing_of bytes.now }
{
    match *bytes {
        [] => FrameFound::Incomplete,
        [consts::SD1, ..] => frame_at(bytes, 1, 3),
        [consts::SD2, ..] => frame_long(bytes),
        [consts::SD3, ..] => frame_at(bytes, 1, 11),
        _ => FrameFound::Refused(Refusal::UnknownStart),
    }
}

// Whether the byte at `end` is the checksum of those from `at` to it.
pub(crate) fn sum_holds(bytes: &[u8], at: usize, end: usize) -> bool
    requires { (at ≤ end) × (end < length bytes.now) }
    ensures { result ≡ eqb (byte_at bytes.now end) (checksum_of (part bytes.now at end)) }
{
    bytes[end] == codes::checksum(&bytes[at..end])
}

impl Frame {
    // Whether checksum and end delimiter hold in the bytes that the frame was found in. A frame that these bytes cannot have is not sealed.
    #[tactic(auto, unfolding(crate::specs::Frames::sealed_of))]
    pub fn is_sealed(self, bytes: &[u8]) -> bool
        ensures { result ≡ sealed_of self bytes.now }
    {
        let n = bytes.len();
        // no sum of the frame's own, which might not fit
        if n < self.at || n - self.at < 2 || n - self.at - 2 < self.len {
            return false;
        }
        let end = self.at + self.len;
        bytes[end + 1] == consts::ED && sum_holds(bytes, self.at, end)
    }
}
