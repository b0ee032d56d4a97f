// The frame count bit. Promise: `cycle_of`, `fcb_of`, `fcv_of` and `frame_count_bit_of` in specs/FrameCountBits.antt.
ghost use Rattle.std.specs.Prelude.{◌≡◌};
ghost use Rattle.codes.specs.FrameCountBits.{shown_cycled, cycle_of, fcb_of, fcv_of, frame_count_bit_of};

use ground::Refusal;

// Frame Count Bit: it detects lost messages and prevents duplication on either side.
#[derive(Clone, Copy, Debug, PartialEq, Eq)]
pub enum FrameCountBit {
    First,
    High,
    Low,
    Inactive,
}

impl FrameCountBit {
    pub fn reset(self) -> FrameCountBit
        ensures { result ≡ FrameCountBit.First }
    {
        FrameCountBit::First
    }

    pub fn cycle(self) -> Result<FrameCountBit, Refusal>
        ensures { shown_cycled result ≡ cycle_of self }
    {
        match self {
            FrameCountBit::First | FrameCountBit::High => Ok(FrameCountBit::Low),
            FrameCountBit::Low => Ok(FrameCountBit::High),
            FrameCountBit::Inactive => Err(Refusal::CycleInactive),
        }
    }

    pub fn fcb(self) -> bool
        ensures { result ≡ fcb_of self }
    {
        matches!(self, FrameCountBit::First | FrameCountBit::High)
    }

    pub fn fcv(self) -> bool
        ensures { result ≡ fcv_of self }
    {
        matches!(self, FrameCountBit::High | FrameCountBit::Low)
    }

    // profirust's call: no `From` in its place.
    pub fn from_fcv_fcb(fcv: bool, fcb: bool) -> FrameCountBit
        ensures { result ≡ frame_count_bit_of fcv fcb }
    {
        match (fcv, fcb) {
            (false, false) => FrameCountBit::Inactive,
            (false, true) => FrameCountBit::First,
            (true, true) => FrameCountBit::High,
            (true, false) => FrameCountBit::Low,
        }
    }
}
