// The phases of an initiator. Promises: `specs/Numbers.antt`.
ghost use Rattle.std.specs.Prelude.{◌≡◌};
ghost use Rattle.link_numbers.specs.Numbers.{phase_number, phase_of};

use crate::bits::by_bit;
use initiator::Phase;
use link_telegrams::Bit;

// (No `From`: the number is of the bytes of a record alone.)
pub fn phase_number(phase: Phase) -> u8
    ensures { result ≡ phase_number phase }
{
    match phase {
        Phase::Closed => 0,
        Phase::Ready(bit) => by_bit(bit, 1, 2),
        Phase::Opening(_) => 3,
        Phase::Order(bit, _) => by_bit(bit, 4, 5),
    }
}

// Any number is answered, and two numbers make the phase: no `From`.
#[tactic(auto, unfolding(crate::specs::Numbers::phase_of))]
pub fn phase_of(number: u8, used: u8) -> Phase
    ensures { result ≡ phase_of number used }
{
    match number {
        1 => Phase::Ready(Bit::Low),
        2 => Phase::Ready(Bit::High),
        3 => Phase::Opening(used),
        4 => Phase::Order(Bit::Low, used),
        5 => Phase::Order(Bit::High, used),
        _ => Phase::Closed,
    }
}
