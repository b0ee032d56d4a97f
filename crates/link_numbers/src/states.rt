// The states of a responder. Promises: `specs/Numbers.antt`.
ghost use Rattle.std.specs.Prelude.{◌≡◌};
ghost use Rattle.link_numbers.specs.Numbers.{state_number, state_of};

use crate::bits::by_bit;
use link_telegrams::Bit;
use responder_row::RowState;

// (No `From`: the number is of the bytes of a record alone.)
pub fn state_number(state: RowState) -> u8
    ensures { result ≡ state_number state }
{
    match state {
        RowState::Blank => 0,
        RowState::Opened => 1,
        RowState::Owes(bit) => by_bit(bit, 2, 3),
        RowState::Holds(bit) => by_bit(bit, 4, 5),
    }
}

// Any number is answered, the record being lent bytes (the C interface): no `TryFrom`.
#[tactic(auto, unfolding(crate::specs::Numbers::state_of))]
pub fn state_of(number: u8) -> RowState
    ensures { result ≡ state_of number }
{
    match number {
        1 => RowState::Opened,
        2 => RowState::Owes(Bit::Low),
        3 => RowState::Owes(Bit::High),
        4 => RowState::Holds(Bit::Low),
        5 => RowState::Holds(Bit::High),
        _ => RowState::Blank,
    }
}
