// What a responder remembers of one initiator: a row with its held bytes, and its questions. The rules go by its head, in `head.rt`.
// Promises: `specs/Rows.antt`.
ghost use Rattle.std.specs.Prelude.{◌≡◌, length};
ghost use Rattle.responder_row.specs.Rows.{blank_row, stored_bit, owes_reply, holds_reply, held_of};

use crate::head::RowHead;
use ground::Part;
use link_rules::LONGEST;
use link_telegrams::Bit;

// What a responder remembers of one initiator.
#[derive(Clone, Copy, Debug, PartialEq, Eq)]
pub enum RowState {
    // No stored bit.
    Blank,
    // Bit 1 stored by an opening, nothing owed, nothing held.
    Opened,
    // The bit of the order handed up, its reply owed.
    Owes(Bit),
    // The bit of the order handed up, its reply held.
    Holds(Bit),
}

#[derive(Clone, Copy)]
pub struct Row {
    pub(crate) state: RowState,
    // The held reply is the first `len` bytes. What drops it sets `len` to 0 and leaves the array. (No `Vec`: the library has no heap, and
    // the row is copied.)
    pub(crate) held: [u8; 246],
    pub(crate) len: usize,
}

// What a heard telegram asks of the responder: to write the opening's reply or the held one, to hand an order up, or nothing.
// (No `Option` and no closures: the row's promise names each action.)
#[derive(Clone, Copy, Debug, PartialEq, Eq)]
pub enum RowAction {
    WriteOk,
    WriteHeld,
    HandUp(Part),
    Nothing,
}

impl RowState {
    pub fn stored_bit(self) -> Option<Bit>
        ensures { result ≡ stored_bit self }
    {
        match self {
            RowState::Blank => None,
            RowState::Opened => Some(Bit::High),
            RowState::Owes(bit) | RowState::Holds(bit) => Some(bit),
        }
    }

    pub fn owes_reply(self) -> bool
        ensures { result ≡ owes_reply self }
    {
        matches!(self, RowState::Owes(_))
    }

    pub fn holds_reply(self) -> bool
        ensures { result ≡ holds_reply self }
    {
        matches!(self, RowState::Holds(_))
    }
}

impl Row {
    pub fn blank() -> Row
        ensures { result ≡ blank_row }
    {
        Row {
            state: RowState::Blank,
            held: [0; 246],
            len: 0,
        }
    }

    // The row of these parts, each as it is: a head and its held bytes, put together again. Every call answers every row; but one of other
    // parts than those of a row that the calls made is none of theirs, and demand 3 holds of no such row.
    pub fn from_parts(state: RowState, held: [u8; 246], len: usize) -> Row
        ensures { result ≡ record { state = state; held = held; len = len } }
    {
        Row { state, held, len }
    }

    pub fn state(self) -> RowState
        ensures { result ≡ self.state }
    {
        self.state
    }

    // All of the row but the held bytes.
    pub fn head(self) -> RowHead
        ensures { result ≡ record { state = self.state; len = self.len } }
    {
        RowHead {
            state: self.state,
            len: self.len,
        }
    }

    // How many bytes the held reply has.
    pub fn held_len(self) -> usize
        ensures { result ≡ length (held_of self) }
    {
        self.head().held_len(LONGEST)
    }

    // The held reply is the first `held_len` bytes of this.
    pub fn held(self) -> [u8; 246]
        ensures { result ≡ self.held }
    {
        self.held
    }
}
