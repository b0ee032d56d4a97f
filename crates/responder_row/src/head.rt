// A row without its held bytes, which stay where the caller lends them: all rules go by this much of it. Promises: `specs/Rows.antt`.
ghost use Rattle.std.specs.Prelude.{◌≡◌, List, ℕ, length, Err};
ghost use Rattle.responder_row.specs.Rows.{stored_bit, held_of, again_on, other_on, order_on, row_hears, row_answers, row_after, row_of, shown_heard, row_answered, shown_answered};

use crate::row::{RowAction, RowState};
use ground::{Part, Refusal, Returned};
use link_rules::{LONGEST, wrong_length};
use link_telegrams::{Bit, RequestHeard};

#[derive(Clone, Copy, Debug, PartialEq, Eq)]
pub struct RowHead {
    pub state: RowState,
    // The held reply is the first `len` of the lent bytes. What drops it sets `len` to 0 and leaves the bytes.
    pub len: usize,
}

impl RowHead {
    // How many bytes the held reply has where so many are lent for it.
    #[tactic(auto, using(crate::proofs::RowLaws::held_counted))]
    pub fn held_len(self, lent: usize) -> usize
        ensures { (held : List ℕ) → length held ≡ lent → result ≡ length (held_of (row_of self held)) }
    {
        self.len.min(lent)
    }

    fn ignore(self) -> Returned<RowAction, RowHead>
        ensures { result ≡ record { answer = RowAction.Nothing; after = self } }
    {
        Returned {
            answer: RowAction::Nothing,
            after: self,
        }
    }

    // An order under the stored bit.
    fn hear_again(self) -> Returned<RowAction, RowHead>
        ensures { (held : List ℕ) → shown_heard result held ≡ again_on self.state (row_of self held) }
    {
        match self.state {
            RowState::Blank | RowState::Opened | RowState::Owes(_) => self.ignore(),
            RowState::Holds(_) => Returned {
                answer: RowAction::WriteHeld,
                after: self,
            },
        }
    }

    // An order under the other bit.
    fn hear_other(self, bit: Bit, order: Part) -> Returned<RowAction, RowHead>
        ensures { (held : List ℕ) → shown_heard result held ≡ other_on bit order (row_of self held) }
    {
        if wrong_length(order.len) {
            return self.ignore();
        }
        let state = RowState::Owes(bit);
        Returned {
            answer: RowAction::HandUp(order),
            after: RowHead { state, len: 0 },
        }
    }

    fn hear_order(self, bit: Bit, order: Part) -> Returned<RowAction, RowHead>
        ensures { (held : List ℕ) → shown_heard result held ≡ order_on (stored_bit self.state) bit order (row_of self held) }
    {
        let Some(stored) = self.state.stored_bit() else {
            return self.ignore();
        };
        if stored == bit {
            self.hear_again()
        } else {
            self.hear_other(bit, order)
        }
    }

    // What a heard request does to the row. Whatever is heard, the held bytes stay.
    #[tactic(auto, unfolding(crate::specs::Rows::row_hears))]
    pub fn hear(self, heard: RequestHeard) -> Returned<RowAction, RowHead>
        ensures { (held : List ℕ) → shown_heard result held ≡ row_hears heard (row_of self held) }
    {
        match heard {
            RequestHeard::Opening => Returned {
                answer: RowAction::WriteOk,
                after: RowHead {
                    state: RowState::Opened,
                    len: 0,
                },
            },
            RequestHeard::Order(bit, order) => self.hear_order(bit, order),
            RequestHeard::Nothing => self.ignore(),
        }
    }

    fn refuse(self, refusal: Refusal) -> Returned<Result<(), Refusal>, RowHead>
        ensures { result ≡ record { answer = Err refusal; after = self } }
    {
        Returned {
            answer: Err(refusal),
            after: self,
        }
    }

    // The application's answer of so many bytes, which go to the front of the held ones where it is taken. Refusals 21 and 9, in
    // this order.
    #[tactic(auto, unfolding(crate::specs::Rows::row_answers))]
    pub fn answer(self, len: usize) -> Returned<Result<(), Refusal>, RowHead>
        ensures { (held p : List ℕ) → length p ≡ len → (shown_answered result held p ≡ row_answers (row_of self held) p) × (row_answered result held p ≡ row_after (row_answers (row_of self held) p) (row_of self held)) }
    {
        match self.state {
            RowState::Blank | RowState::Opened | RowState::Holds(_) => {
                self.refuse(Refusal::NoReplyOwed)
            }
            RowState::Owes(_) if LONGEST < len => self.refuse(Refusal::TooLong),
            RowState::Owes(bit) => {
                let state = RowState::Holds(bit);
                Returned {
                    answer: Ok(()),
                    after: RowHead { state, len },
                }
            }
        }
    }
}
