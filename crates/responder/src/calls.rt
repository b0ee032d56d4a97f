// The calls of a responder by value, for callers inside the language: those of its head, over its own array of held bytes. Promises:
// `specs/Calls.antt`.
ghost use Rattle.std.specs.Prelude.{◌≡◌};
ghost use Rattle.responder.specs.Calls.{shown_turn, whole_of, hear_of, answer_of, restart_of};

use crate::answer::ResponderAnswer;
use crate::head::ResponderHead;
use crate::state::{Responder, blank};
use ground::Returned;
use responder_row::Row;

fn head_of(responder: Responder) -> ResponderHead
    ensures { result ≡ record { link = responder.link; row = record { state = responder.row.state; len = responder.row.len } } }
{
    ResponderHead {
        link: responder.link,
        row: responder.row.head(),
    }
}

// The whole record again, with these held bytes.
fn rejoined(
    turn: Returned<ResponderAnswer, ResponderHead>,
    held: [u8; 246],
) -> Returned<ResponderAnswer, Responder>
    ensures { result ≡ record { answer = turn.answer; after = whole_of turn.after held } }
{
    let head = turn.after;
    let row = Row::from_parts(head.row.state, held, head.row.len);
    Returned {
        answer: turn.answer,
        after: Responder {
            link: head.link,
            row,
        },
    }
}

impl Responder {
    // Refusal 10, before the bytes are looked at.
    #[tactic(auto, using(crate::proofs::CallLaws::hear_whole))]
    pub fn hear(self, heard: &[u8], buf: &mut [u8]) -> Returned<ResponderAnswer, Responder>
        ensures { shown_turn result buf.new ≡ hear_of self heard.now buf.old }
    {
        let held = self.row.held();
        let turn = head_of(self).hear(&held, heard, buf);
        rejoined(turn, held)
    }

    // Refusals 10, 21, 9, in this order.
    #[tactic(auto, using(crate::proofs::CallLaws::answer_whole))]
    pub fn answer(self, reply: &[u8], buf: &mut [u8]) -> Returned<ResponderAnswer, Responder>
        ensures { shown_turn result buf.new ≡ answer_of self reply.now buf.old }
    {
        let mut held = self.row.held();
        let turn = head_of(self).answer(&mut held, reply, buf);
        rejoined(turn, held)
    }

    pub fn restart(self) -> Responder
        ensures { result ≡ restart_of self }
    {
        blank(self.link)
    }
}
