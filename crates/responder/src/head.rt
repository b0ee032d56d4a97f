// The calls of a responder on a small head by value, with the held reply in lent bytes: it is never copied but where an answer is taken.
// Promises: `specs/Calls.antt`.
ghost use Rattle.std.specs.Prelude.{◌≡◌};
ghost use Rattle.responder.specs.Calls.{shown_on, hear_on, answer_on};

use crate::answer::ResponderAnswer;
use crate::moves::{acts, refuse, send_answer};
use ground::{Refusal, Returned};
use link_rules::{LONGEST, Link, ROOM};
use link_telegrams::request_heard;
use responder_row::RowHead;

// All of a responder but the held bytes.
#[derive(Clone, Copy, Debug, PartialEq, Eq)]
pub struct ResponderHead {
    pub link: Link,
    pub row: RowHead,
}

impl ResponderHead {
    // Refusal 10, before the bytes are looked at: `held` wants 246 bytes, `buf` 255.
    #[tactic(auto, unfolding(crate::specs::Calls::hear_of))]
    pub fn hear(
        self,
        held: &[u8],
        heard: &[u8],
        buf: &mut [u8],
    ) -> Returned<ResponderAnswer, ResponderHead>
        ensures { shown_on result held.now buf.new ≡ hear_on self held.now heard.now buf.old }
    {
        if held.len() < LONGEST || buf.len() < ROOM {
            return refuse(self, Refusal::NoRoom);
        }
        let turn = self.row.hear(request_heard(self.link, heard));
        acts(self, turn, held, buf)
    }

    // Refusals 10, 21, 9, in this order. `held` is written where the telegram was.
    #[tactic(auto, unfolding(crate::specs::Calls::answer_of), using(ground::proofs::FrontLaws::copied_fits, responder_row::proofs::RowLaws::taken_fits))]
    pub fn answer(
        self,
        held: &mut [u8],
        reply: &[u8],
        buf: &mut [u8],
    ) -> Returned<ResponderAnswer, ResponderHead>
        ensures { shown_on result held.new buf.new ≡ answer_on self held.old reply.now buf.old }
    {
        if held.len() < LONGEST || buf.len() < ROOM {
            return refuse(self, Refusal::NoRoom);
        }
        let answered = self.row.answer(reply.len());
        match answered.answer {
            Ok(()) => send_answer(self, answered.after, held, reply, buf),
            Err(refusal) => refuse(self, refusal),
        }
    }
}
