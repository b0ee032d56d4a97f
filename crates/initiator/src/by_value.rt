// The same calls on a whole record by value, for programs of this language: the order goes in and comes back with it. Promises:
// `specs/Calls.antt`.
ghost use Rattle.std.specs.Prelude.{◌≡◌, []};
ghost use Rattle.initiator.specs.Calls.{shown_turn, submit_of, silence_of, hear_of, restart_of};
ghost use Rattle.initiator.specs.Heads.{head_after, whole_of};
ghost use Rattle.initiator.specs.Leaves.{head_part};

use crate::answer::InitiatorAnswer;
use crate::head::{InitiatorHead, InitiatorHeadTurn};
use crate::state::Initiator;
use ground::Returned;

fn head_of(initiator: Initiator) -> InitiatorHead
    ensures { result ≡ head_part initiator }
{
    InitiatorHead {
        link: initiator.link,
        tries: initiator.tries,
        phase: initiator.phase,
        len: initiator.len,
    }
}

fn whole_turn(
    turn: InitiatorHeadTurn,
    given: Initiator,
    order: [u8; 246],
) -> Returned<InitiatorAnswer, Initiator>
    ensures { result ≡ record { answer = turn.answer; after = whole_of (head_after turn (head_part given)) order } }
{
    let after = Initiator {
        link: given.link,
        tries: given.tries,
        phase: turn.phase,
        order,
        len: turn.len,
    };
    Returned {
        answer: turn.answer,
        after,
    }
}

impl Initiator {
    #[tactic(auto, using(crate::proofs::HeadLaws::submit_lent))]
    pub fn submit(self, order: &[u8], buf: &mut [u8]) -> Returned<InitiatorAnswer, Initiator>
        ensures { shown_turn result buf.new ≡ submit_of self order.now buf.old }
    {
        let mut kept = self.order;
        let turn = head_of(self).submit(&mut kept, order, buf);
        whole_turn(turn, self, kept)
    }

    #[tactic(auto, using(crate::proofs::HeadLaws::silence_lent))]
    pub fn silence(self, buf: &mut [u8]) -> Returned<InitiatorAnswer, Initiator>
        ensures { shown_turn result buf.new ≡ silence_of self buf.old }
    {
        let turn = head_of(self).silence(&self.order, buf);
        whole_turn(turn, self, self.order)
    }

    #[tactic(auto, using(crate::proofs::HeadLaws::hear_lent))]
    pub fn hear(self, heard: &[u8], buf: &mut [u8]) -> Returned<InitiatorAnswer, Initiator>
        ensures { shown_turn result buf.new ≡ hear_of self heard.now buf.old }
    {
        let turn = head_of(self).hear(&self.order, heard, buf);
        whole_turn(turn, self, self.order)
    }

    pub fn restart(self) -> Returned<InitiatorAnswer, Initiator>
        ensures { shown_turn result [] ≡ restart_of self }
    {
        let turn = head_of(self).restart();
        whole_turn(turn, self, self.order)
    }
}
