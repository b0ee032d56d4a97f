ghost use Rattle.std.specs.Prelude.{◌≡◌};
ghost use Rattle.initiator.specs.Calls.{shown_turn as initiator_turn};
ghost use Rattle.responder.specs.Calls.{shown_turn as responder_turn};
ghost use Rattle.stage.specs.Stages.{shown_initiator_step, shown_responder_step, after_initiator, after_responder, on_line, submit_step, silence_step, initiator_hear_step, responder_hear_step, answer_step, restart_step};

use crate::answers::{count_hand_up, count_order, count_outcome, initiator_wrote, responder_wrote};
use crate::state::{Stage, Tally};
use ground::{Part, Returned};
use initiator::{Initiator, InitiatorAnswer};
use responder::{Responder, ResponderAnswer};

// The initiator's call is over: what it wrote is on the line, and nothing else is.
fn after_initiator(
    stage: Stage,
    turn: Returned<InitiatorAnswer, Initiator>,
    line: [u8; 255],
    tally: Tally,
) -> Returned<InitiatorAnswer, Stage>
    ensures { shown_initiator_step result ≡ after_initiator stage (initiator_turn turn line) tally }
{
    let after = Stage {
        initiator: turn.after,
        line,
        len: initiator_wrote(turn.answer),
        tally,
        ..stage
    };
    Returned {
        answer: turn.answer,
        after,
    }
}

// The responder's call is over.
#[tactic(auto, unfolding(crate::specs::Stages::after_responder))]
fn after_responder(
    stage: Stage,
    turn: Returned<ResponderAnswer, Responder>,
    line: [u8; 255],
) -> Returned<ResponderAnswer, Stage>
    ensures { shown_responder_step result ≡ after_responder stage (responder_turn turn line) }
{
    let after = Stage {
        responder: turn.after,
        line,
        len: responder_wrote(turn.answer),
        tally: count_hand_up(turn.answer, stage.tally),
        ..stage
    };
    Returned {
        answer: turn.answer,
        after,
    }
}

impl Stage {
    // The telegram on the line.
    fn on_line(&self) -> &[u8]
        ensures { result.now ≡ on_line self.now }
    {
        let part = Part {
            start: 0,
            len: self.len,
        };
        part.show(&self.line)
    }

    #[tactic(auto, unfolding(crate::specs::Stages::submitted))]
    pub fn submit(self, order: &[u8]) -> Returned<InitiatorAnswer, Stage>
        ensures { shown_initiator_step result ≡ submit_step self order.now }
    {
        let mut line = self.line;
        let turn = self.initiator.submit(order, &mut line);
        let counted = count_order(initiator_wrote(turn.answer), self.tally);
        after_initiator(self, turn, line, counted)
    }

    // The initiator is told that no reply came.
    #[tactic(auto, unfolding(crate::specs::Stages::ended))]
    pub fn report_silence(self) -> Returned<InitiatorAnswer, Stage>
        ensures { shown_initiator_step result ≡ silence_step self }
    {
        let mut line = self.line;
        let turn = self.initiator.silence(&mut line);
        let counted = count_outcome(turn.answer, self.tally);
        after_initiator(self, turn, line, counted)
    }

    // The initiator hears the telegram on the line.
    #[tactic(auto, unfolding(crate::specs::Stages::ended))]
    pub fn initiator_hears(self) -> Returned<InitiatorAnswer, Stage>
        ensures { shown_initiator_step result ≡ initiator_hear_step self }
    {
        let mut line = self.line;
        let turn = self.initiator.hear(self.on_line(), &mut line);
        let counted = count_outcome(turn.answer, self.tally);
        after_initiator(self, turn, line, counted)
    }

    // The initiator restarts and says what became of a pending order. What is on the line stays there.
    #[tactic(auto, unfolding(crate::specs::Stages::restarted_by))]
    pub fn restart_initiator(self) -> Returned<InitiatorAnswer, Stage>
        ensures { shown_initiator_step result ≡ restart_step self }
    {
        let restarted = self.initiator.restart();
        let after = Stage {
            initiator: restarted.after,
            tally: count_outcome(restarted.answer, self.tally),
            ..self
        };
        Returned {
            answer: restarted.answer,
            after,
        }
    }

    // The responder hears the telegram on the line.
    pub fn responder_hears(self) -> Returned<ResponderAnswer, Stage>
        ensures { shown_responder_step result ≡ responder_hear_step self }
    {
        let mut line = self.line;
        let turn = self.responder.hear(self.on_line(), &mut line);
        after_responder(self, turn, line)
    }

    // The responder's application answers the order that was handed up.
    pub fn answer(self, reply: &[u8]) -> Returned<ResponderAnswer, Stage>
        ensures { shown_responder_step result ≡ answer_step self reply.now }
    {
        let mut line = self.line;
        let turn = self.responder.answer(reply, &mut line);
        after_responder(self, turn, line)
    }
}
