// The steps of a scene. Each prints its call, the answer and the telegram, and gives the stage that the step alone would give. (The stage goes in
// by value and comes back, so that a scene's promise speaks of stages alone.)
ghost use Rattle.std.specs.Prelude.{◌≡◌};
ghost use Rattle.stage.specs.Stages.{fresh, fresh_with, submit_step, silence_step, initiator_hear_step, responder_hear_step, answer_step, restart_step, anew_of, responder_anew_of, restarted_of, lost_of};
ghost use Rattle.stage.specs.Exchanges.{opening_passed, order_passed};

use crate::state::Stage;
use crate::telling::{
    print, print_bytes, print_initiator_answer, print_number, print_responder_answer,
};
use line_text::printing::Streams;

fn print_heading(streams: &Streams, name: &[u8], about: &[u8], stage: Stage) {
    print(streams, b"scene=");
    print(streams, name);
    print_number(streams, b" tries=", stage.initiator.tries());
    print(streams, b"\nabout=");
    print(streams, about);
    print(streams, b"\n");
}

// A scene's heading, and its stage.
pub fn open_scene(streams: &Streams, name: &[u8], about: &[u8]) -> Stage
    ensures { result ≡ fresh }
{
    let stage = Stage::new();
    print_heading(streams, name, about, stage);
    stage
}

// The same with another number of tries.
pub fn open_scene_with_tries(streams: &Streams, name: &[u8], about: &[u8], tries: u8) -> Stage
    ensures { result ≡ fresh_with tries }
{
    let stage = Stage::with_tries(tries);
    print_heading(streams, name, about, stage);
    stage
}

// How the scene ended. It prints, and there is nothing else to promise.
pub fn close_scene(streams: &Streams, name: &[u8], stage: Stage)
    ensures { Unit {0} }
{
    let tally = stage.tally;
    print(streams, b"\nscene=");
    print(streams, name);
    print_number(streams, b" orders=", tally.orders);
    print_number(streams, b" confirmed=", tally.confirmed);
    print_number(streams, b" not-sent=", tally.not_sent);
    print_number(streams, b" unknown=", tally.unknown);
    print_number(streams, b" carried-out=", tally.carried_out);
    print(streams, b"\n");
}

pub fn head_end_submits(streams: &Streams, stage: Stage, order: &[u8]) -> Stage
    ensures { result ≡ (submit_step stage order.now).stage }
{
    print_bytes(streams, b"\nwho=head-end call=submit order=", order);
    let step = stage.submit(order);
    print_initiator_answer(streams, step.answer, stage, step.after);
    step.after
}

// Silence is reported.
pub fn head_end_hears_nothing(streams: &Streams, stage: Stage) -> Stage
    ensures { result ≡ (silence_step stage).stage }
{
    print(streams, b"\nwho=head-end call=silence\n");
    let step = stage.report_silence();
    print_initiator_answer(streams, step.answer, stage, step.after);
    step.after
}

pub fn head_end_hears(streams: &Streams, stage: Stage) -> Stage
    ensures { result ≡ (initiator_hear_step stage).stage }
{
    print(streams, b"\nwho=head-end call=hear\n");
    let step = stage.initiator_hears();
    print_initiator_answer(streams, step.answer, stage, step.after);
    step.after
}

// The head end restarts with its record at hand, and says what became of a pending order.
pub fn head_end_calls_restart(streams: &Streams, stage: Stage) -> Stage
    ensures { result ≡ (restart_step stage).stage }
{
    print(streams, b"\nwho=head-end call=restart\n");
    let step = stage.restart_initiator();
    print_initiator_answer(streams, step.answer, stage, step.after);
    step.after
}

// The head end goes on with a record made anew.
pub fn head_end_restarts(streams: &Streams, stage: Stage) -> Stage
    ensures { result ≡ anew_of stage }
{
    print(
        streams,
        b"\nwho=head-end call=with-default-tries\nanswer=made-anew\n",
    );
    stage.make_initiator_anew()
}

pub fn cabinet_hears(streams: &Streams, stage: Stage) -> Stage
    ensures { result ≡ (responder_hear_step stage).stage }
{
    print(streams, b"\nwho=cabinet call=hear\n");
    let step = stage.responder_hears();
    print_responder_answer(streams, step.answer, stage, step.after);
    step.after
}

// The cabinet's application answers the order that was handed up.
pub fn cabinet_answers(streams: &Streams, stage: Stage, reply: &[u8]) -> Stage
    ensures { result ≡ (answer_step stage reply.now).stage }
{
    print_bytes(streams, b"\nwho=cabinet call=answer reply=", reply);
    let step = stage.answer(reply);
    print_responder_answer(streams, step.answer, stage, step.after);
    step.after
}

pub fn cabinet_restarts(streams: &Streams, stage: Stage) -> Stage
    ensures { result ≡ restarted_of stage }
{
    print(
        streams,
        b"\nwho=cabinet call=restart\nanswer=all-forgotten\n",
    );
    stage.restart_responder()
}

// The cabinet goes on with a record made anew.
pub fn cabinet_made_anew(streams: &Streams, stage: Stage) -> Stage
    ensures { result ≡ responder_anew_of stage }
{
    print(streams, b"\nwho=cabinet call=new\nanswer=made-anew\n");
    stage.make_responder_anew()
}

// The telegram on the line is lost.
pub fn line_loses(streams: &Streams, stage: Stage) -> Stage
    ensures { result ≡ lost_of stage }
{
    print(streams, b"\nwho=line lost=telegram\n");
    stage.lose()
}

// The opening on the line passes, and so does its reply.
pub fn opening_passes(streams: &Streams, stage: Stage) -> Stage
    ensures { result ≡ opening_passed stage }
{
    head_end_hears(streams, cabinet_hears(streams, stage))
}

// The order on the line passes, the application answers it, and the reply passes.
pub fn order_passes(streams: &Streams, stage: Stage, reply: &[u8]) -> Stage
    ensures { result ≡ order_passed stage reply.now }
{
    let heard = cabinet_hears(streams, stage);
    head_end_hears(streams, cabinet_answers(streams, heard, reply))
}
