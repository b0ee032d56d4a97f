// The initiator for programs in other languages. It is like `responder_end` call by call, over another record, another layout and other answers:
// one trait of both with its laws would be longer than the two. Promises: `specs/InitiatorCalls.antt`.
ghost use Rattle.std.specs.Prelude.{◌≡◌, [], drop, is_err};
ghost use Rattle.initiator.specs.Calls.{shown_said};
ghost use Rattle.initiator.specs.Heads.{whole_of, head_after, shown_on};
ghost use Rattle.exports_link.specs.Leaves.{initiator_head_of, code_given};
ghost use Rattle.exports_link.specs.Calls.{is_refusal, unless_refused, code_of, told_of, crossed};
ghost use Rattle.exports_link.specs.InitiatorBytes.{initiator_bytes};
ghost use Rattle.exports_link.specs.InitiatorCalls.{initiator_crosses, koy_initiator_new, koy_initiator_submit, koy_initiator_silence, koy_initiator_hear, koy_initiator_restart};

use crate::bytes::{length_byte, link_of, store};
use ground::Refusal;
use initiator::{Initiator, InitiatorAnswer, InitiatorHead, InitiatorHeadTurn};
use link_numbers::{phase_number, phase_of};
use link_rules::LONGEST;

// The record without its order, which stays where it is.
#[tactic(auto, unfolding(crate::specs::Leaves::initiator_head_of))]
fn head_of(state: &[u8; 252]) -> InitiatorHead
    ensures { result ≡ initiator_head_of state.now }
{
    InitiatorHead {
        link: link_of(state[0], state[1]),
        tries: state[2],
        phase: phase_of(state[3], state[4]),
        len: state[5] as usize,
    }
}

// Phase, tries used and length anew; the rest stays.
#[tactic(auto, unfolding(crate::specs::Leaves::initiator_head_of))]
fn store_head(turn: InitiatorHeadTurn, state: &mut [u8; 252])
    ensures { state.new ≡ initiator_bytes (whole_of (head_after turn (initiator_head_of state.old)) (drop 6 state.old)) }
{
    state[3] = phase_number(turn.phase);
    state[4] = turn.phase.tries_used();
    state[5] = length_byte(turn.len.min(LONGEST));
}

fn pack(initiator: Initiator, state: &mut [u8; 252])
    ensures { state.new ≡ initiator_bytes initiator }
{
    let phase = initiator.phase();
    let head = [
        initiator.own().0,
        initiator.peer().0,
        initiator.tries(),
        phase_number(phase),
        phase.tries_used(),
        length_byte(initiator.order_len()),
    ];
    store(&head, &initiator.order(), state);
}

// Tells the numbers of an answer and gives its code. A refusal leaves the numbers as they came.
#[tactic(auto, using(crate::proofs::CallLaws::refusal_told))]
fn tell(answer: InitiatorAnswer, told: &mut [usize; 3]) -> Result<u8, Refusal>
    ensures code { code_given result ≡ code_of initiator_crosses.code (shown_said answer) }
    ensures refused { is_err result ≡ is_refusal (code_of initiator_crosses.code (shown_said answer)) }
    ensures told { told.new ≡ unless_refused (code_of initiator_crosses.code (shown_said answer)) told.old (told_of initiator_crosses.numbers initiator_crosses.zeros (shown_said answer)) }
{
    let (code, numbers) = match answer {
        InitiatorAnswer::Sent(n) => (102, [n, 0, 0]),
        InitiatorAnswer::Confirmed(reply, tries) => (103, [reply.start, reply.len, tries as usize]),
        InitiatorAnswer::NotSent(tries) => (104, [0, 0, tries as usize]),
        InitiatorAnswer::Unknown(tries) => (105, [0, 0, tries as usize]),
        InitiatorAnswer::Nothing => (0, [0, 0, 0]),
        InitiatorAnswer::Refused(refusal) => return Err(refusal),
    };
    *told = numbers;
    Ok(code)
}

// A refused call left the record as it came, so its bytes are not touched.
// Its twin in `responder_end` tells and stores by the other end's types: a trait of both with its laws would be longer than the two.
fn finish(turn: InitiatorHeadTurn, state: &mut [u8; 252], told: &mut [usize; 3]) -> u8
    ensures code { result ≡ code_of initiator_crosses.code (shown_said turn.answer) }
    ensures told { told.new ≡ unless_refused (code_of initiator_crosses.code (shown_said turn.answer)) told.old (told_of initiator_crosses.numbers initiator_crosses.zeros (shown_said turn.answer)) }
    ensures state { state.new ≡ unless_refused (code_of initiator_crosses.code (shown_said turn.answer)) state.old (initiator_bytes (whole_of (head_after turn (initiator_head_of state.old)) (drop 6 state.old))) }
{
    match tell(turn.answer, told) {
        Ok(code) => {
            store_head(turn, state);
            code
        }
        Err(refusal) => refusal.number(),
    }
}

// Refusals 18 and 19, in this order.
#[tactic(auto, using(crate::proofs::CallLaws::refusal_told), unfolding(crate::specs::Calls::new_call))]
pub fn koy_initiator_new(state: &mut [u8; 252], own: u8, peer: u8, tries: u8) -> u8
    ensures { record { code = result; state = state.new } ≡ koy_initiator_new state.old own peer tries }
{
    let made = Initiator::new(link_of(own, peer), tries);
    match made.answer {
        Ok(()) => {
            pack(made.after, state);
            0
        }
        Err(refusal) => refusal.number(),
    }
}

// The order behind the head is lent as a part of the bytes.

pub fn koy_initiator_submit(
    state: &mut [u8; 252],
    order: &[u8],
    buf: &mut [u8],
    told: &mut [usize; 3],
) -> u8
    ensures { record { code = result; told = told.new; state = state.new; buffer = buf.new } ≡ koy_initiator_submit state.old order.now buf.old told.old }
{
    let turn = head_of(state).submit(&mut state[6..], order, buf);
    finish(turn, state, told)
}

#[tactic(auto, using(crate::proofs::ByteLaws::order_all, crate::proofs::ByteLaws::order_long, initiator::proofs::HeadLaws::silence_lent), unfolding(crate::specs::Calls::crossed, crate::specs::Leaves::initiator_head_of))]
pub fn koy_initiator_silence(state: &mut [u8; 252], buf: &mut [u8], told: &mut [usize; 3]) -> u8
    ensures { record { code = result; told = told.new; state = state.new; buffer = buf.new } ≡ koy_initiator_silence state.old buf.old told.old }
{
    let turn = head_of(state).silence(&state[6..], buf);
    finish(turn, state, told)
}

#[tactic(auto, using(crate::proofs::ByteLaws::order_all, crate::proofs::ByteLaws::order_long, initiator::proofs::HeadLaws::hear_lent), unfolding(crate::specs::Calls::crossed, crate::specs::Leaves::initiator_head_of))]
pub fn koy_initiator_hear(
    state: &mut [u8; 252],
    heard: &[u8],
    buf: &mut [u8],
    told: &mut [usize; 3],
) -> u8
    ensures { record { code = result; told = told.new; state = state.new; buffer = buf.new } ≡ koy_initiator_hear state.old heard.now buf.old told.old }
{
    let turn = head_of(state).hear(&state[6..], heard, buf);
    finish(turn, state, told)
}

#[tactic(auto, unfolding(crate::specs::Calls::crossed, crate::specs::Leaves::initiator_head_of))]
pub fn koy_initiator_restart(state: &mut [u8; 252], told: &mut [usize; 3]) -> u8
    ensures { record { code = result; told = told.new; state = state.new; buffer = [] } ≡ koy_initiator_restart state.old told.old }
{
    let turn = head_of(state).restart();
    finish(turn, state, told)
}
