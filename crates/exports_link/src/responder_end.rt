// The responder for programs in other languages. It is like `initiator_end` call by call: see there. Promises: `specs/ResponderCalls.antt`.
ghost use Rattle.std.specs.Prelude.{◌≡◌, drop, is_err};
ghost use Rattle.responder.specs.Calls.{shown_said, whole_of, shown_on};
ghost use Rattle.exports_link.specs.Leaves.{responder_head_of, code_given};
ghost use Rattle.exports_link.specs.Calls.{is_refusal, unless_refused, code_of, told_of, crossed};
ghost use Rattle.exports_link.specs.ResponderBytes.{responder_bytes};
ghost use Rattle.exports_link.specs.ResponderCalls.{responder_crosses, koy_responder_new, koy_responder_hear, koy_responder_answer, koy_responder_restart};

use crate::bytes::{length_byte, link_of, store};
use ground::{Refusal, Returned};
use link_numbers::{state_number, state_of};
use link_rules::LONGEST;
use responder::{Responder, ResponderAnswer, ResponderHead};
use responder_row::{Row, RowHead};

// The record without its held reply, which stays where it is.
#[tactic(auto, unfolding(crate::specs::Leaves::responder_head_of))]
fn head_of(state: &[u8; 250]) -> ResponderHead
    ensures { result ≡ responder_head_of state.now }
{
    ResponderHead {
        link: link_of(state[0], state[1]),
        row: RowHead {
            state: state_of(state[2]),
            len: state[3] as usize,
        },
    }
}

// The first four bytes anew; the held reply stays.
fn store_head(head: ResponderHead, state: &mut [u8; 250])
    ensures { state.new ≡ responder_bytes (whole_of head (drop 4 state.old)) }
{
    state[0] = head.link.own.0;
    state[1] = head.link.peer.0;
    state[2] = state_number(head.row.state);
    state[3] = length_byte(head.row.held_len(LONGEST));
}

fn pack(responder: Responder, state: &mut [u8; 250])
    ensures { state.new ≡ responder_bytes responder }
{
    let row = responder.row();
    let head = [
        responder.own().0,
        responder.peer().0,
        state_number(row.state()),
        length_byte(row.held_len()),
    ];
    store(&head, &row.held(), state);
}

// Tells the numbers of an answer and gives its code. A refusal leaves the numbers as they came.
#[tactic(auto, using(crate::proofs::CallLaws::refusal_told))]
fn tell(answer: ResponderAnswer, told: &mut [usize; 2]) -> Result<u8, Refusal>
    ensures code { code_given result ≡ code_of responder_crosses.code (shown_said answer) }
    ensures refused { is_err result ≡ is_refusal (code_of responder_crosses.code (shown_said answer)) }
    ensures told { told.new ≡ unless_refused (code_of responder_crosses.code (shown_said answer)) told.old (told_of responder_crosses.numbers responder_crosses.zeros (shown_said answer)) }
{
    let (code, numbers) = match answer {
        ResponderAnswer::Sent(n) => (102, [n, 0]),
        ResponderAnswer::HandUp(order) => (106, [order.start, order.len]),
        ResponderAnswer::Nothing => (0, [0, 0]),
        ResponderAnswer::Refused(refusal) => return Err(refusal),
    };
    *told = numbers;
    Ok(code)
}

// A refused call left the record as it came, so its bytes are not touched.
// Its twin in `initiator_end` tells and stores by the other end's types: a trait of both with its laws would be longer than the two.
fn finish(
    turn: Returned<ResponderAnswer, ResponderHead>,
    state: &mut [u8; 250],
    told: &mut [usize; 2],
) -> u8
    ensures code { result ≡ code_of responder_crosses.code (shown_said turn.answer) }
    ensures told { told.new ≡ unless_refused (code_of responder_crosses.code (shown_said turn.answer)) told.old (told_of responder_crosses.numbers responder_crosses.zeros (shown_said turn.answer)) }
    ensures state { state.new ≡ unless_refused (code_of responder_crosses.code (shown_said turn.answer)) state.old (responder_bytes (whole_of turn.after (drop 4 state.old))) }
{
    match tell(turn.answer, told) {
        Ok(code) => {
            store_head(turn.after, state);
            code
        }
        Err(refusal) => refusal.number(),
    }
}

// Refusal 18.
#[tactic(auto, using(crate::proofs::CallLaws::refusal_told), unfolding(crate::specs::Calls::new_call))]
pub fn koy_responder_new(state: &mut [u8; 250], own: u8, peer: u8) -> u8
    ensures { record { code = result; state = state.new } ≡ koy_responder_new state.old own peer }
{
    let made = Responder::new(link_of(own, peer));
    match made.answer {
        Ok(()) => {
            pack(made.after, state);
            0
        }
        Err(refusal) => refusal.number(),
    }
}

// The held reply behind the head is lent as a part of the bytes.

#[tactic(auto, using(crate::proofs::ByteLaws::held_all, crate::proofs::ByteLaws::held_long, link_telegrams::proofs::TurnLaws::with_lent_lem), unfolding(crate::specs::Calls::crossed, crate::specs::Leaves::responder_head_of))]
pub fn koy_responder_hear(
    state: &mut [u8; 250],
    heard: &[u8],
    buf: &mut [u8],
    told: &mut [usize; 2],
) -> u8
    ensures { record { code = result; told = told.new; state = state.new; buffer = buf.new } ≡ koy_responder_hear state.old heard.now buf.old told.old }
{
    let turn = head_of(state).hear(&state[4..], heard, buf);
    finish(turn, state, told)
}

pub fn koy_responder_answer(
    state: &mut [u8; 250],
    reply: &[u8],
    buf: &mut [u8],
    told: &mut [usize; 2],
) -> u8
    ensures { record { code = result; told = told.new; state = state.new; buffer = buf.new } ≡ koy_responder_answer state.old reply.now buf.old told.old }
{
    let turn = head_of(state).answer(&mut state[4..], reply, buf);
    finish(turn, state, told)
}

#[tactic(auto, unfolding(crate::specs::Leaves::responder_head_of))]
pub fn koy_responder_restart(state: &mut [u8; 250])
    ensures { state.new ≡ koy_responder_restart state.old }
{
    let link = head_of(state).link;
    pack(Responder::from_parts(link, Row::blank()), state);
}
