// The responder with a stamp and a number beside its record. Promises: `specs/ResponderCalls.antt`.
ghost use Rattle.std.specs.Prelude.{◌≡◌, [], ◌∷◌, get_or};
ghost use Rattle.exports_link.specs.Calls.{unless_refused};
ghost use Rattle.guards.specs.Guards.{last_of, handed_of, stamp_after, number_after, number_told};
ghost use Rattle.exports_guarded.specs.ResponderCalls.{koy_guarded_responder_new, koy_guarded_responder_hear, koy_guarded_responder_answer};

use crate::refusal::is_refusal;
use exports_link::responder_end::{koy_responder_answer, koy_responder_hear, koy_responder_new};
use ground::Refusal;
use guards::{number_after, number_told, stamp_after};

// A refused call leaves what is told as it came; it writes no telegram and hands nothing up.
fn keep(code: u8, two: [usize; 2], moment: usize, guard: &mut [usize; 2], told: &mut [usize; 3])
    ensures guard { guard.new ≡ stamp_after code (last_of guard.old) moment ∷ number_after code (handed_of guard.old) ∷ [] }
    ensures told { told.new ≡ unless_refused code told.old (get_or two 0 0 ∷ get_or two 1 0 ∷ number_told code (handed_of guard.old) ∷ []) }
{
    let number = number_told(code, guard[1]);
    *guard = [
        stamp_after(code, guard[0], moment),
        number_after(code, guard[1]),
    ];
    if !is_refusal(code) {
        *told = [two[0], two[1], number];
    }
}

// The numbers of its orders begin after the stamp. Refusal 18.
pub fn koy_guarded_responder_new(
    state: &mut [u8; 250],
    guard: &mut [usize; 2],
    own: u8,
    peer: u8,
    moment: usize,
) -> u8
    ensures { record { code = result; state = state.new; guard = guard.new } ≡ koy_guarded_responder_new state.old guard.old own peer moment }
{
    let code = koy_responder_new(state, own, peer);
    if is_refusal(code) {
        return code;
    }
    *guard = [moment, moment];
    code
}

pub fn koy_guarded_responder_hear(
    state: &mut [u8; 250],
    guard: &mut [usize; 2],
    received: usize,
    moment: usize,
    heard: &[u8],
    buf: &mut [u8],
    told: &mut [usize; 3],
) -> u8
    ensures { record { code = result; told = told.new; state = state.new; guard = guard.new; buffer = buf.new } ≡ koy_guarded_responder_hear state.old guard.old received moment heard.now buf.old told.old }
{
    if received <= guard[0] {
        *told = [0, 0, 0];
        return 0;
    }
    let mut two = [0, 0];
    let code = koy_responder_hear(state, heard, buf, &mut two);
    keep(code, two, moment, guard, told);
    code
}

pub fn koy_guarded_responder_answer(
    state: &mut [u8; 250],
    guard: &mut [usize; 2],
    number: usize,
    moment: usize,
    reply: &[u8],
    buf: &mut [u8],
    told: &mut [usize; 3],
) -> u8
    ensures { record { code = result; told = told.new; state = state.new; guard = guard.new; buffer = buf.new } ≡ koy_guarded_responder_answer state.old guard.old number moment reply.now buf.old told.old }
{
    if number != guard[1] {
        return Refusal::NoReplyOwed.number();
    }
    let mut two = [0, 0];
    let answered = koy_responder_answer(state, reply, buf, &mut two);
    keep(answered, two, moment, guard, told);
    answered
}
