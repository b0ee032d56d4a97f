// The initiator with a stamp beside its record. (The calls differ from one another, and from those of the responder, in what the C interface lends
// them.) Promises: `specs/InitiatorCalls.antt`.
ghost use Rattle.std.specs.Prelude.{◌≡◌};
ghost use Rattle.exports_guarded.specs.InitiatorCalls.{koy_guarded_initiator_new, koy_guarded_initiator_submit, koy_guarded_initiator_silence, koy_guarded_initiator_hear};

use crate::refusal::is_refusal;
use exports_link::initiator_end::{
    koy_initiator_hear, koy_initiator_new, koy_initiator_silence, koy_initiator_submit,
};
use guards::stamp_after;

// Refusals 18 and 19, in this order.
pub fn koy_guarded_initiator_new(
    state: &mut [u8; 252],
    last: &mut [usize; 1],
    own: u8,
    peer: u8,
    tries: u8,
    moment: usize,
) -> u8
    ensures { record { code = result; state = state.new; guard = last.new } ≡ koy_guarded_initiator_new state.old last.old own peer tries moment }
{
    let code = koy_initiator_new(state, own, peer, tries);
    if is_refusal(code) {
        return code;
    }
    *last = [moment];
    code
}

pub fn koy_guarded_initiator_submit(
    state: &mut [u8; 252],
    last: &mut [usize; 1],
    moment: usize,
    order: &[u8],
    buf: &mut [u8],
    told: &mut [usize; 3],
) -> u8
    ensures { record { code = result; told = told.new; state = state.new; guard = last.new; buffer = buf.new } ≡ koy_guarded_initiator_submit state.old last.old moment order.now buf.old told.old }
{
    let submitted = koy_initiator_submit(state, order, buf, told);
    *last = [stamp_after(submitted, last[0], moment)];
    submitted
}

pub fn koy_guarded_initiator_silence(
    state: &mut [u8; 252],
    last: &mut [usize; 1],
    moment: usize,
    buf: &mut [u8],
    told: &mut [usize; 3],
) -> u8
    ensures { record { code = result; told = told.new; state = state.new; guard = last.new; buffer = buf.new } ≡ koy_guarded_initiator_silence state.old last.old moment buf.old told.old }
{
    let reported = koy_initiator_silence(state, buf, told);
    *last = [stamp_after(reported, last[0], moment)];
    reported
}

pub fn koy_guarded_initiator_hear(
    state: &mut [u8; 252],
    last: &mut [usize; 1],
    received: usize,
    moment: usize,
    heard: &[u8],
    buf: &mut [u8],
    told: &mut [usize; 3],
) -> u8
    ensures { record { code = result; told = told.new; state = state.new; guard = last.new; buffer = buf.new } ≡ koy_guarded_initiator_hear state.old last.old received moment heard.now buf.old told.old }
{
    if received <= last[0] {
        *told = [0, 0, 0];
        return 0;
    }
    let code = koy_initiator_hear(state, heard, buf, told);
    *last = [stamp_after(code, last[0], moment)];
    code
}
