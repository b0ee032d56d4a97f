// The calls of `exports_guarded::guarded_responder` for C.
ghost use Rattle.std.specs.Prelude.{◌≡◌};
ghost use Rattle.exports_guarded.specs.ResponderCalls.{koy_guarded_responder_new, koy_guarded_responder_hear, koy_guarded_responder_answer};

// The numbers of its orders begin after the stamp. Refusal 18.
#[unsafe(no_mangle)]
pub extern "C" fn koy_guarded_responder_new(
    state: &mut [u8; 250],
    guard: &mut [usize; 2],
    own: u8,
    peer: u8,
    moment: usize,
) -> u8
    ensures { record { code = result; state = state.new; guard = guard.new } ≡ koy_guarded_responder_new state.old guard.old own peer moment }
{
    exports_guarded::guarded_responder::koy_guarded_responder_new(state, guard, own, peer, moment)
}

#[unsafe(no_mangle)]
pub extern "C" fn koy_guarded_responder_hear(
    state: &mut [u8; 250],
    guard: &mut [usize; 2],
    received: usize,
    moment: usize,
    heard: &[u8],
    buf: &mut [u8],
    told: &mut [usize; 3],
) -> u8
    ensures { record { code = result; told = told.new; state = state.new; guard = guard.new; buffer = buf.new } ≡ koy_guarded_responder_hear state.old guard.old received moment heard.now buf.old told.old }
{
    exports_guarded::guarded_responder::koy_guarded_responder_hear(
        state, guard, received, moment, heard, buf, told,
    )
}

#[unsafe(no_mangle)]
pub extern "C" fn koy_guarded_responder_answer(
    state: &mut [u8; 250],
    guard: &mut [usize; 2],
    number: usize,
    moment: usize,
    reply: &[u8],
    buf: &mut [u8],
    told: &mut [usize; 3],
) -> u8
    ensures { record { code = result; told = told.new; state = state.new; guard = guard.new; buffer = buf.new } ≡ koy_guarded_responder_answer state.old guard.old number moment reply.now buf.old told.old }
{
    exports_guarded::guarded_responder::koy_guarded_responder_answer(
        state, guard, number, moment, reply, buf, told,
    )
}
