// The calls of `exports_link::responder_end` for C.
ghost use Rattle.std.specs.Prelude.{◌≡◌};
ghost use Rattle.exports_link.specs.ResponderCalls.{koy_responder_new, koy_responder_hear, koy_responder_answer, koy_responder_restart};

// Refusal 18.
#[unsafe(no_mangle)]
pub extern "C" fn koy_responder_new(state: &mut [u8; 250], own: u8, peer: u8) -> u8
    ensures { record { code = result; state = state.new } ≡ koy_responder_new state.old own peer }
{
    exports_link::responder_end::koy_responder_new(state, own, peer)
}

#[unsafe(no_mangle)]
pub extern "C" fn koy_responder_hear(
    state: &mut [u8; 250],
    heard: &[u8],
    buf: &mut [u8],
    told: &mut [usize; 2],
) -> u8
    ensures { record { code = result; told = told.new; state = state.new; buffer = buf.new } ≡ koy_responder_hear state.old heard.now buf.old told.old }
{
    exports_link::responder_end::koy_responder_hear(state, heard, buf, told)
}

#[unsafe(no_mangle)]
pub extern "C" fn koy_responder_answer(
    state: &mut [u8; 250],
    reply: &[u8],
    buf: &mut [u8],
    told: &mut [usize; 2],
) -> u8
    ensures { record { code = result; told = told.new; state = state.new; buffer = buf.new } ≡ koy_responder_answer state.old reply.now buf.old told.old }
{
    exports_link::responder_end::koy_responder_answer(state, reply, buf, told)
}

#[unsafe(no_mangle)]
pub extern "C" fn koy_responder_restart(state: &mut [u8; 250])
    ensures { state.new ≡ koy_responder_restart state.old }
{
    exports_link::responder_end::koy_responder_restart(state);
}
