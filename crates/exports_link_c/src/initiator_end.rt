// The calls of `exports_link::initiator_end` for C.
ghost use Rattle.std.specs.Prelude.{◌≡◌, []};
ghost use Rattle.exports_link.specs.InitiatorCalls.{koy_initiator_new, koy_initiator_submit, koy_initiator_silence, koy_initiator_hear, koy_initiator_restart};

// Refusals 18 and 19, in this order.
#[unsafe(no_mangle)]
pub extern "C" fn koy_initiator_new(state: &mut [u8; 252], own: u8, peer: u8, tries: u8) -> u8
    ensures { record { code = result; state = state.new } ≡ koy_initiator_new state.old own peer tries }
{
    exports_link::initiator_end::koy_initiator_new(state, own, peer, tries)
}

#[unsafe(no_mangle)]
pub extern "C" fn koy_initiator_submit(
    state: &mut [u8; 252],
    order: &[u8],
    buf: &mut [u8],
    told: &mut [usize; 3],
) -> u8
    ensures { record { code = result; told = told.new; state = state.new; buffer = buf.new } ≡ koy_initiator_submit state.old order.now buf.old told.old }
{
    exports_link::initiator_end::koy_initiator_submit(state, order, buf, told)
}

#[unsafe(no_mangle)]
pub extern "C" fn koy_initiator_silence(
    state: &mut [u8; 252],
    buf: &mut [u8],
    told: &mut [usize; 3],
) -> u8
    ensures { record { code = result; told = told.new; state = state.new; buffer = buf.new } ≡ koy_initiator_silence state.old buf.old told.old }
{
    exports_link::initiator_end::koy_initiator_silence(state, buf, told)
}

#[unsafe(no_mangle)]
pub extern "C" fn koy_initiator_hear(
    state: &mut [u8; 252],
    heard: &[u8],
    buf: &mut [u8],
    told: &mut [usize; 3],
) -> u8
    ensures { record { code = result; told = told.new; state = state.new; buffer = buf.new } ≡ koy_initiator_hear state.old heard.now buf.old told.old }
{
    exports_link::initiator_end::koy_initiator_hear(state, heard, buf, told)
}

#[unsafe(no_mangle)]
pub extern "C" fn koy_initiator_restart(state: &mut [u8; 252], told: &mut [usize; 3]) -> u8
    ensures { record { code = result; told = told.new; state = state.new; buffer = [] } ≡ koy_initiator_restart state.old told.old }
{
    exports_link::initiator_end::koy_initiator_restart(state, told)
}
