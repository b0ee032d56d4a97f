// The calls of `exports_guarded::guarded_initiator` for C.
ghost use Rattle.std.specs.Prelude.{◌≡◌};
ghost use Rattle.exports_guarded.specs.InitiatorCalls.{koy_guarded_initiator_new, koy_guarded_initiator_submit, koy_guarded_initiator_silence, koy_guarded_initiator_hear};

// Refusals 18 and 19, in this order.
#[unsafe(no_mangle)]
pub extern "C" fn koy_guarded_initiator_new(
    state: &mut [u8; 252],
    last: &mut [usize; 1],
    own: u8,
    peer: u8,
    tries: u8,
    moment: usize,
) -> u8
    ensures { record { code = result; state = state.new; guard = last.new } ≡ koy_guarded_initiator_new state.old last.old own peer tries moment }
{
    exports_guarded::guarded_initiator::koy_guarded_initiator_new(
        state, last, own, peer, tries, moment,
    )
}

#[unsafe(no_mangle)]
pub extern "C" fn koy_guarded_initiator_submit(
    state: &mut [u8; 252],
    last: &mut [usize; 1],
    moment: usize,
    order: &[u8],
    buf: &mut [u8],
    told: &mut [usize; 3],
) -> u8
    ensures { record { code = result; told = told.new; state = state.new; guard = last.new; buffer = buf.new } ≡ koy_guarded_initiator_submit state.old last.old moment order.now buf.old told.old }
{
    exports_guarded::guarded_initiator::koy_guarded_initiator_submit(
        state, last, moment, order, buf, told,
    )
}

#[unsafe(no_mangle)]
pub extern "C" fn koy_guarded_initiator_silence(
    state: &mut [u8; 252],
    last: &mut [usize; 1],
    moment: usize,
    buf: &mut [u8],
    told: &mut [usize; 3],
) -> u8
    ensures { record { code = result; told = told.new; state = state.new; guard = last.new; buffer = buf.new } ≡ koy_guarded_initiator_silence state.old last.old moment buf.old told.old }
{
    exports_guarded::guarded_initiator::koy_guarded_initiator_silence(
        state, last, moment, buf, told,
    )
}

#[unsafe(no_mangle)]
pub extern "C" fn koy_guarded_initiator_hear(
    state: &mut [u8; 252],
    last: &mut [usize; 1],
    received: usize,
    moment: usize,
    heard: &[u8],
    buf: &mut [u8],
    told: &mut [usize; 3],
) -> u8
    ensures { record { code = result; told = told.new; state = state.new; guard = last.new; buffer = buf.new } ≡ koy_guarded_initiator_hear state.old last.old received moment heard.now buf.old told.old }
{
    exports_guarded::guarded_initiator::koy_guarded_initiator_hear(
        state, last, received, moment, heard, buf, told,
    )
}
