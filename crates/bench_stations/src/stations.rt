// `ring OWN OP…`, `ready OWN OP…`
use crate::ops::next_op;
use ground::Address;
use line_text::answers::Out;
use line_text::words::{Fault, Words};
use token_ring::{LasState, TokenRing};

fn phase_name(phase: LasState) -> &'static str {
    match phase {
        LasState::Uninitialized => "Uninitialized",
        LasState::Discovery => "Discovery",
        LasState::Verification => "Verification",
        LasState::Valid => "Valid",
    }
}

// A list, whole.
pub(crate) fn put_state(ring: TokenRing, out: &mut Out) {
    out.text(phase_name(ring.las_state()));
    out.next_byte(ring.next_station().0);
    out.next_byte(ring.previous_station().0);
    out.text(" ");
    let active = (0..128u8).filter(|n| ring.is_active(Address(*n)));
    out.list(active.map(usize::from));
}

// Only whether the list is ready for the ring.
pub(crate) fn put_ready(ring: TokenRing, out: &mut Out) {
    out.bool(ring.ready_for_ring());
}

// All ops are read before the first is played, so that a bad line is answered by `error` alone. (Each turn takes a word; how many there are is
// not known before.)
fn check_ops(mut words: Words) -> Result<(), Fault> {
    while !words.is_end() {
        next_op(&mut words)?;
    }
    Ok(())
}

fn play_ops<P>(mut words: Words, mut ring: TokenRing, put: P, out: &mut Out) -> Result<(), Fault>
where
    P: Fn(TokenRing, &mut Out),
    requires { P.IsAlwaysCallable put }
{
    while !words.is_end() {
        let changed = next_op(&mut words)?.applied(ring);
        out.pause();
        out.bar();
        if let Err(refusal) = changed.answer {
            out.refusal(refusal);
            out.text(" ");
        }
        ring = changed.after;
        put(ring, out);
    }
    Ok(())
}

// The list made, and then the list after each op, as `put` tells it.
pub(crate) fn play<P>(mut words: Words, put: P, out: &mut Out) -> Result<(), Fault>
where
    P: Fn(TokenRing, &mut Out),
    requires { P.IsAlwaysCallable put }
{
    let own = words.byte()?;
    check_ops(words)?;
    let made = TokenRing::new(Address(own));
    match made.answer {
        Ok(()) => {
            put(made.after, out);
            play_ops(words, made.after, put, out)
        }
        Err(refusal) => {
            out.refusal(refusal);
            Ok(())
        }
    }
}
