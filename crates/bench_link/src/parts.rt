// What the commands of both ends of the link have in common.
use ground::{Address, Part, Refusal, Returned};
use line_text::answers::Out;
use line_text::strings::ROOM;
use line_text::words::{Fault, Words};
use link_rules::Link;

// An end of the link, as the bench tells of it.
pub(crate) trait End: Copy {
    type Answer: Copy;

    fn put_answer(answer: Self::Answer, buffer: &[u8], out: &mut Out);

    // How many bytes a call may have written.
    fn written(answer: Self::Answer) -> usize;

    fn put_state(self, out: &mut Out);
}

// OWN and PEER.
pub(crate) fn link(words: &mut Words) -> Result<Link, Fault> {
    Ok(Link {
        own: Address(words.byte()?),
        peer: Address(words.byte()?),
    })
}

// An end's state goes behind an answer.
fn put_end<E: End>(end: Option<E>, out: &mut Out) {
    out.bar();
    match end {
        Some(end) => end.put_state(out),
        None => out.text("-"),
    }
}

// The end that a `new` leaves: the new one, or the old one beside a refusal.
pub(crate) fn put_made<E: End>(
    made: Returned<Result<(), Refusal>, E>,
    end: &mut Option<E>,
    out: &mut Out,
) {
    if made.answer.is_ok() {
        *end = Some(made.after);
    }
    out.ok_or_refused(made.answer);
    put_end(*end, out);
}

// The end after a call, and what the call wrote into its buffer.
pub(crate) fn put_turn<E: End>(
    turn: Returned<E::Answer, E>,
    buffer: &[u8],
    end: &mut Option<E>,
    out: &mut Out,
) {
    *end = Some(turn.after);
    E::put_answer(turn.answer, buffer, out);
    out.touched(buffer, E::written(turn.answer));
    put_end(*end, out);
}

// A call is lent the first ROOM bytes of a buffer that is as long as a ROOM may be.
pub(crate) fn play<E: End, C>(
    room: usize,
    call: C,
    end: &mut Option<E>,
    out: &mut Out,
) -> Result<(), Fault>
where
    C: FnOnce(&mut [u8]) -> Returned<E::Answer, E>,
    requires { (lent : _) → C.pre call lent }
{
    let mut buffer = [0xAA; ROOM];
    let lent = buffer.get_mut(..room).ok_or(Fault::RoomTooLarge)?;
    let turn = call(lent);
    put_turn(turn, lent, end, out);
    Ok(())
}

pub(crate) fn put_sent(len: usize, buffer: &[u8], out: &mut Out) {
    out.text("sent");
    out.next_number(len);
    out.text(" w=");
    out.hex(line_text::bytes::front(buffer, len));
}

// Start and length of a part of what was heard.
pub(crate) fn put_part(part: Part, out: &mut Out) {
    out.next_number(part.start);
    out.next_number(part.len);
}
