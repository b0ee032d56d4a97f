// `I.new OWN PEER`, `I.new OWN PEER TRIES`, `I.submit ROOM ORDER`, `I.hear ROOM HEARD`, `I.silence ROOM`, `I.restart`
use crate::parts::{End, link, play, put_made, put_part, put_sent, put_turn};
use codes::FrameCountBit;
use initiator::{Initiator, InitiatorAnswer, Phase};
use line_text::answers::Out;
use line_text::strings::BYTES;
use line_text::words::{Fault, Words};

impl End for Initiator {
    type Answer = InitiatorAnswer;

    fn put_answer(answer: InitiatorAnswer, buffer: &[u8], out: &mut Out) {
        match answer {
            InitiatorAnswer::Sent(len) => put_sent(len, buffer, out),
            InitiatorAnswer::Confirmed(reply, tries) => {
                out.text("confirmed");
                put_part(reply, out);
                out.next_byte(tries);
            }
            InitiatorAnswer::NotSent(tries) => {
                out.text("notsent");
                out.next_byte(tries);
            }
            InitiatorAnswer::Unknown(tries) => {
                out.text("unknown");
                out.next_byte(tries);
            }
            InitiatorAnswer::Nothing => out.text("nothing"),
            InitiatorAnswer::Refused(refusal) => out.refused(refusal),
        }
    }

    fn written(answer: InitiatorAnswer) -> usize {
        match answer {
            InitiatorAnswer::Sent(len) => len,
            _ => 0,
        }
    }

    // The bit of the next order, which is never inactive, and the phase; of a pending order the telegrams written in it and its length.
    fn put_state(self, out: &mut Out) {
        out.text(match self.phase().frame_count_bit() {
            FrameCountBit::First => "I:F:",
            FrameCountBit::High => "I:H:",
            FrameCountBit::Low => "I:L:",
            FrameCountBit::Inactive => "-",
        });
        match self.phase() {
            Phase::Closed | Phase::Ready(_) => out.text("idle"),
            Phase::Opening(used) => put_pending("opening:", used, self.order_len(), out),
            Phase::Order(_, used) => put_pending("order:", used, self.order_len(), out),
        }
    }
}

fn put_pending(phase: &str, used: u8, len: usize, out: &mut Out) {
    out.text(phase);
    out.byte(used);
    out.text(":");
    out.number(len);
}

fn new(end: &mut Option<Initiator>, mut words: Words, out: &mut Out) -> Result<(), Fault> {
    let link = link(&mut words)?;
    let made = if words.is_end() {
        Initiator::with_default_tries(link)
    } else {
        Initiator::new(link, words.byte()?)
    };
    words.end()?;
    put_made(made, end, out);
    Ok(())
}

fn submit(end: &mut Option<Initiator>, mut words: Words, out: &mut Out) -> Result<(), Fault> {
    let initiator = end.ok_or(Fault::NotMade)?;
    let room = words.room()?;
    let mut buffer = [0; BYTES];
    let order = words.bytes(&mut buffer)?;
    words.end()?;
    play(room, |lent| initiator.submit(order, lent), end, out)
}

fn hear(end: &mut Option<Initiator>, mut words: Words, out: &mut Out) -> Result<(), Fault> {
    let initiator = end.ok_or(Fault::NotMade)?;
    let room = words.room()?;
    let mut buffer = [0; BYTES];
    let heard = words.bytes(&mut buffer)?;
    words.end()?;
    play(room, |lent| initiator.hear(heard, lent), end, out)
}

fn silence(end: &mut Option<Initiator>, mut words: Words, out: &mut Out) -> Result<(), Fault> {
    let initiator = end.ok_or(Fault::NotMade)?;
    let room = words.room()?;
    words.end()?;
    play(room, |lent| initiator.silence(lent), end, out)
}

fn restart(end: &mut Option<Initiator>, words: Words, out: &mut Out) -> Result<(), Fault> {
    let initiator = end.ok_or(Fault::NotMade)?;
    words.end()?;
    put_turn(initiator.restart(), b"", end, out);
    Ok(())
}

pub(crate) fn answer(
    name: &[u8],
    end: &mut Option<Initiator>,
    words: Words,
    out: &mut Out,
) -> Option<Result<(), Fault>> {
    match name {
        b"new" => Some(new(end, words, out)),
        b"submit" => Some(submit(end, words, out)),
        b"hear" => Some(hear(end, words, out)),
        b"silence" => Some(silence(end, words, out)),
        b"restart" => Some(restart(end, words, out)),
        _ => None,
    }
}
