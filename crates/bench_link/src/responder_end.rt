// `R.new OWN PEER`, `R.hear ROOM HEARD`, `R.answer ROOM REPLY`, `R.restart`
use crate::parts::{End, link, play, put_made, put_part, put_sent, put_turn};
use ground::Returned;
use line_text::answers::Out;
use line_text::bytes::front;
use line_text::strings::BYTES;
use line_text::words::{Fault, Words};
use link_telegrams::Bit;
use responder::{Responder, ResponderAnswer};

impl End for Responder {
    type Answer = ResponderAnswer;

    fn put_answer(answer: ResponderAnswer, buffer: &[u8], out: &mut Out) {
        match answer {
            ResponderAnswer::Sent(len) => put_sent(len, buffer, out),
            ResponderAnswer::HandUp(order) => {
                out.text("handup");
                put_part(order, out);
            }
            ResponderAnswer::Nothing => out.text("nothing"),
            ResponderAnswer::Refused(refusal) => out.refused(refusal),
        }
    }

    fn written(answer: ResponderAnswer) -> usize {
        match answer {
            ResponderAnswer::Sent(len) => len,
            _ => 0,
        }
    }

    // The stored bit, whether a reply is owed, and the held one.
    fn put_state(self, out: &mut Out) {
        let row = self.row();
        let state = row.state();
        out.text(match state.stored_bit() {
            Some(Bit::Low) => "R:0:",
            Some(Bit::High) => "R:1:",
            None => "R:-:",
        });
        out.bool(state.owes_reply());
        out.text(":");
        if state.holds_reply() {
            out.hex(front(&row.held(), row.held_len()));
        } else {
            out.text("none");
        }
    }
}

fn new(end: &mut Option<Responder>, mut words: Words, out: &mut Out) -> Result<(), Fault> {
    let link = link(&mut words)?;
    words.end()?;
    put_made(Responder::new(link), end, out);
    Ok(())
}

fn hear(end: &mut Option<Responder>, mut words: Words, out: &mut Out) -> Result<(), Fault> {
    let responder = end.ok_or(Fault::NotMade)?;
    let room = words.room()?;
    let mut buffer = [0; BYTES];
    let heard = words.bytes(&mut buffer)?;
    words.end()?;
    play(room, |lent| responder.hear(heard, lent), end, out)
}

fn answer_order(end: &mut Option<Responder>, mut words: Words, out: &mut Out) -> Result<(), Fault> {
    let responder = end.ok_or(Fault::NotMade)?;
    let room = words.room()?;
    let mut buffer = [0; BYTES];
    let reply = words.bytes(&mut buffer)?;
    words.end()?;
    play(room, |lent| responder.answer(reply, lent), end, out)
}

fn restart(end: &mut Option<Responder>, words: Words, out: &mut Out) -> Result<(), Fault> {
    let responder = end.ok_or(Fault::NotMade)?;
    words.end()?;
    let turn = Returned {
        answer: ResponderAnswer::Nothing,
        after: responder.restart(),
    };
    put_turn(turn, b"", end, out);
    Ok(())
}

pub(crate) fn answer(
    name: &[u8],
    end: &mut Option<Responder>,
    words: Words,
    out: &mut Out,
) -> Option<Result<(), Fault>> {
    match name {
        b"new" => Some(new(end, words, out)),
        b"hear" => Some(hear(end, words, out)),
        b"answer" => Some(answer_order(end, words, out)),
        b"restart" => Some(restart(end, words, out)),
        _ => None,
    }
}
