// What is printed of a step: `key=value` words, a line for the call, one for its answer, and for a telegram that was written its bytes and
// the lister's line.
use crate::state::Stage;
use ground::{Part, Refusal};
use initiator::InitiatorAnswer;
use line_text::bytes::{find, front};
use line_text::printing::Streams;
pub(crate) use line_text::printing::{print, print_number};
use responder::ResponderAnswer;
use text::put_hex;

// In hexadecimal. No telegram of the link has more than 255 bytes; a longer order or reply, which the calls refuse, is not spelt out.
fn print_hex(streams: &Streams, bytes: &[u8]) {
    if bytes.is_empty() {
        print(streams, b"-");
        return;
    }
    if 255 < bytes.len() {
        print(streams, b"above-255-bytes");
        return;
    }
    let mut out = [0; 510];
    let to = put_hex(&mut out, 0, bytes);
    print(streams, front(&out, to));
}

// A byte as a sign that can be printed and ends no word.
fn sign(b: u8) -> u8 {
    if matches!(b, 33..=126) { b } else { b'.' }
}

fn put_signs(out: &mut [u8], bytes: &[u8]) -> usize {
    let mut to = 0;
    for &b in bytes {
        to = text::put_byte(out, to, sign(b));
    }
    to
}

fn print_text(streams: &Streams, bytes: &[u8]) {
    if bytes.is_empty() || 255 < bytes.len() {
        print(streams, b"-");
        return;
    }
    let mut out = [0; 255];
    let to = put_signs(&mut out, bytes);
    print(streams, front(&out, to));
}

// An order or a reply behind its key, as bytes and as text.
pub fn print_bytes(streams: &Streams, key: &[u8], bytes: &[u8]) {
    print(streams, key);
    print_hex(streams, bytes);
    print(streams, b" text=");
    print_text(streams, bytes);
    print(streams, b"\n");
}

// Of a listing the line between `bytes` and `end`: that of its first telegram.
fn print_second_line(streams: &Streams, listing: &[u8]) {
    let first = find(listing, 0, b'\n');
    if listing.len() <= first {
        return;
    }
    let start = first + 1;
    let end = find(listing, start, b'\n');
    print(streams, &listing[start..end]);
    print(streams, b"\n");
}

// A telegram as the lister names it.
fn print_listed(streams: &Streams, telegram: &[u8]) {
    // The three lines of one telegram, of which none is longer than 80 bytes.
    let mut text = [0; 240];
    if let Ok(len) = listing::list(telegram, &mut text) {
        print_second_line(streams, front(&text, len));
    }
}

pub fn print_sent(streams: &Streams, telegram: &[u8]) {
    print(streams, b"answer=sent telegram=");
    print_hex(streams, telegram);
    print(streams, b"\n");
    print_listed(streams, telegram);
}

// The telegram that a call wrote.
fn print_written(streams: &Streams, after: Stage) {
    print_sent(streams, front(&after.line, after.len));
}

// A part of the telegram that a call heard, behind its key.
fn print_heard(streams: &Streams, key: &[u8], part: Part, before: Stage) {
    let heard = front(&before.line, before.len);
    print_bytes(streams, key, part.show(heard));
}

fn print_refused(streams: &Streams, refusal: Refusal) {
    print_number(streams, b"answer=refused-", refusal.number());
    print(streams, b"\n");
}

// An outcome that shows no reply, with its tries.
fn print_outcome(streams: &Streams, key: &[u8], tries: u8) {
    print_number(streams, key, tries);
    print(streams, b"\n");
}

// The head end's answer, between the stage before the call and the one after it.
pub(crate) fn print_initiator_answer(
    streams: &Streams,
    answer: InitiatorAnswer,
    before: Stage,
    after: Stage,
) {
    match answer {
        InitiatorAnswer::Sent(_) => print_written(streams, after),
        InitiatorAnswer::Confirmed(reply, tries) => {
            print_number(streams, b"answer=confirmed tries=", tries);
            print_heard(streams, b" reply=", reply, before);
        }
        InitiatorAnswer::NotSent(tries) => print_outcome(streams, b"answer=not-sent tries=", tries),
        InitiatorAnswer::Unknown(tries) => print_outcome(streams, b"answer=unknown tries=", tries),
        InitiatorAnswer::Nothing => print(streams, b"answer=nothing\n"),
        InitiatorAnswer::Refused(refusal) => print_refused(streams, refusal),
    }
}

// The cabinet's answer.
pub(crate) fn print_responder_answer(
    streams: &Streams,
    answer: ResponderAnswer,
    before: Stage,
    after: Stage,
) {
    match answer {
        ResponderAnswer::Sent(_) => print_written(streams, after),
        ResponderAnswer::HandUp(order) => print_heard(
            streams,
            b"answer=handed-up order=",
            order,
            before,
        ),
        ResponderAnswer::Nothing => print(streams, b"answer=nothing\n"),
        ResponderAnswer::Refused(refusal) => print_refused(streams, refusal),
    }
}
