// Lists the telegrams of standard input as the lister does, with each telegram in words below its line. The lister's lines are the text that
// crate `listing` makes, unchanged; the words are what the same reader reads.
#![tactic(auto)]

mod words;

use crate::words::put_telegram;
use line_text::answers::Out;
use line_text::bytes::front;
use line_text::printing::{Streams, is_readable, print_error, read_full};
use listing::LISTING_ROOM;
use std::io;
use telegram::{Deserialized, Telegram};

// One more byte than the lister takes is enough to know that the input is above the limit.
const INPUT_ROOM: usize = 4097;

// The words of the telegram that the input begins with, as a line, and the input behind it.
fn tell<'a>(input: &'a [u8], out: &mut Out) -> &'a [u8] {
    match Telegram::deserialize(input) {
        Deserialized::Telegram(telegram, len) => {
            out.text("    ");
            put_telegram(telegram, out);
            out.text("\n");
            input.get(len..).unwrap_or(input)
        }
        Deserialized::Incomplete | Deserialized::Refused(_) => input,
    }
}

// A line of the lister's text that is of a telegram begins with its place.
fn put_lines(lines: &[u8], input: &[u8], out: &mut Out) {
    let mut rest = input;
    for line in lines.split_inclusive(|b| *b == b'\n') {
        out.pause();
        out.raw(line);
        if line.starts_with(b"at=") {
            rest = tell(rest, out);
        }
    }
}

fn list(streams: &Streams, input: &[u8]) {
    let mut room = [0; LISTING_ROOM];
    let listed = listing::output(input, &mut room);
    let mut out = Out::new(streams);
    put_lines(listing::text(listed, &room), input, &mut out);
    out.flush();
}

fn main(rt: HostRuntime) -> io::Result<()> {
    let streams = Streams::new(rt.stdin(), rt.stdout(), rt.stderr());
    let mut input = [0; INPUT_ROOM];
    let len = read_full(&streams, &mut input);
    if !is_readable(&streams) {
        print_error(
            &streams,
            b"lister_words: standard input could not be read\n",
        );
        return streams.end();
    }
    list(&streams, front(&input, len));
    streams.end()
}
