// The lister's text for the captures of samples/, which stand on standard input one after the other, then for inputs of every kind, and its
// calls around their limits, held to the stored output.
#![tactic(auto)]

use ground::{Part, Refusal};
use line_text::printing::{Streams, print, print_decimal, read_full};
use listing::LISTING_ROOM;
use std::io;

// All that the lister prints for these bytes.
fn show(streams: &Streams, input: &[u8]) {
    let mut text = [0u8; LISTING_ROOM];
    let listed = listing::output(input, &mut text);
    print(streams, listing::text(listed, &text));
}

fn print_number(streams: &Streams, name: &[u8], number: usize) {
    print(streams, name);
    print_decimal(streams, number);
    print(streams, b"\n");
}

fn print_answer(streams: &Streams, listed: Result<usize, Refusal>) {
    match listed {
        Ok(len) => print_number(streams, b"text of ", len),
        Err(refusal) => print_number(streams, b"refused by ", refusal.number() as usize),
    }
}

// What `list` answers, and all that the buffer then holds.
fn list_into(streams: &Streams, input: &[u8], buf: &mut [u8]) {
    print_answer(streams, listing::list(input, buf));
    print(streams, buf);
    print(streams, b"\n");
}

// What `list` answers where there is always room.
fn measure(streams: &Streams, input: &[u8]) {
    print_answer(streams, listing::list(input, &mut [0u8; LISTING_ROOM]));
}

// Two captures of one length.
fn captures(streams: &Streams) {
    let mut both = [0u8; 65536];
    let len = read_full(streams, &mut both) / 2;
    for start in [0, len] {
        show(streams, Part { start, len }.show(&both));
    }
}

fn ends(streams: &Streams) {
    let inputs: [&[u8]; 4] = [
        b"",
        b"\xE5\x00\xE5",
        b"\xE5\x10\x05\x02\x49\x50",
        b"\x68\x05\x05\x68\x05\x02\x5C\x01\x03\x66\x16",
    ];
    for input in inputs {
        show(streams, input);
    }
}

fn kinds(streams: &Streams) {
    let inputs: [&[u8]; 5] = [
        b"\xDC\xFF\x80\xE5",
        b"\x68\x05\x05\x68\x05\x02\x5C\x01\x03\x67\x16",
        b"\x68\x05\x05\x68\x85\x82\x6C\x3C\x3E\xED\x16",
        b"\x10\x00\x00\x80\x80\x16",
        b"\xA2\x05\x02\x5C\x01\x02\x03\x04\x05\x06\x07\x08\x87\x16",
    ];
    for input in inputs {
        show(streams, input);
    }
}

fn rooms(streams: &Streams) {
    for room in [80, 77, 76] {
        list_into(streams, b"\xE5", &mut [b'.'; 80][..room]);
    }
}

fn limits(streams: &Streams) {
    measure(streams, &[0xE5u8; 4096]);
    measure(streams, &[0xE5u8; 4097]);
    show(streams, &[0u8; 4096]);
    show(streams, &[0u8; 4097]);
}

fn main(rt: HostRuntime) -> io::Result<()> {
    let streams = Streams::new(rt.stdin(), rt.stdout(), rt.stderr());
    captures(&streams);
    ends(&streams);
    kinds(&streams);
    rooms(&streams);
    limits(&streams);
    streams.end()
}
