// The bench: reads commands from standard input, one a line, and writes one answer line for each, in order. Each command is one call of the
// library, or a row of them. A line that is no command is answered `error`, and changes nothing; its number and the reason go to standard
// error.
#![tactic(auto)]

mod lister_text;
mod settings_text;

use bench_link::{Ends, no_ends};
use line_text::answers::Out;
use line_text::bytes::front;
use line_text::printing::{Streams, is_readable, print, print_error, print_error_value, read_full};
use line_text::words::{Fault, Words};
use std::io;

// The longest input.
const INPUT: usize = 1048576;

// The longest line.
const LINE: usize = 16384;

// Each subject has names of its own; the first that knows the name answers.
fn answer(line: &[u8], ends: &mut Ends, out: &mut Out) -> Result<(), Fault> {
    let mut words = Words::new(line);
    let name = words.name();
    bench_link::play(ends, name, words, out)
        .or_else(|| bench_telegrams::answer(name, words, out))
        .or_else(|| bench_stations::answer(name, words, out))
        .or_else(|| bench_diagnostics::answer(name, words, out))
        .or_else(|| own_answer(name, words, out))
        .unwrap_or(Err(Fault::UnknownCommand))
}

// The commands that no subject's crate has.
fn own_answer(name: &[u8], words: Words, out: &mut Out) -> Option<Result<(), Fault>> {
    match name {
        b"settings" => Some(settings_text::settings(words, out)),
        b"lister" => Some(lister_text::lister(words, out)),
        _ => None,
    }
}

// A line may end with a carriage return before its line feed.
fn without_return(line: &[u8]) -> &[u8] {
    match line {
        [front @ .., b'\r'] => front,
        _ => line,
    }
}

// Why the line of a number was answered `error`.
fn tell_fault(streams: &Streams, number: usize, fault: Fault) {
    print_error(streams, b"bench: line ");
    print_error_value(streams, number);
    print_error(streams, b": ");
    print_error_value(streams, fault);
    print_error(streams, b"\n");
}

// An empty line, and one that begins with `#`, gets no answer.
fn play_line(streams: &Streams, line: &[u8], number: usize, ends: &mut Ends, out: &mut Out) {
    let command = without_return(line);
    if command.is_empty() || command.starts_with(b"#") {
        return;
    }
    out.pause();
    let answered = if LINE < line.len() {
        Err(Fault::LineTooLong)
    } else {
        answer(command, ends, out)
    };
    if let Err(fault) = answered {
        out.text("error");
        tell_fault(streams, number, fault);
    }
    out.text("\n");
}

fn run(streams: &Streams, input: &[u8]) {
    let mut out = Out::new(streams);
    let mut ends = no_ends();
    for (i, line) in input.split(|b| *b == b'\n').enumerate() {
        play_line(streams, line, i + 1, &mut ends, &mut out);
    }
    out.flush();
}

// One byte more tells an input that is too long. Made behind a call, so that no proof of `main` computes with so many bytes.
fn input_buffer() -> [u8; INPUT + 1] {
    [0; INPUT + 1]
}

fn main(rt: HostRuntime) -> io::Result<()> {
    let streams = Streams::new(rt.stdin(), rt.stdout(), rt.stderr());
    let mut input = input_buffer();
    let len = read_full(&streams, &mut input);
    if INPUT < len {
        print(&streams, b"error\n");
        print_error(&streams, b"bench: more than 1,048,576 bytes\n");
        return streams.end();
    }
    if !is_readable(&streams) {
        print_error(&streams, b"bench: standard input cannot be read\n");
        return streams.end();
    }
    run(&streams, front(&input, len));
    streams.end()
}
