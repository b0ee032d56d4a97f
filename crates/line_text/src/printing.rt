// Standard input, output and error without a buffer.
ghost use Rattle.std.specs.Prelude.{◌≤◌, length};

use std::cell::Cell;
use std::io::{Print, Read, Stderr, Stdin, Stdout};
use std::{fmt, io};

// The streams of a program. A read that fails is kept for `end`, and so is a write to standard output that fails, behind which nothing more is
// written. They are kept in cells, so that a call which prints is promised to give what it would give if it did not, whether or not it could
// print.
#[derive(Drop)]
pub struct Streams {
    stdin: Stdin,
    stdout: Stdout,
    stderr: Stderr,
    read: Cell<io::Result<()>>,
    written: Cell<io::Result<()>>,
}

impl Streams {
    pub fn new(stdin: Stdin, stdout: Stdout, stderr: Stderr) -> Streams {
        Streams {
            stdin,
            stdout,
            stderr,
            read: Cell::new(Ok(())),
            written: Cell::new(Ok(())),
        }
    }

    // What failed, for `main` to end with.
    pub fn end(&self) -> io::Result<()> {
        self.read.get()?;
        self.written.get()
    }
}

pub fn print(streams: &Streams, text: &[u8]) {
    if is_written(streams) {
        streams.written.set(streams.stdout.write_all(text));
    }
}

pub fn print_decimal(streams: &Streams, n: usize) {
    if is_written(streams) {
        streams.written.set(streams.stdout.print(n));
    }
}

// A number behind its key.
pub fn print_number(streams: &Streams, key: &[u8], n: u8) {
    print(streams, key);
    print_decimal(streams, n as usize);
}

// Whether no write to standard output has failed.
pub fn is_written(streams: &Streams) -> bool {
    streams.written.get().is_ok()
}

// One read into the front of the buffer. Where nothing was read, the input has ended or cannot be read.
fn read_more(streams: &Streams, buf: &mut [u8]) -> usize
    ensures { result ≤ length buf.new }
{
    let mut stdin = streams.stdin;
    match stdin.read(buf) {
        Ok(n) => n,
        Err(e) => {
            streams.read.set(Err(e));
            0
        }
    }
}

// Reads until the buffer is full, the input ends or a read fails; so many bytes lie at the front of the buffer.
pub fn read_full(streams: &Streams, buf: &mut [u8]) -> usize
    ensures { result ≤ length buf.new }
{
    // How much a read gives is known only behind it, so this is no `for`.
    let mut len = 0;
    while len < buf.len() {
        let n = read_more(streams, &mut buf[len..]);
        if n == 0 {
            return len;
        }
        len += n;
    }
    len
}

// Whether no read has failed.
pub fn is_readable(streams: &Streams) -> bool {
    streams.read.get().is_ok()
}

// Nothing is left to say where standard error cannot be written.
pub fn print_error(streams: &Streams, text: &[u8]) {
    let _ = streams.stderr.write_all(text);
}

pub fn print_error_value<D: fmt::Display + Drop>(streams: &Streams, value: D) {
    let _ = streams.stderr.print(value);
}
