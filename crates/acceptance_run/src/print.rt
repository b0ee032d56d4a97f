// The pieces of a line: `sample=NAME`, then `key=value` for what was answered.
use ground::Refusal;
use line_text::printing::{Streams, print, print_decimal};

pub(crate) fn text(streams: &Streams, bytes: &[u8]) {
    print(streams, bytes);
}

pub(crate) fn decimal(streams: &Streams, number: usize) {
    print_decimal(streams, number);
}

pub(crate) fn byte(streams: &Streams, number: u8) {
    print_decimal(streams, number as usize);
}

// A number behind its key.
pub(crate) fn named_decimal(streams: &Streams, key: &[u8], number: usize) {
    text(streams, key);
    decimal(streams, number);
}

pub(crate) fn named_byte(streams: &Streams, key: &[u8], number: u8) {
    text(streams, key);
    byte(streams, number);
}

pub(crate) fn sample(streams: &Streams, name: &[u8]) {
    text(streams, b"sample=");
    text(streams, name);
}

pub(crate) fn refused(streams: &Streams, refusal: Refusal) {
    named_byte(streams, b" refused=", refusal.number());
}

pub(crate) fn named_flag(streams: &Streams, key: &[u8], on: bool) {
    text(streams, key);
    if on {
        text(streams, b"yes");
    } else {
        text(streams, b"no");
    }
}

// The first numbers of a row, with commas between them; `-` where the row has ended.
pub(crate) fn row<F: FnMut() -> Option<usize>>(streams: &Streams, count: usize, mut next: F)
    requires { F.IsAlwaysCallable next }
{
    for i in 0..count {
        if i != 0 {
            text(streams, b",");
        }
        match next() {
            Some(number) => decimal(streams, number),
            None => text(streams, b"-"),
        }
    }
}

pub(crate) fn end(streams: &Streams) {
    text(streams, b"\n");
}
