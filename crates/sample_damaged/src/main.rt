// Prints the capture on standard input with the byte in its middle altered, as by a disturbance. In the sample capture that byte lies
// within a data telegram, whose checksum then fails. samples/damaged.bin is what it prints for samples/segment.bin.
#![tactic(auto)]

use line_text::printing::{Streams, print, read_full};
use std::io;

fn main(rt: HostRuntime) -> io::Result<()> {
    let streams = Streams::new(rt.stdin(), rt.stdout(), rt.stderr());
    let mut capture = [0u8; 4096];
    let len = read_full(&streams, &mut capture);
    if let Some(b) = capture.get_mut(len / 2) {
        *b = b.wrapping_add(1);
    }
    print(&streams, &capture[..len]);
    streams.end()
}
