// Prints the sample capture: what a listener would have recorded of one small segment, made by the library's own writers. Masters 2, 8
// and 30 pass the token; 2 is the head end. Slaves are 5, a feeder disconnect cabinet, 7, an input and output module, and 12, a drive.
// samples/segment.bin is what it prints.
#![tactic(auto)]

mod rounds;
mod start;
mod telegrams;

use crate::telegrams::Capture;
use std::io;
use std::io::Print;

fn put_segment(capture: &mut Capture) {
    capture.ring();
    capture.stations();
    capture.parameters();
    capture.rounds(0, 12);
    capture.events();
    capture.rounds(12, 24);
}

fn main(rt: HostRuntime) -> io::Result<()> {
    let mut capture = Capture::new();
    put_segment(&mut capture);
    rt.stdout().write_all(capture.bytes())
}
