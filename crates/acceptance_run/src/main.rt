// Document 01's acceptance samples, run by the compiled library: a line for each, held to the stored output. Those marked P are proved
// besides, in the crate `acceptance`.
#![tactic(auto)]

mod blocks;
mod print;
mod reading;
mod stations;
mod writing;

use line_text::printing::Streams;
use std::io;

fn main(rt: HostRuntime) -> io::Result<()> {
    let streams = Streams::new(rt.stdin(), rt.stdout(), rt.stderr());
    reading::samples(&streams);
    stations::samples(&streams);
    blocks::samples(&streams);
    writing::samples(&streams);
    streams.end()
}
