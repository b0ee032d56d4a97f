// Prints the capture on standard input as it is recorded behind sloppy couplers. The coupler of drive 12 clears the fourth byte of the SD2 telegrams that
// it lets through; at the end cabinet 5 is asked for its state, and its coupler sends the response as an SD2 telegram of L 3. Document 01's mode
// reads all of it, strict mode stops at the first such telegram. samples/sloppy.bin is what it prints for samples/segment.bin.
#![tactic(auto)]

use codes::consts;
use ground::Address;
use line_text::printing::{Streams, print, read_full};
use std::io;
use telegram::{Deserialized, Telegram};

const DRIVE: Address = Address(12);

// Lets the telegram through that these bytes begin with.
fn let_one_through(bytes: &mut [u8], telegram: Telegram) {
    if telegram.source_address() != Some(DRIVE) {
        return;
    }
    if let [consts::SD2, _, _, fourth, ..] = bytes {
        *fourth = 0;
    }
}

#[tactic(auto, using(telegram::proofs::ReadingLaws::total_within, telegram::proofs::ReadingLaws::total_positive))]
fn let_through(capture: &mut [u8]) {
    let mut rest = capture;
    while let Deserialized::Telegram(telegram, total) = Telegram::deserialize(rest) {
        let_one_through(rest, telegram);
        rest = &mut rest[total..];
    }
}

fn main(rt: HostRuntime) -> io::Result<()> {
    let streams = Streams::new(rt.stdin(), rt.stdout(), rt.stderr());
    let mut capture = [0u8; 4096];
    let len = read_full(&streams, &mut capture);
    let read = &mut capture[..len];
    let_through(read);
    print(&streams, read);
    print(&streams, b"\x10\x05\x02\x49\x50\x16");
    print(&streams, b"\x68\x03\x03\x68\x02\x05\x00\x07\x16");
    streams.end()
}
