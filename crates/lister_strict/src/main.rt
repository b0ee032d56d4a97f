// Lists the telegrams of standard input in strict mode: the lister's lines up to the first telegram that strict mode refuses. Promise: `output_in` of crate
// `listing`, in `put_output`.
#![tactic(auto)]

ghost use Rattle.std.specs.Prelude.{◌≡◌, ◌≤◌, length};
ghost use Rattle.listing.specs.Listing.{listing_room, output_in};
ghost use Rattle.telegram_strict.specs.declared.strict.Mode.TheVariants.{Strict};

use line_text::bytes::front;
use line_text::printing;
use line_text::printing::{Streams, is_readable, is_written, print_error, read_full};
use listing::LISTING_ROOM;
use std::io;
use telegram_strict::Mode;

// One more byte than the lister takes is enough to know that the input is above the limit.
const INPUT_ROOM: usize = 4097;

// With this room the text is never refused.
#[tactic(auto, using(listing::proofs::AnswerLaws::output_shown))]
fn put_output<'a>(input: &[u8], buf: &'a mut [u8]) -> &'a [u8]
    requires { listing_room ≤ length buf.old }
    ensures { result.now ≡ output_in Strict input.now }
{
    let listed = listing::output_in(Mode::Strict, input, buf);
    listing::text(listed, buf)
}

fn print(streams: &Streams, input: &[u8]) -> bool {
    printing::print(streams, put_output(input, &mut [0u8; LISTING_ROOM]));
    is_written(streams)
}

fn main(rt: HostRuntime) -> io::Result<()> {
    let streams = Streams::new(rt.stdin(), rt.stdout(), rt.stderr());
    let mut input = [0u8; INPUT_ROOM];
    let len = read_full(&streams, &mut input);
    if !is_readable(&streams) {
        print_error(
            &streams,
            b"lister_strict: standard input could not be read\n",
        );
        return streams.end();
    }
    if !print(&streams, front(&input, len)) {
        print_error(
            &streams,
            b"lister_strict: standard output could not be written\n",
        );
    }
    streams.end()
}
