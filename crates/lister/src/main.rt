// Lists the telegrams of standard input on standard output. Promise: `output_of` of crate `listing`, in `put_output`.
#![tactic(auto)]

ghost use Rattle.std.specs.Prelude.{◌≡◌, ◌≤◌, length, IfOk};
ghost use Rattle.listing.specs.Listing.{listing_room, output_of};

use listing::LISTING_ROOM;
use std::io;
use std::io::{Print, Read, Stderr, Stdin, Stdout};
use std::process::ExitCode;

// One more byte than the lister takes is enough to know that the input is above the limit.
const INPUT_ROOM: usize = 4097;

// Reads until the buffer is full, the input ends or a read fails; so many bytes lie at the front of the buffer.
// (The lister is proved from its streams on and uses no support code of programs, so it reads by itself.)
fn read_input(stdin: &mut Stdin, buf: &mut [u8]) -> io::Result<usize>
    ensures { IfOk result (λ len. len ≤ length buf.old) }
{
    // How much a read gives is known only behind it, so this is no `for`.
    let mut len = 0;
    while len < buf.len() {
        let n = stdin.read(&mut buf[len..])?;
        if n == 0 {
            return Ok(len);
        }
        len += n;
    }
    Ok(len)
}

// With this room the text is never refused: what is shown is what document 01 says of the input.
#[tactic(auto, using(listing::proofs::AnswerLaws::output_shown))]
fn put_output<'a>(input: &[u8], buf: &'a mut [u8]) -> &'a [u8]
    requires { listing_room ≤ length buf.old }
    ensures { result.now ≡ output_of input.now }
{
    let listed = listing::output(input, buf);
    listing::text(listed, buf)
}

fn print(stdout: Stdout, input: &[u8]) -> io::Result<()> {
    stdout.write_all(put_output(input, &mut [0u8; LISTING_ROOM]))
}

// Says why the list was not made. Nothing is left to say where standard error cannot be written.
fn failed(stderr: Stderr, why: &[u8]) -> ExitCode {
    let _ = stderr.write_all(why);
    ExitCode::FAILURE
}

fn main(rt: HostRuntime) -> ExitCode {
    let mut input = [0u8; INPUT_ROOM];
    let Ok(len) = read_input(&mut rt.stdin(), &mut input) else {
        return failed(rt.stderr(), b"lister: standard input could not be read\n");
    };
    if print(rt.stdout(), &input[..len]).is_err() {
        return failed(
            rt.stderr(),
            b"lister: standard output could not be written\n",
        );
    }
    ExitCode::SUCCESS
}
