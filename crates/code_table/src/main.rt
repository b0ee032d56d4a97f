// Prints what each of the 256 bytes is as a function code, a line each, as the decoder of the library reads it, and how many there are of each
// kind: what is held against the standard's tables and signed.
#![tactic(auto)]

use codes::FunctionCode;
use line_text::answers::Out;
use line_text::printing::Streams;
use std::io;

// What a byte is as a function code.
fn put_code(code: Option<FunctionCode>, out: &mut Out) {
    match code {
        Some(FunctionCode::Request { fcb, req }) => {
            out.text(" kind=request fcb=");
            out.bool(fcb.fcb());
            out.text(" fcv=");
            out.bool(fcb.fcv());
            out.text(" bit=");
            out.text(code_names::frame_count_bit(fcb));
            out.text(" type=");
            out.text(code_names::request_type(req));
            out.text(if req.expects_reply() {
                " reply=yes\n"
            } else {
                " reply=no\n"
            });
        }
        Some(FunctionCode::Response { state, status }) => {
            out.text(" kind=response state=");
            out.text(code_names::response_state(state));
            out.text(" status=");
            out.text(code_names::response_status(status));
            out.text("\n");
        }
        None => out.text(" kind=none\n"),
    }
}

fn is_request(code: &Option<FunctionCode>) -> bool {
    matches!(code, Some(FunctionCode::Request { .. }))
}

fn is_response(code: &Option<FunctionCode>) -> bool {
    matches!(code, Some(FunctionCode::Response { .. }))
}

// How many bytes are a code of this kind.
fn count<F: Fn(&Option<FunctionCode>) -> bool>(is: F) -> usize
    requires { (f : _) (a : _) → F.FnMut.pre f a }
{
    let codes = (0..=255u8).map(FunctionCode::from_byte);
    codes.filter(is).count()
}

fn put_table(out: &mut Out) {
    for b in 0..=255u8 {
        out.pause();
        out.text("byte=");
        out.hex(&[b]);
        put_code(FunctionCode::from_byte(b), out);
    }
    out.text("requests=");
    out.number(count(is_request));
    out.text(" responses=");
    out.number(count(is_response));
    out.text(" none=");
    out.number(count(Option::is_none));
    out.text("\n");
    out.flush();
}

fn main(rt: HostRuntime) -> io::Result<()> {
    let streams = Streams::new(rt.stdin(), rt.stdout(), rt.stderr());
    put_table(&mut Out::new(&streams));
    streams.end()
}
