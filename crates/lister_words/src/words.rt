// A telegram in words, as the library reads it. The names of codes are the library's own.
use codes::FunctionCode;
use ground::{Address, Sap};
use line_text::answers::Out;
use telegram::{DataTelegramHeader, Telegram, TokenTelegram};

fn put_code(code: FunctionCode, out: &mut Out) {
    match code {
        FunctionCode::Request { fcb, req } => {
            out.text(": request ");
            out.text(code_names::request_type(req));
            out.text(", frame count bit ");
            out.text(code_names::frame_count_bit(fcb));
            out.text(if req.expects_reply() {
                ", wants a reply"
            } else {
                ", wants no reply"
            });
        }
        FunctionCode::Response { state, status } => {
            out.text(": response, state ");
            out.text(code_names::response_state(state));
            out.text(", status ");
            out.text(code_names::response_status(status));
        }
    }
}

// A station, with the SAP where there is one.
fn put_station(address: Address, sap: Option<Sap>, out: &mut Out) {
    out.byte(address.0);
    if let Some(sap) = sap {
        out.text(" (SAP ");
        out.byte(sap.0);
        out.text(")");
    }
}

fn put_header(h: DataTelegramHeader, out: &mut Out) {
    put_station(h.sa, h.ssap, out);
    out.text(" to ");
    put_station(h.da, h.dsap, out);
    put_code(h.fc, out);
}

fn put_token(t: TokenTelegram, out: &mut Out) {
    out.byte(t.sa.0);
    out.text(" passes the token to ");
    out.byte(t.da.0);
}

pub(crate) fn put_telegram(telegram: Telegram, out: &mut Out) {
    match telegram {
        Telegram::Data(t) => put_header(t.h, out),
        Telegram::Token(t) => put_token(t, out),
        Telegram::ShortConfirmation => out.text("short confirmation"),
    }
}
