// `read HEX`, `sread HEX`, `about HEX`, `fc BYTE`, `cycle FCB`
use codes::{FrameCountBit, FunctionCode, ResponseStatus};
use ground::{Address, Sap};
use line_text::answers::Out;
use line_text::strings::BYTES;
use line_text::words::{Fault, Words};
use telegram::{DataTelegram, DataTelegramHeader, Deserialized, Telegram, TokenTelegram};
use telegram_strict::{DeserializedIn, Mode, deserialize_in};

// `read HEX`, `sread HEX`
pub(crate) fn read(mode: Mode, mut words: Words, out: &mut Out) -> Result<(), Fault> {
    let mut buffer = [0; BYTES];
    let bytes = words.bytes(&mut buffer)?;
    words.end()?;
    match deserialize_in(mode, bytes) {
        DeserializedIn::Telegram(telegram, total) => put_telegram(telegram, total, bytes, out),
        DeserializedIn::Incomplete => out.text("incomplete"),
        DeserializedIn::Refused(number) => {
            out.text("refused ");
            out.byte(number);
        }
    }
    Ok(())
}

fn put_telegram(telegram: Telegram, total: usize, bytes: &[u8], out: &mut Out) {
    match telegram {
        Telegram::Data(t) => put_data(t, total, bytes, out),
        Telegram::Token(t) => put_token(t, total, out),
        Telegram::ShortConfirmation => {
            out.text("ack");
            out.next_number(total);
        }
    }
}

fn put_token(t: TokenTelegram, total: usize, out: &mut Out) {
    out.text("token");
    out.next_number(total);
    out.next_byte(t.da.0);
    out.next_byte(t.sa.0);
}

fn put_data(t: DataTelegram, total: usize, bytes: &[u8], out: &mut Out) {
    out.text("data");
    out.next_number(total);
    put_header(t.h, out);
    out.next_hex(t.pdu(bytes));
}

fn put_header(h: DataTelegramHeader, out: &mut Out) {
    out.next_byte(h.da.0);
    out.next_byte(h.sa.0);
    put_sap(h.dsap, out);
    put_sap(h.ssap, out);
    out.next_byte(h.fc.to_byte());
}

fn put_sap(sap: Option<Sap>, out: &mut Out) {
    out.next_byte_or_dash(sap.map(|s| s.0));
}

// `about HEX`
pub(crate) fn about(mut words: Words, out: &mut Out) -> Result<(), Fault> {
    let mut buffer = [0; BYTES];
    let bytes = words.bytes(&mut buffer)?;
    words.end()?;
    match Telegram::deserialize(bytes) {
        Deserialized::Telegram(telegram, _) => put_addresses(telegram, out),
        Deserialized::Incomplete | Deserialized::Refused(_) => out.text("none"),
    }
    Ok(())
}

fn put_addresses(telegram: Telegram, out: &mut Out) {
    out.text("about");
    put_address(telegram.source_address(), out);
    put_address(telegram.destination_address(), out);
    put_asks(telegram, out);
}

fn put_address(address: Option<Address>, out: &mut Out) {
    out.next_byte_or_dash(address.map(|a| a.0));
}

// Who asks for the FDL status, and the response's status.
fn put_asks(telegram: Telegram, out: &mut Out) {
    match telegram {
        Telegram::Data(t) => {
            put_address(t.is_fdl_status_request(), out);
            out.next_byte_or_dash(t.is_response().map(ResponseStatus::number));
        }
        Telegram::Token(_) | Telegram::ShortConfirmation => out.text(" - -"),
    }
}

// `fc BYTE`
pub(crate) fn fc(mut words: Words, out: &mut Out) -> Result<(), Fault> {
    let byte = words.byte()?;
    words.end()?;
    match FunctionCode::from_byte(byte) {
        Some(code) => put_code(code, out),
        None => out.text("refused"),
    }
    Ok(())
}

fn put_code(code: FunctionCode, out: &mut Out) {
    match code {
        FunctionCode::Request { fcb, req } => {
            out.text("request ");
            out.text(code_names::frame_count_bit(fcb));
            out.next_byte(req.number());
        }
        FunctionCode::Response { state, status } => {
            out.text("response");
            out.next_byte(state.number());
            out.next_byte(status.number());
        }
    }
    out.text(" byte=");
    out.byte(code.to_byte());
    out.text(" reply=");
    match code {
        FunctionCode::Request { fcb: _, req } => out.bool(req.expects_reply()),
        FunctionCode::Response { .. } => out.text("-"),
    }
}

// An empty word is one too many where another stands behind it.
fn frame_count_bit(words: &mut Words) -> Result<FrameCountBit, Fault> {
    match words.word()? {
        b"First" => Ok(FrameCountBit::First),
        b"High" => Ok(FrameCountBit::High),
        b"Low" => Ok(FrameCountBit::Low),
        b"Inactive" => Ok(FrameCountBit::Inactive),
        [] if !words.is_end() => Err(Fault::TooManyWords),
        _ => Err(Fault::BadFrameCountBit),
    }
}

// `cycle FCB`
pub(crate) fn cycle(mut words: Words, out: &mut Out) -> Result<(), Fault> {
    let fcb = frame_count_bit(&mut words)?;
    words.end()?;
    match fcb.cycle() {
        Ok(next) => out.text(code_names::frame_count_bit(next)),
        Err(refusal) => out.refused(refusal),
    }
    Ok(())
}
