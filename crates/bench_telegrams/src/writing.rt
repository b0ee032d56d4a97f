// `write DA SA DSAP SSAP FC PDU ROOM`, `wtoken DA SA ROOM`, `wack ROOM`, `wstatus DA SA ROOM`, `wstate DA SA STATE STATUS ROOM`
use codes::{FunctionCode, ResponseState, ResponseStatus};
use ground::{Address, Refusal, Sap};
use line_text::answers::Out;
use line_text::strings::{BYTES, ROOM};
use line_text::words::{Fault, Words, whole_byte};
use telegram::DataTelegramHeader;
use telegram_tx::{
    TelegramTxResponse, send_data_telegram, send_fdl_status_request, send_fdl_status_response,
    send_short_confirmation, send_token_telegram,
};

fn address(words: &mut Words) -> Result<Address, Fault> {
    Ok(Address(words.byte()?))
}

// A SAP or `-`.
fn sap(words: &mut Words) -> Result<Option<Sap>, Fault> {
    match words.word()? {
        b"-" => Ok(None),
        word => Ok(Some(Sap(whole_byte(word)?))),
    }
}

// `write DA SA DSAP SSAP FC PDU ROOM`
pub(crate) fn write(mut words: Words, out: &mut Out) -> Result<(), Fault> {
    let da = address(&mut words)?;
    let sa = address(&mut words)?;
    let dsap = sap(&mut words)?;
    let ssap = sap(&mut words)?;
    let code = words.byte()?;
    let mut buffer = [0; BYTES];
    let pdu = words.bytes(&mut buffer)?;
    let room = words.room()?;
    words.end()?;
    match FunctionCode::from_byte(code) {
        Some(fc) => {
            let header = DataTelegramHeader {
                da,
                sa,
                dsap,
                ssap,
                fc,
            };
            send(room, |buffer| send_data_telegram(header, pdu, buffer), out);
        }
        None => out.text("badfc"),
    }
    Ok(())
}

// `wtoken DA SA ROOM`
pub(crate) fn wtoken(mut words: Words, out: &mut Out) -> Result<(), Fault> {
    let da = address(&mut words)?;
    let sa = address(&mut words)?;
    let room = words.room()?;
    words.end()?;
    send(room, |buffer| send_token_telegram(da, sa, buffer), out);
    Ok(())
}

// `wstatus DA SA ROOM`
pub(crate) fn wstatus(mut words: Words, out: &mut Out) -> Result<(), Fault> {
    let da = address(&mut words)?;
    let sa = address(&mut words)?;
    let room = words.room()?;
    words.end()?;
    send(room, |buffer| send_fdl_status_request(da, sa, buffer), out);
    Ok(())
}

// `wack ROOM`
pub(crate) fn wack(mut words: Words, out: &mut Out) -> Result<(), Fault> {
    let room = words.room()?;
    words.end()?;
    send(room, |buffer| send_short_confirmation(buffer), out);
    Ok(())
}

// `wstate DA SA STATE STATUS ROOM`
pub(crate) fn wstate(mut words: Words, out: &mut Out) -> Result<(), Fault> {
    let da = address(&mut words)?;
    let sa = address(&mut words)?;
    let state = ResponseState::from_u8(words.byte()?);
    let status = ResponseStatus::from_u8(words.byte()?);
    let room = words.room()?;
    words.end()?;
    match (state, status) {
        (Some(state), Some(status)) => send(
            room,
            |buffer| send_fdl_status_response(da, sa, state, status, buffer),
            out,
        ),
        _ => out.text("badfc"),
    }
    Ok(())
}

// The writer is lent the first ROOM bytes of a buffer that is as long as a ROOM may be.
fn send<W>(room: usize, write: W, out: &mut Out)
where
    W: FnOnce(&mut [u8]) -> Result<TelegramTxResponse, Refusal>,
    requires { (buffer : _) → W.pre write buffer }
{
    let mut buffer = [0xAA; ROOM];
    let Some(lent) = buffer.get_mut(..room) else {
        return;
    };
    match write(lent) {
        Ok(response) => put_written(response, lent, out),
        Err(refusal) => {
            out.refused(refusal);
            out.touched(lent, 0);
        }
    }
}

fn put_written(response: TelegramTxResponse, buffer: &[u8], out: &mut Out) {
    out.text("written");
    out.next_number(response.bytes_sent());
    out.next_hex(buffer);
    out.text(" reply=");
    match response.expects_reply() {
        Some(da) => out.byte(da.0),
        None => out.text("-"),
    }
}
