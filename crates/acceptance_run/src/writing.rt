// Writing: PDUs around the longest one, into buffers around its length. What was written is read again.
use crate::{print, reading};
use codes::{FrameCountBit, FunctionCode};
use ground::Address;
use line_text::printing::Streams;
use telegram::DataTelegramHeader;
use telegram_tx::send_data_telegram;

// An order at Low from station 2 to station 5.
fn header() -> DataTelegramHeader {
    DataTelegramHeader {
        da: Address(5),
        sa: Address(2),
        dsap: None,
        ssap: None,
        fc: FunctionCode::new_srd_low(FrameCountBit::Low),
    }
}

fn print_replier(streams: &Streams, replier: Option<Address>) {
    print::text(streams, b" reply-from=");
    match replier {
        Some(address) => print::byte(streams, address.0),
        None => print::text(streams, b"-"),
    }
}

fn write(streams: &Streams, name: &[u8], pdu: &[u8], buf: &mut [u8]) {
    print::sample(streams, name);
    match send_data_telegram(header(), pdu, buf) {
        Ok(response) => {
            print::named_decimal(streams, b" sent=", response.bytes_sent());
            print_replier(streams, response.expects_reply());
        }
        Err(refusal) => print::refused(streams, refusal),
    }
    if let Some(first) = buf.first() {
        print::named_byte(streams, b" first=", *first);
    }
    print::end(streams);
}

// The longest, and reading it again.
fn longest(streams: &Streams) {
    let mut room = [0xAAu8; 255];
    write(streams, b"pdu-246", &[7u8; 246], &mut room);
    reading::read(streams, b"pdu-246-read", &room);
}

pub(crate) fn samples(streams: &Streams) {
    longest(streams);
    write(streams, b"pdu-247", &[7u8; 247], &mut [0xAAu8; 255]);
    write(streams, b"pdu-246-in-254", &[7u8; 246], &mut [0xAAu8; 254]);
}
