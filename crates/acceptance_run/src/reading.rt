// Reading: what `Telegram::deserialize` answers, and the PDU that it shows.
use crate::print;
use ground::Sap;
use line_text::printing::Streams;
use telegram::{DataTelegram, Deserialized, Telegram};

fn print_sap(streams: &Streams, key: &[u8], sap: Option<Sap>) {
    print::text(streams, key);
    match sap {
        Some(sap) => print::byte(streams, sap.0),
        None => print::text(streams, b"-"),
    }
}

fn print_header(streams: &Streams, t: DataTelegram) {
    let h = t.h;
    print::named_byte(streams, b" da=", h.da.0);
    print::named_byte(streams, b" sa=", h.sa.0);
    print_sap(streams, b" dsap=", h.dsap);
    print_sap(streams, b" ssap=", h.ssap);
    print::named_byte(streams, b" fc=", h.fc.to_byte());
}

// The PDU's length, and its first bytes where it has two.
fn print_pdu(streams: &Streams, pdu: &[u8]) {
    print::named_decimal(streams, b" pdu=", pdu.len());
    if let [first, second] = pdu {
        print::named_byte(streams, b" bytes=", *first);
        print::named_byte(streams, b",", *second);
    }
}

fn print_telegram(streams: &Streams, telegram: Telegram, bytes: &[u8]) {
    match telegram {
        Telegram::Data(t) => {
            print_header(streams, t);
            print_pdu(streams, t.pdu(bytes));
        }
        Telegram::Token(_) => print::text(streams, b" answer=token"),
        Telegram::ShortConfirmation => print::text(streams, b" answer=confirmation"),
    }
}

pub(crate) fn read(streams: &Streams, name: &[u8], bytes: &[u8]) {
    print::sample(streams, name);
    match Telegram::deserialize(bytes) {
        Deserialized::Telegram(telegram, total) => {
            print::named_decimal(streams, b" len=", total);
            print_telegram(streams, telegram, bytes);
        }
        Deserialized::Incomplete => print::text(streams, b" answer=incomplete"),
        Deserialized::Refused(refusal) => print::refused(streams, refusal),
    }
    print::end(streams);
}

pub(crate) fn samples(streams: &Streams) {
    let named: [(&[u8], &[u8]); 7] = [
        (
            b"order-at-low",
            b"\x68\x05\x05\x68\x05\x02\x5C\x01\x03\x67\x16",
        ),
        (
            b"last-byte-17",
            b"\x68\x05\x05\x68\x05\x02\x5C\x01\x03\x67\x17",
        ),
        (
            b"66-for-67",
            b"\x68\x05\x05\x68\x05\x02\x5C\x01\x03\x66\x16",
        ),
        (
            b"saps-60-62",
            b"\x68\x05\x05\x68\x85\x82\x6C\x3C\x3E\xED\x16",
        ),
        (b"68-03-04-00-00-00", b"\x68\x03\x04\x00\x00\x00"),
        (b"68-03-04", b"\x68\x03\x04"),
        (b"68-02-02-00-00-00", b"\x68\x02\x02\x00\x00\x00"),
    ];
    for (name, bytes) in named {
        read(streams, name, bytes);
    }
}
