// Diagnostics: the first block of a store, as the walk gives it.
use crate::print;
use diagnostics::{ExtDiagBlock, ExtendedDiagnostics, Found};
use diagnostics_blocks::modules::first_set;
use diagnostics_blocks::{ChannelDataType, ChannelDiagnostics, ChannelError};
use line_text::printing::Streams;

// The first three modules whose bit is set.
fn print_identifier(streams: &Streams, body: &[u8]) {
    print::text(streams, b" modules=");
    let mut from = 0;
    print::row(streams, 3, || {
        let at = first_set(body, from)?;
        from = at.saturating_add(1);
        Some(at)
    });
}

fn type_name(dtype: ChannelDataType) -> &'static [u8] {
    match dtype {
        ChannelDataType::Bit => b"Bit",
        ChannelDataType::Bit2 => b"Bit2",
        ChannelDataType::Bit4 => b"Bit4",
        ChannelDataType::Byte => b"Byte",
        ChannelDataType::Word => b"Word",
        ChannelDataType::DWord => b"DWord",
        ChannelDataType::Invalid => b"Invalid",
    }
}

fn print_error(streams: &Streams, error: ChannelError) {
    match error {
        ChannelError::ShortCircuit => print::text(streams, b"ShortCircuit"),
        ChannelError::UnderVoltage => print::text(streams, b"UnderVoltage"),
        ChannelError::OverVoltage => print::text(streams, b"OverVoltage"),
        ChannelError::OverLoad => print::text(streams, b"OverLoad"),
        ChannelError::OverTemperature => print::text(streams, b"OverTemperature"),
        ChannelError::LineBreak => print::text(streams, b"LineBreak"),
        ChannelError::UpperLimitOvershoot => print::text(streams, b"UpperLimitOvershoot"),
        ChannelError::LowerLimitUndershoot => print::text(streams, b"LowerLimitUndershoot"),
        ChannelError::Error => print::text(streams, b"Error"),
        ChannelError::Reserved(number) | ChannelError::Vendor(number) => {
            print::byte(streams, number);
        }
    }
}

fn print_channel(streams: &Streams, channel: ChannelDiagnostics) {
    print::named_byte(streams, b" module=", channel.module);
    print::named_byte(streams, b" channel=", channel.channel);
    print::named_flag(streams, b" input=", channel.input);
    print::named_flag(streams, b" output=", channel.output);
    print::text(streams, b" type=");
    print::text(streams, type_name(channel.dtype));
    print::text(streams, b" error=");
    print_error(streams, channel.error);
}

fn print_block(streams: &Streams, block: ExtDiagBlock, diag: ExtendedDiagnostics, store: &[u8]) {
    match block {
        ExtDiagBlock::Identifier(body) => print_identifier(
            streams,
            body.show(diag.raw_diag_buffer(store)),
        ),
        ExtDiagBlock::Channel(channel) => print_channel(streams, channel),
        ExtDiagBlock::Device(body) => {
            let shown = body.show(diag.raw_diag_buffer(store));
            print::named_decimal(streams, b" device=", shown.len());
        }
    }
}

fn print_found(streams: &Streams, found: Found, diag: ExtendedDiagnostics, store: &[u8]) {
    match found {
        Found::Block(block) => print_block(streams, block, diag, store),
        Found::End => print::text(streams, b" answer=end"),
        Found::Refused(refusal) => print::refused(streams, refusal),
    }
}

fn first(streams: &Streams, name: &[u8], store: &[u8]) {
    print::sample(streams, name);
    let diag = ExtendedDiagnostics {
        length: store.len(),
    };
    let step = diag.iter_diag_blocks().next(diag, store);
    print_found(streams, step.answer, diag, store);
    print::named_decimal(streams, b" cursor=", step.after.cursor);
    print::end(streams);
}

pub(crate) fn samples(streams: &Streams) {
    let stores: [(&[u8], &[u8]); 6] = [
        (b"42-05", b"\x42\x05"),
        (b"83-C1-26", b"\x83\xC1\x26"),
        (b"40", b"\x40"),
        (b"C0", b"\xC0"),
        (b"43-01", b"\x43\x01"),
        (b"01", b"\x01"),
    ];
    for (name, store) in stores {
        first(streams, name, store);
    }
}
