// The blocks of a walk, as answers.
use diagnostics::{ExtDiagBlock, ExtendedDiagnostics};
use diagnostics_blocks::modules::{MODULES, is_set};
use diagnostics_blocks::{ChannelDataType, ChannelDiagnostics, ChannelError};
use line_text::answers::Out;

fn put_identifier(body: &[u8], out: &mut Out) {
    out.text("ident ");
    out.hex(body);
    out.text(" ");
    out.list((0..MODULES).filter(|module| is_set(body, *module)));
}

fn put_device(body: &[u8], out: &mut Out) {
    out.text("device ");
    out.hex(body);
}

// A type's number is its part of the third byte.
fn put_type(dtype: ChannelDataType, out: &mut Out) {
    match dtype {
        ChannelDataType::Invalid => out.text(" Invalid"),
        _ => out.next_byte(dtype.into_diag_byte2() / 32),
    }
}

// The error's class, and its number.
fn put_error_of(error: ChannelError, out: &mut Out) {
    out.text(match error {
        ChannelError::Vendor(_) => " vendor:",
        ChannelError::Reserved(_) => " reserved:",
        _ => " named:",
    });
    out.byte(error.into_diag_byte2());
}

fn put_channel(channel: ChannelDiagnostics, out: &mut Out) {
    out.text("channel");
    out.next_byte(channel.module);
    out.next_byte(channel.channel);
    out.next_byte(u8::from(channel.input));
    out.next_byte(u8::from(channel.output));
    put_type(channel.dtype, out);
    put_error_of(channel.error, out);
}

pub(crate) fn put_block(
    block: ExtDiagBlock,
    diag: ExtendedDiagnostics,
    store: &[u8],
    out: &mut Out,
) {
    let raw = diag.raw_diag_buffer(store);
    match block {
        ExtDiagBlock::Identifier(body) => put_identifier(body.show(raw), out),
        ExtDiagBlock::Channel(channel) => put_channel(channel, out),
        ExtDiagBlock::Device(body) => put_device(body.show(raw), out),
    }
}
