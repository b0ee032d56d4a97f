// Headers whose function code is a byte. Promise, among private functions: `coded_of` and `kept_header` in specs/Leaves.antt.
ghost use Rattle.std.specs.Prelude.{◌≡◌};
ghost use Rattle.telegram_tx.specs.Leaves.{coded_of, kept_header};

use telegram::DataTelegramHeader;
use telegram_bytes::CodedHeader;

// (No `From`: both headers are other crates' own.)
pub(crate) fn coded_of(header: DataTelegramHeader) -> CodedHeader
    ensures { result ≡ coded_of header }
{
    CodedHeader {
        da: header.da,
        sa: header.sa,
        dsap: header.dsap,
        ssap: header.ssap,
        code: header.fc.to_byte(),
    }
}

// The header with the byte that is written for the one that it has: bit 7 of a response is not.
pub(crate) fn kept(header: CodedHeader) -> CodedHeader
    ensures { result ≡ kept_header header }
{
    let b = header.code;
    let code = if b / 64 % 2 == 1 { b } else { b % 128 };
    CodedHeader { code, ..header }
}
