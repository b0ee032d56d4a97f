// Telegrams written from numbers. Promises: `koy_write_data`, `koy_write_token`, `koy_write_confirmation` in specs/Write.antt.
ghost use Rattle.std.specs.Prelude.{◌≡◌, ℕ, List};
ghost use Rattle.exports_telegrams.specs.Write.{bare_call, koy_write_confirmation, koy_write_data, koy_write_token, sap_of, write_call};
ghost use Rattle.exports_telegrams.specs.Leaves.{coded_header};
ghost use Rattle.telegram_tx.specs.Writing.{shown_writing};

use crate::reading::ABSENT;
use ground::{Address, Refusal, Sap};
use telegram_tx::{
    CodedHeader, TelegramTxResponse, send_coded_telegram, send_short_confirmation,
    send_token_telegram,
};

fn sap_of(n: usize) -> Option<Sap>
    ensures { result ≡ sap_of n }
{
    u8::try_from(n).ok().map(Sap)
}

fn header_of(da: u8, sa: u8, dsap: usize, ssap: usize, code: u8) -> CodedHeader
    ensures { result ≡ coded_header da sa dsap ssap code }
{
    CodedHeader {
        da: Address(da),
        sa: Address(sa),
        dsap: sap_of(dsap),
        ssap: sap_of(ssap),
        code,
    }
}

fn code_of(res: Result<TelegramTxResponse, Refusal>) -> u8
    ensures { (buf : List ℕ) → record { code = result; buffer = buf } ≡ bare_call (shown_writing res) buf }
{
    match res {
        Ok(_) => 0,
        Err(refusal) => refusal.number(),
    }
}

fn tell(res: Result<TelegramTxResponse, Refusal>, told: &mut [usize; 2]) -> u8
    ensures { (buf : List ℕ) → record { code = result; told = told.new; buffer = buf } ≡ write_call (shown_writing res) told.old buf }
{
    match res {
        Ok(response) => {
            let replier = response.expects_reply().map_or(ABSENT, |a| a.0 as usize);
            *told = [response.bytes_sent(), replier];
            0
        }
        Err(refusal) => refusal.number(),
    }
}

// Refusals 4, 8, 9, 10, in this order.
pub fn koy_write_data(
    da: u8,
    sa: u8,
    dsap: usize,
    ssap: usize,
    fc: u8,
    pdu: &[u8],
    buf: &mut [u8],
    told: &mut [usize; 2],
) -> u8
    ensures { record { code = result; told = told.new; buffer = buf.new }
        ≡ koy_write_data da sa dsap ssap fc pdu.now buf.old told.old }
{
    let header = header_of(da, sa, dsap, ssap, fc);
    tell(send_coded_telegram(header, pdu, buf), told)
}

pub fn koy_write_token(da: u8, sa: u8, buf: &mut [u8]) -> u8
    ensures { record { code = result; buffer = buf.new } ≡ koy_write_token da sa buf.old }
{
    code_of(send_token_telegram(Address(da), Address(sa), buf))
}

pub fn koy_write_confirmation(buf: &mut [u8]) -> u8
    ensures { record { code = result; buffer = buf.new } ≡ koy_write_confirmation buf.old }
{
    code_of(send_short_confirmation(buf))
}
