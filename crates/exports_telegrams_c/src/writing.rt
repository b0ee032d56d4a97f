// The calls of `exports_telegrams::writing` for C.
ghost use Rattle.std.specs.Prelude.{◌≡◌};
ghost use Rattle.exports_telegrams.specs.Write.{koy_write_confirmation, koy_write_data, koy_write_token};

// Refusals 4, 8, 9, 10, in this order.
#[unsafe(no_mangle)]
pub extern "C" fn koy_write_data(
    da: u8,
    sa: u8,
    dsap: usize,
    ssap: usize,
    fc: u8,
    pdu: &[u8],
    buf: &mut [u8],
    told: &mut [usize; 2],
) -> u8
    ensures { record { code = result; told = told.new; buffer = buf.new }
        ≡ koy_write_data da sa dsap ssap fc pdu.now buf.old told.old }
{
    exports_telegrams::writing::koy_write_data(da, sa, dsap, ssap, fc, pdu, buf, told)
}

#[unsafe(no_mangle)]
pub extern "C" fn koy_write_token(da: u8, sa: u8, buf: &mut [u8]) -> u8
    ensures { record { code = result; buffer = buf.new } ≡ koy_write_token da sa buf.old }
{
    exports_telegrams::writing::koy_write_token(da, sa, buf)
}

#[unsafe(no_mangle)]
pub extern "C" fn koy_write_confirmation(buf: &mut [u8]) -> u8
    ensures { record { code = result; buffer = buf.new } ≡ koy_write_confirmation buf.old }
{
    exports_telegrams::writing::koy_write_confirmation(buf)
}
