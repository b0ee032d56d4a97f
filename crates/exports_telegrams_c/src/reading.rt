// The calls of `exports_telegrams::reading` for C.
ghost use Rattle.std.specs.Prelude.{◌≡◌};
ghost use Rattle.exports_telegrams.specs.Read.{koy_read};

#[unsafe(no_mangle)]
pub extern "C" fn koy_read(bytes: &[u8], told: &mut [usize; 9]) -> u8
    ensures { record { code = result; told = told.new } ≡ koy_read bytes.now told.old }
{
    exports_telegrams::reading::koy_read(bytes, told)
}
