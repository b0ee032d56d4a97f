ghost use Rattle.std.specs.Prelude.{◌≡◌};
ghost use Rattle.exports_link.specs.Calls.{is_refusal};

// A call that is refused changes nothing, its guard no more than its record.
pub(crate) fn is_refusal(code: u8) -> bool
    ensures { result ≡ is_refusal code }
{
    0 < code && code < 100
}
