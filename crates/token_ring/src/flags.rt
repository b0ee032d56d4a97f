// The work on the 128 flags. They are lent, so that no call copies them. Promises: specs/Flags.antt and specs/Rules.antt, and between private
// functions specs/Leaves.antt. By document 01 the iterators over them are counted loops.
ghost use Rattle.std.specs.Prelude.{◌≡◌, ◌<◌, ◌≤◌, IfSome, slice_set, unwrap_or};
ghost use Rattle.token_ring.specs.Flags.{cleared, quiet, lowest_from, highest_below, shown_found};
ghost use Rattle.token_ring.specs.Leaves.{Nearest, away, place_above, place_below};
ghost use Rattle.token_ring.specs.Rules.{next_of, previous_of, swept, passed, holds};

use ground::Address;

// Clears by a range, which compiles to one memset.
#[tactic(auto, using(crate::proofs::FlagLaws::cleared_step, crate::proofs::FlagLaws::cleared_done))]
pub(crate) fn clear(flags: &mut [bool; 128], from: usize, to: usize)
    requires { to ≤ 128 }
    ensures { flags.new ≡ cleared from to flags.old }
{
    for at in from..to {
        flags[at] = false;
    }
}

// Sets or clears the flag at `at`. There is none above 127.
pub(crate) fn mark(flags: &mut [bool; 128], at: usize, on: bool)
    ensures { flags.new ≡ slice_set flags.old at on }
{
    if at < 128 {
        flags[at] = on;
    }
}

// Whether no flag from `from` up to below `to` is set. No test ends the scan early, so that it compiles to vector instructions; over the slice
// `flags[from..to]` it did not everywhere (a wrap that is verified took 838 instructions in place of 198).
#[tactic(auto, using(crate::proofs::FlagLaws::quiet_counted, crate::proofs::FlagLaws::byte_le, crate::proofs::FlagLaws::quiet_done, crate::proofs::FlagLaws::and_yes))]
pub(crate) fn none_between(flags: &[bool; 128], from: usize, to: usize) -> bool
    requires { to ≤ 128 }
    ensures { result ≡ quiet from to flags.now }
{
    let mut count: u8 = 0;
    for at in from..to {
        count += flags[at] as u8;
    }
    count == 0
}

#[tactic(auto, using(crate::proofs::FlagLaws::lowest_hit, crate::proofs::FlagLaws::lowest_miss, crate::proofs::FlagLaws::lowest_done))]
pub(crate) fn lowest_from(flags: &[bool; 128], from: usize) -> Option<Address>
    ensures { shown_found result ≡ lowest_from from flags.now }
{
    for at in from..128 {
        if flags[at] {
            return Some(Address(at as u8));
        }
    }
    None
}

// Scans downward, so that the first one found is the highest. There is no flag above 127, so a search below a higher place starts there.
#[tactic(auto, using(crate::proofs::FlagLaws::highest_hit, crate::proofs::FlagLaws::highest_miss, crate::proofs::FlagLaws::highest_done, crate::proofs::FlagLaws::highest_clamped))]
pub(crate) fn highest_below(flags: &[bool; 128], to: usize) -> Option<Address>
    ensures { shown_found result ≡ highest_below to flags.now }
{
    for at in (0..to.min(128)).rev() {
        if flags[at] {
            return Some(Address(at as u8));
        }
    }
    None
}

// How far a place lies above another, or below it, round the 128 flags.
fn away_from<const ABOVE: bool>(from: u8, at: u8) -> u8
    requires { (from < 128) × (at < 128) }
    ensures { result ≡ away ABOVE from at }
{
    if ABOVE {
        at.wrapping_sub(from) % 128
    } else {
        from.wrapping_sub(at) % 128
    }
}

// How far the nearest active station is, above a place round the end or below it round the start. It looks at every flag and no test ends it
// early, so that it compiles to vector instructions: a search costs the same for few stations and for many. Therefore the least distance so far
// is a byte, where 255 is farther than any.
fn nearest<const ABOVE: bool>(flags: &[bool; 128], from: u8) -> Option<u8>
    requires { from < 128 }
    ensures least { Nearest (away ABOVE from) 128 flags.now (unwrap_or result 255) }
    ensures small { IfSome result (λ r. r < 128) }
{
    let mut best: u8 = 255;
    for (at, &on) in flags.iter().enumerate() {
        let here = if on {
            away_from::<ABOVE>(from, at as u8)
        } else {
            255
        };
        best = best.min(here);
    }
    if best == 255 { None } else { Some(best) }
}

// The first place above our own address, round the end.
fn place_above(own: u8) -> u8
    ensures { result ≡ place_above own }
{
    if own < 127 { own + 1 } else { 0 }
}

// The first place below our own address, round the start.
fn place_below(own: u8) -> u8
    ensures { result ≡ place_below own }
{
    if own == 0 || 128 < own { 127 } else { own - 1 }
}

#[tactic(auto, using(crate::proofs::NearestLaws::next_found, crate::proofs::NearestLaws::next_own))]
pub(crate) fn next_of(flags: &[bool; 128], own: u8) -> Address
    ensures { result.0 ≡ next_of own flags.now }
{
    let from = place_above(own);
    match nearest::<true>(flags, from) {
        Some(away) => Address((from + away) % 128),
        None => Address(own),
    }
}

#[tactic(auto, using(crate::proofs::NearestLaws::previous_found, crate::proofs::NearestLaws::previous_own))]
pub(crate) fn previous_of(flags: &[bool; 128], own: u8) -> Address
    ensures { result.0 ≡ previous_of own flags.now }
{
    let from = place_below(own);
    match nearest::<false>(flags, from) {
        Some(away) => Address(away_from::<false>(from, away)),
        None => Address(own),
    }
}

// Clears the gap of a pass, as it holds no known active station.
#[tactic(auto, using(crate::proofs::RuleLaws::swept_rise, crate::proofs::RuleLaws::swept_wrap))]
fn clear_gap(flags: &mut [bool; 128], sa: usize, da: usize)
    requires { da ≤ 128 }
    ensures { flags.new ≡ swept sa da flags.old }
{
    if sa < da {
        clear(flags, sa, da);
    } else {
        clear(flags, sa, 128);
        clear(flags, 0, da);
    }
}

// Only the source of a pass is known to be alive. The destination is entered when it forwards the token itself.
#[tactic(auto, unfolding(crate::specs::Rules::passed))]
pub(crate) fn pass(flags: &mut [bool; 128], sa: usize, da: usize)
    requires { da ≤ 128 }
    ensures { flags.new ≡ passed sa da flags.old }
{
    clear_gap(flags, sa, da);
    mark(flags, sa, true);
}

// Whether a pass agrees with the flags.
#[tactic(auto, using(crate::proofs::RuleLaws::holds_no_sa, crate::proofs::RuleLaws::holds_no_da, crate::proofs::RuleLaws::holds_rise, crate::proofs::RuleLaws::holds_wrap))]
pub(crate) fn verify(flags: &[bool; 128], sa: usize, da: usize) -> bool
    requires { (sa < 128) × (da < 128) }
    ensures { result ≡ holds sa da flags.now }
{
    if !flags[sa] || !flags[da] {
        return false;
    }
    if sa < da {
        none_between(flags, sa + 1, da)
    } else {
        none_between(flags, sa + 1, 128) && none_between(flags, 0, da)
    }
}
