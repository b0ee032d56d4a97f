// The station list: its active stations, next, previous and phase after a row of passes.
use crate::print;
use ground::Address;
use line_text::printing::Streams;
use token_ring::{LasState, TokenRing};

// No sample leaves more than three.
fn print_stations(streams: &Streams, ring: TokenRing) {
    print::text(streams, b" stations=");
    let mut from = 0u8;
    print::row(streams, 4, || {
        let station = ring.first_active_from(Address(from))?;
        from = station.0.saturating_add(1);
        Some(station.0 as usize)
    });
}

fn phase_name(phase: LasState) -> &'static [u8] {
    match phase {
        LasState::Uninitialized => b"Uninitialized",
        LasState::Discovery => b"Discovery",
        LasState::Verification => b"Verification",
        LasState::Valid => b"Valid",
    }
}

fn print_list(streams: &Streams, name: &[u8], ring: TokenRing) {
    print::sample(streams, name);
    print_stations(streams, ring);
    print::named_byte(streams, b" next=", ring.next_station().0);
    print::named_byte(streams, b" previous=", ring.previous_station().0);
    print::text(streams, b" phase=");
    print::text(streams, phase_name(ring.las_state()));
    print::end(streams);
}

fn own(address: u8) -> TokenRing {
    TokenRing::new(Address(address)).after
}

fn pass(ring: TokenRing, sa: u8, da: u8) -> TokenRing {
    ring.witness_token_pass(Address(sa), Address(da))
}

// 2-5, 5-9, 9-2.
fn round(ring: TokenRing) -> TokenRing {
    pass(pass(pass(ring, 2, 5), 5, 9), 9, 2)
}

pub(crate) fn samples(streams: &Streams) {
    let seven = round(pass(own(7), 9, 2));
    print_list(streams, b"own-7", seven);
    print_list(streams, b"own-7-again", round(seven));
    let three = pass(pass(pass(own(3), 3, 3), 3, 3), 3, 3);
    print_list(streams, b"own-3", three);
    print_list(streams, b"own-7-then-9-5", pass(seven, 9, 5));
}
