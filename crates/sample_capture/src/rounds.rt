// The ring at work: rounds of the token, and between them what happens once.
use crate::telegrams::Capture;
use codes::{FrameCountBit, ResponseState};
use ground::Address;
use link_rules::Link;
use link_telegrams::{Bit, ok_header, opening_header, order_header, reply_header};

// The frame count bit of a round's requests.
fn bit(round: u8) -> FrameCountBit {
    if round % 2 == 0 {
        FrameCountBit::High
    } else {
        FrameCountBit::Low
    }
}

// The link between the head end, station 2, and the cabinet, station 5, as one of them has it.
fn link_of(own: u8, peer: u8) -> Link {
    Link {
        own: Address(own),
        peer: Address(peer),
    }
}

impl Capture {
    // One address of the gap behind a master is asked in a round; the slaves 5, 7 and 12 answer.
    fn gap(&mut self, master: u8, address: u8) {
        self.status_request(master, address);
        match address {
            5 | 7 | 12 => self.status(address, master, ResponseState::Slave),
            _ => (),
        }
    }

    // Master 2 exchanges data with the module, 8 bytes each way, and with the drive.
    fn exchange(&mut self, round: u8) {
        self.outputs(2, 7, bit(round), &[0, round, 0, 0, 0x55, 0, 0, 0]);
        self.inputs(7, 2, &[round, 0, 0, 0, 0, 0x55, 0, 1]);
        self.outputs(2, 12, bit(round), &[0x04, 0x7F, 0x20, round]);
        self.inputs(12, 2, &[0x02, 0x33, 0x1F, round]);
    }

    // One round of the token.
    fn round(&mut self, round: u8) {
        self.exchange(round);
        self.gap(2, 3 + round % 5);
        self.token(2, 8);
        self.gap(8, 9 + round % 21);
        self.token(8, 30);
        self.gap(30, 31 + round % 95);
        self.token(30, 2);
    }

    pub(crate) fn rounds(&mut self, from: u8, end: u8) {
        for round in from..end {
            self.round(round);
        }
    }

    // The module reports a broken line: modules 0 and 2, and channel 1 of module 3.
    fn broken_line(&mut self) {
        let reported = b"\x08\x0C\x00\x02\x80\x6A\x42\x05\x83\xC1\x26";
        let parameters = b"\xB8\x02\x03\x0B\x80\x6A\x00";
        self.service(7, 60, FrameCountBit::High, b"");
        self.diagnostics(7, reported);
        self.service(7, 61, FrameCountBit::Low, parameters);
        self.confirmation();
    }

    // The head end opens its link to the cabinet.
    fn opening(&mut self) {
        self.data(opening_header(link_of(2, 5)), b"");
        self.data(ok_header(link_of(5, 2)), b"");
    }

    // It sends an order, and the cabinet replies.
    fn order(&mut self) {
        self.data(order_header(link_of(2, 5), Bit::Low), b"open-17");
        self.data(reply_header(link_of(5, 2)), b"opened-17");
    }

    pub(crate) fn events(&mut self) {
        self.broken_line();
        self.opening();
        self.order();
    }
}
