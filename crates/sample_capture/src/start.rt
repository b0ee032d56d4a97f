// How the segment starts: the ring forms, the slaves are found and are given their parameters.
use crate::telegrams::Capture;
use codes::{FrameCountBit, ResponseState};

impl Capture {
    // Master 2 claims the token, and master 8 enters the ring.
    fn claim(&mut self) {
        self.token(2, 2);
        self.token(2, 2);
        self.status_request(2, 8);
        self.status(8, 2, ResponseState::MasterWithoutToken);
        self.token(2, 8);
    }

    // Master 8 asks master 30 for its state.
    fn asked(&mut self, state: ResponseState) {
        self.status_request(8, 30);
        self.status(30, 8, state);
    }

    // The ring forms: master 30 enters when it is asked for the second time.
    pub(crate) fn ring(&mut self) {
        self.claim();
        self.asked(ResponseState::MasterNotReady);
        self.token(8, 2);
        self.token(2, 8);
        self.asked(ResponseState::MasterWithoutToken);
        self.token(8, 30);
        self.token(30, 2);
    }

    // Master 2 finds the slaves 5 and 7; at 3, 4 and 6 nobody answers.
    pub(crate) fn stations(&mut self) {
        self.status_request(2, 3);
        self.status_request(2, 4);
        self.status_request(2, 5);
        self.status(5, 2, ResponseState::Slave);
        self.status_request(2, 6);
        self.status_request(2, 7);
        self.status(7, 2, ResponseState::Slave);
    }

    // Master 2 asks slave 7 for diagnostics.
    fn asked_slave(&mut self, fcb: FrameCountBit, reply: &[u8]) {
        self.service(7, 60, fcb, b"");
        self.diagnostics(7, reply);
    }

    // Master 2 gives slave 7 something that is confirmed.
    fn given(&mut self, dsap: u8, fcb: FrameCountBit, pdu: &[u8]) {
        self.service(7, dsap, fcb, pdu);
        self.confirmation();
    }

    // Slave 7 gets its parameters and its configuration, and is asked for diagnostics before and after.
    pub(crate) fn parameters(&mut self) {
        let before = b"\x02\x05\x00\xFF\x80\x6A";
        let parameters = b"\xB8\x02\x03\x0B\x80\x6A\x00";
        let after = b"\x00\x0C\x00\x02\x80\x6A";
        self.asked_slave(FrameCountBit::First, before);
        self.given(61, FrameCountBit::Low, parameters);
        self.given(62, FrameCountBit::High, b"\x17\x27");
        self.asked_slave(FrameCountBit::Low, after);
        self.global(b"\x00\x00");
    }
}
