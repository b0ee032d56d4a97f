// The capture, and one telegram each laid behind the others. Stations are named sender first.
use codes::{FrameCountBit, FunctionCode, RequestType, ResponseState, ResponseStatus};
use ground::{Address, Refusal, Sap};
use line_text::bytes::front;
use telegram::DataTelegramHeader;
use telegram_tx::{
    TelegramTxResponse, send_data_telegram, send_fdl_status_request, send_fdl_status_response,
    send_short_confirmation, send_token_telegram,
};

// Room for the whole capture.
const ROOM: usize = 4096;

// The telegrams are the first `len` bytes. (No `Vec`: the program cannot run out of memory.)
#[derive(Drop)]
pub(crate) struct Capture {
    bytes: [u8; ROOM],
    len: usize,
}

fn plain_header(sa: u8, da: u8, fc: FunctionCode) -> DataTelegramHeader {
    DataTelegramHeader {
        da: Address(da),
        sa: Address(sa),
        dsap: None,
        ssap: None,
        fc,
    }
}

fn sap_header(sa: u8, da: u8, ssap: u8, dsap: u8, fc: FunctionCode) -> DataTelegramHeader {
    DataTelegramHeader {
        da: Address(da),
        sa: Address(sa),
        dsap: Some(Sap(dsap)),
        ssap: Some(Sap(ssap)),
        fc,
    }
}

fn data_low() -> FunctionCode {
    FunctionCode::new_response(ResponseState::Slave, ResponseStatus::DataLow)
}

impl Capture {
    pub(crate) fn new() -> Capture {
        Capture {
            bytes: [0; ROOM],
            len: 0,
        }
    }

    pub(crate) fn bytes(&self) -> &[u8] {
        front(&self.bytes, self.len)
    }

    // What a writer wrote. It refuses none of the telegrams here, and there is room for each.
    fn put(&mut self, written: Result<TelegramTxResponse, Refusal>, buffer: &[u8]) {
        let Ok(response) = written else {
            return;
        };
        let telegram = front(buffer, response.bytes_sent());
        let at = self.len.min(ROOM);
        if let Some(place) = self.bytes[at..].get_mut(..telegram.len()) {
            place.copy_from_slice(telegram);
            self.len = at + telegram.len();
        }
    }

    pub(crate) fn token(&mut self, sa: u8, da: u8) {
        let mut buffer = [0; 3];
        let written = send_token_telegram(Address(da), Address(sa), &mut buffer);
        self.put(written, &buffer);
    }

    pub(crate) fn confirmation(&mut self) {
        let mut buffer = [0; 1];
        let written = send_short_confirmation(&mut buffer);
        self.put(written, &buffer);
    }

    pub(crate) fn status_request(&mut self, sa: u8, da: u8) {
        let mut buffer = [0; 6];
        let written = send_fdl_status_request(Address(da), Address(sa), &mut buffer);
        self.put(written, &buffer);
    }

    pub(crate) fn status(&mut self, sa: u8, da: u8, state: ResponseState) {
        let mut buffer = [0; 6];
        let ok = ResponseStatus::Ok;
        let written = send_fdl_status_response(Address(da), Address(sa), state, ok, &mut buffer);
        self.put(written, &buffer);
    }

    pub(crate) fn data(&mut self, header: DataTelegramHeader, pdu: &[u8]) {
        let mut buffer = [0; 255];
        let written = send_data_telegram(header, pdu, &mut buffer);
        self.put(written, &buffer);
    }

    // Cyclic data: outputs to a slave, and its inputs in reply.
    pub(crate) fn outputs(&mut self, sa: u8, da: u8, fcb: FrameCountBit, pdu: &[u8]) {
        self.data(plain_header(sa, da, FunctionCode::new_srd_high(fcb)), pdu);
    }

    pub(crate) fn inputs(&mut self, sa: u8, da: u8, pdu: &[u8]) {
        self.data(plain_header(sa, da, data_low()), pdu);
    }

    // A request of master 2 to one of a slave's services, from its SAP 62.
    pub(crate) fn service(&mut self, da: u8, dsap: u8, fcb: FrameCountBit, pdu: &[u8]) {
        let fc = FunctionCode::new_srd_high(fcb);
        self.data(sap_header(2, da, 62, dsap, fc), pdu);
    }

    // A slave's diagnostics, SAP 60 to master 2's SAP 62.
    pub(crate) fn diagnostics(&mut self, sa: u8, pdu: &[u8]) {
        self.data(sap_header(sa, 2, 60, 62, data_low()), pdu);
    }

    // A global command to all stations, which nobody answers.
    pub(crate) fn global(&mut self, pdu: &[u8]) {
        let fc = FunctionCode::Request {
            fcb: FrameCountBit::Inactive,
            req: RequestType::SdnHigh,
        };
        self.data(sap_header(2, 127, 62, 58, fc), pdu);
    }
}
