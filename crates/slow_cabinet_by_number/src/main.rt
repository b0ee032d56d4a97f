// The slow cabinet again, with the guarded ends, which a driver is offered first. Hearing gives a number with each order that it hands up,
// and the application answers with that number: so the late answer to the first order is refused and changes nothing, and the second
// order is confirmed with its own reply.
//
// The ends are called as a driver in C calls them: records and guards as lent arrays, a stamp with each call. The stamps are a count of
// what happens on the line. It is a program of its own, above the guarded calls, so that the other scenes need not wait for those.
#![tactic(auto)]

use exports_guarded::guarded_initiator::{
    koy_guarded_initiator_hear, koy_guarded_initiator_new, koy_guarded_initiator_silence,
    koy_guarded_initiator_submit,
};
use exports_guarded::guarded_responder::{
    koy_guarded_responder_answer, koy_guarded_responder_hear, koy_guarded_responder_new,
};
use ground::Part;
use line_text::bytes::front;
use line_text::printing::{Streams, print, print_number};
use stage::telling::{print_bytes, print_sent};
use std::io;

#[derive(Drop)]
struct Plant<'a> {
    streams: &'a Streams,
    head_end: [u8; 252],
    last: [usize; 1],
    cabinet: [u8; 250],
    guard: [usize; 2],
    // The telegram on the line is the first `len` bytes, as a driver in C has it.
    line: [u8; 255],
    len: usize,
}

// Numbers and tries of this scene are small.
fn small(n: usize) -> u8 {
    u8::try_from(n).unwrap_or(255)
}

fn part_of(heard: &[u8], start: usize, len: usize) -> &[u8] {
    let part = Part { start, len };
    part.show(heard)
}

fn print_code(streams: &Streams, code: u8) {
    print_number(streams, b"answer=code-", code);
    print(streams, b"\n");
}

impl<'a> Plant<'a> {
    fn new(streams: &'a Streams) -> Plant<'a> {
        let mut head_end = [0; 252];
        let mut last = [0];
        koy_guarded_initiator_new(&mut head_end, &mut last, 2, 5, 1, 0);
        let mut cabinet = [0; 250];
        let mut guard = [0; 2];
        koy_guarded_responder_new(&mut cabinet, &mut guard, 5, 2, 0);
        Plant {
            streams,
            head_end,
            last,
            cabinet,
            guard,
            line: [0; 255],
            len: 0,
        }
    }

    // What a call of the head end answered.
    fn print_head_end(&self, code: u8, told: [usize; 3], heard: &[u8]) {
        match code {
            102 => print_sent(self.streams, front(&self.line, told[0])),
            103 => {
                print_number(self.streams, b"answer=confirmed tries=", small(told[2]));
                print_bytes(self.streams, b" reply=", part_of(heard, told[0], told[1]));
            }
            105 => {
                print_number(self.streams, b"answer=unknown tries=", small(told[2]));
                print(self.streams, b"\n");
            }
            _ => print_code(self.streams, code),
        }
    }

    // What a call of the cabinet answered.
    fn print_cabinet(&self, code: u8, told: [usize; 3], heard: &[u8]) {
        match code {
            102 => print_sent(self.streams, front(&self.line, told[0])),
            106 => {
                print_number(self.streams, b"answer=handed-up number=", small(told[2]));
                print_bytes(self.streams, b" order=", part_of(heard, told[0], told[1]));
            }
            21 => print(self.streams, b"answer=refused-21\n"),
            _ => print_code(self.streams, code),
        }
    }

    fn head_end_submits(&mut self, now: usize, order: &[u8]) {
        print_bytes(self.streams, b"\nwho=head-end call=submit order=", order);
        let mut told = [0; 3];
        let code = koy_guarded_initiator_submit(
            &mut self.head_end,
            &mut self.last,
            now,
            order,
            &mut self.line,
            &mut told,
        );
        self.print_head_end(code, told, b"");
        self.len = told[0];
    }

    fn head_end_hears_nothing(&mut self, now: usize) {
        print(self.streams, b"\nwho=head-end call=silence\n");
        let mut told = [0; 3];
        let code = koy_guarded_initiator_silence(
            &mut self.head_end,
            &mut self.last,
            now,
            &mut self.line,
            &mut told,
        );
        self.print_head_end(code, told, b"");
        self.len = told[0];
    }

    fn head_end_hears(&mut self, now: usize) {
        print(self.streams, b"\nwho=head-end call=hear\n");
        let line = self.line;
        let heard = front(&line, self.len);
        let mut told = [0; 3];
        let code = koy_guarded_initiator_hear(
            &mut self.head_end,
            &mut self.last,
            now,
            now,
            heard,
            &mut self.line,
            &mut told,
        );
        self.print_head_end(code, told, heard);
        self.len = told[0];
    }

    fn cabinet_hears(&mut self, now: usize) {
        print(self.streams, b"\nwho=cabinet call=hear\n");
        let line = self.line;
        let heard = front(&line, self.len);
        let mut told = [0; 3];
        let code = koy_guarded_responder_hear(
            &mut self.cabinet,
            &mut self.guard,
            now,
            now,
            heard,
            &mut self.line,
            &mut told,
        );
        self.print_cabinet(code, told, heard);
        self.len = told[0];
    }

    // The application answers the order of this number. A refused call leaves the line as it is.
    fn cabinet_answers(&mut self, now: usize, number: usize, reply: &[u8]) {
        print_number(
            self.streams,
            b"\nwho=cabinet call=answer number=",
            small(number),
        );
        print_bytes(self.streams, b" reply=", reply);
        let mut told = [self.len, 0, 0];
        let code = koy_guarded_responder_answer(
            &mut self.cabinet,
            &mut self.guard,
            number,
            now,
            reply,
            &mut self.line,
            &mut told,
        );
        self.print_cabinet(code, told, b"");
        self.len = told[0];
    }
}

fn play(streams: &Streams) {
    let mut plant = Plant::new(streams);
    plant.head_end_submits(1, b"open-17");
    plant.cabinet_hears(2);
    plant.head_end_hears(3);
    plant.cabinet_hears(4);
    plant.head_end_hears_nothing(5);
    plant.head_end_submits(6, b"close-18");
    plant.cabinet_hears(7);
    plant.head_end_hears(8);
    plant.cabinet_hears(9);
    plant.cabinet_answers(10, 1, b"opened-17");
    plant.cabinet_answers(11, 2, b"closed-18");
    plant.head_end_hears(12);
}

fn main(rt: HostRuntime) -> io::Result<()> {
    let streams = Streams::new(rt.stdin(), rt.stdout(), rt.stderr());
    print(
        &streams,
        b"scene=slow_cabinet_by_number tries=1\nabout=the application answers the first order when the second is handed up, by its number: refused, and the second is confirmed with its own reply\n",
    );
    play(&streams);
    print(&streams, b"\nscene=slow_cabinet_by_number\n");
    streams.end()
}
