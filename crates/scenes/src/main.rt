// Plays scenes of the order link. The scenes' names stand on standard input, one a line; an empty line is passed over. (The scene with the
// guarded ends is a program of its own, `slow_cabinet_by_number`.)
#![tactic(auto)]

mod accident;
mod cabinet_restart;
mod dead_line;
mod five_orders;
mod lost_reply;
mod made_anew;
mod restart_in_opening;
mod restart_in_order;
mod slow_cabinet;

use line_text::bytes::front;
use line_text::printing::{Streams, is_readable, print, print_error, read_full};
use stage::scenes::close_scene;
use std::io;

// The longest input.
const NAMES: usize = 1024;

fn no_scene(streams: &Streams, name: &[u8]) {
    print(streams, b"error=no-scene name=");
    print(streams, name);
    print(streams, b"\n");
}

// The scene of this name; an empty line has none.
fn play(streams: &Streams, name: &[u8]) {
    let stage = match name {
        b"accident" => accident::steps(streams),
        b"lost_reply" => lost_reply::steps(streams),
        b"cabinet_restart" => cabinet_restart::steps(streams),
        b"five_orders" => five_orders::steps(streams),
        b"dead_line" => dead_line::steps(streams),
        b"restart_in_opening" => restart_in_opening::steps(streams),
        b"restart_in_order" => restart_in_order::steps(streams),
        b"made_anew" => made_anew::steps(streams),
        b"slow_cabinet" => slow_cabinet::steps(streams),
        [] => return,
        _ => return no_scene(streams, name),
    };
    close_scene(streams, name, stage);
}

fn main(rt: HostRuntime) -> io::Result<()> {
    let streams = Streams::new(rt.stdin(), rt.stdout(), rt.stderr());
    let mut names = [0; NAMES + 1];
    let n = read_full(&streams, &mut names);
    if NAMES < n {
        print(&streams, b"error=more-than-1024-bytes\n");
        return streams.end();
    }
    if !is_readable(&streams) {
        print_error(&streams, b"scenes: standard input cannot be read\n");
        return streams.end();
    }
    for name in front(&names, n).split(|b| *b == b'\n') {
        play(&streams, name);
    }
    streams.end()
}
