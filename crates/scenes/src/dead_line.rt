// A line that is dead: where it takes no opening, the order is reported as not sent; where it dies behind the opening, as unknown.
//
// States two tries: the second silence of each phase is its end.
ghost use Rattle.std.specs.Prelude.{◌≡◌};
ghost use Rattle.scenes.specs.Scenes.{dead_line};
ghost use Rattle.stage.specs.Rows.{played};

use line_text::printing::Streams;
use stage::Stage;
use stage::scenes::{
    head_end_hears_nothing, head_end_submits, line_loses, open_scene_with_tries, opening_passes,
};

pub(crate) fn steps(streams: &Streams) -> Stage
    ensures { result ≡ played 2 dead_line }
{
    let mut stage = open_scene_with_tries(
        streams,
        b"dead_line",
        b"the line is dead, then lives for one opening and dies again",
        2,
    );
    stage = head_end_submits(streams, stage, b"open-17");
    stage = line_loses(streams, stage);
    stage = head_end_hears_nothing(streams, stage);
    stage = line_loses(streams, stage);
    stage = head_end_hears_nothing(streams, stage);
    stage = head_end_submits(streams, stage, b"open-18");
    stage = opening_passes(streams, stage);
    stage = line_loses(streams, stage);
    stage = head_end_hears_nothing(streams, stage);
    stage = line_loses(streams, stage);
    stage = head_end_hears_nothing(streams, stage);
    stage
}
