// Five orders in a row over one opening, the third of them and its reply as long as the link carries.
//
// Nothing is lost here, so that one try is enough: every default number of tries gives these telegrams.
ghost use Rattle.std.specs.Prelude.{◌≡◌};
ghost use Rattle.link_rules.specs.Rules.{default_tries};
ghost use Rattle.scenes.specs.Scenes.{five_orders};
ghost use Rattle.stage.specs.Rows.{played};

use line_text::printing::Streams;
use stage::Stage;
use stage::scenes::{head_end_submits, open_scene, opening_passes, order_passes};

pub(crate) fn steps(streams: &Streams) -> Stage
    ensures { result ≡ played default_tries five_orders }
{
    let mut stage = open_scene(
        streams,
        b"five_orders",
        b"five orders in a row, the third and its reply of 246 bytes",
    );
    stage = head_end_submits(streams, stage, b"open-17");
    stage = opening_passes(streams, stage);
    stage = order_passes(streams, stage, b"opened-17");
    stage = head_end_submits(streams, stage, b"close-18");
    stage = order_passes(streams, stage, b"closed-18");
    stage = head_end_submits(streams, stage, &[b'T'; 246]);
    stage = order_passes(streams, stage, &[b't'; 246]);
    stage = head_end_submits(streams, stage, b"open-20");
    stage = order_passes(streams, stage, b"opened-20");
    stage = head_end_submits(streams, stage, b"?");
    stage = order_passes(streams, stage, b"");
    stage
}
