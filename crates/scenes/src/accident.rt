// The customer's accident: the head end restarts between two orders. Its second order then bears the same bit as its first, and the
// cabinet still holds the first one's reply; since the restarted head end opens the link anew, the second order is carried out and
// shows its own reply.
//
// Nothing is lost here, so that one try is enough: every default number of tries gives these telegrams.
ghost use Rattle.std.specs.Prelude.{◌≡◌};
ghost use Rattle.link_rules.specs.Rules.{default_tries};
ghost use Rattle.scenes.specs.Scenes.{accident};
ghost use Rattle.stage.specs.Rows.{played};

use line_text::printing::Streams;
use stage::Stage;
use stage::scenes::{
    head_end_restarts, head_end_submits, open_scene, opening_passes, order_passes,
};

pub(crate) fn steps(streams: &Streams) -> Stage
    ensures { result ≡ played default_tries accident }
{
    let mut stage = open_scene(
        streams,
        b"accident",
        b"the head end restarts between two orders, and each order shows its own reply",
    );
    stage = head_end_submits(streams, stage, b"open-17");
    stage = opening_passes(streams, stage);
    stage = order_passes(streams, stage, b"opened-17");
    stage = head_end_restarts(streams, stage);
    stage = head_end_submits(streams, stage, b"close-18");
    stage = opening_passes(streams, stage);
    stage = order_passes(streams, stage, b"closed-18");
    stage
}
