// A first reply that is lost: the head end sends the order once more, and the cabinet, which has carried it out, repeats the held reply.
//
// One telegram is lost, so that two tries are enough: every default from two on gives these telegrams.
ghost use Rattle.std.specs.Prelude.{◌≡◌};
ghost use Rattle.link_rules.specs.Rules.{default_tries};
ghost use Rattle.scenes.specs.Scenes.{lost_reply};
ghost use Rattle.stage.specs.Rows.{played};

use line_text::printing::Streams;
use stage::Stage;
use stage::scenes::{
    cabinet_answers, cabinet_hears, head_end_hears, head_end_hears_nothing, head_end_submits,
    line_loses, open_scene, opening_passes,
};

pub(crate) fn steps(streams: &Streams) -> Stage
    ensures { result ≡ played default_tries lost_reply }
{
    let mut stage = open_scene(
        streams,
        b"lost_reply",
        b"the first reply is lost, and the order sent again is not carried out again",
    );
    stage = head_end_submits(streams, stage, b"open-17");
    stage = opening_passes(streams, stage);
    stage = cabinet_hears(streams, stage);
    stage = cabinet_answers(streams, stage, b"opened-17");
    stage = line_loses(streams, stage);
    stage = head_end_hears_nothing(streams, stage);
    stage = cabinet_hears(streams, stage);
    stage = head_end_hears(streams, stage);
    stage
}
