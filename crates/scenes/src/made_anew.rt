// Both ends lose their records while a telegram is in flight. The head end's, with its order in flight: nobody is left to report the
// order, which stays pending and is carried out once. The cabinet's, with the next opening in flight: it hears the opening all the same.
//
// Nothing is lost here, so that one try is enough: every default number of tries gives these telegrams.
ghost use Rattle.std.specs.Prelude.{◌≡◌};
ghost use Rattle.link_rules.specs.Rules.{default_tries};
ghost use Rattle.scenes.specs.Scenes.{made_anew};
ghost use Rattle.stage.specs.Rows.{played};

use line_text::printing::Streams;
use stage::Stage;
use stage::scenes::{
    cabinet_answers, cabinet_hears, cabinet_made_anew, head_end_hears, head_end_restarts,
    head_end_submits, open_scene, opening_passes, order_passes,
};

pub(crate) fn steps(streams: &Streams) -> Stage
    ensures { result ≡ played default_tries made_anew }
{
    let mut stage = open_scene(
        streams,
        b"made_anew",
        b"each end's record is made anew while a telegram is in flight: the first order is carried out once and never reported",
    );
    stage = head_end_submits(streams, stage, b"open-17");
    stage = opening_passes(streams, stage);
    stage = head_end_restarts(streams, stage);
    stage = cabinet_hears(streams, stage);
    stage = cabinet_answers(streams, stage, b"opened-17");
    stage = head_end_hears(streams, stage);
    stage = head_end_submits(streams, stage, b"open-18");
    stage = cabinet_made_anew(streams, stage);
    stage = opening_passes(streams, stage);
    stage = order_passes(streams, stage, b"opened-18");
    stage
}
