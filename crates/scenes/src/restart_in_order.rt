// A head end that restarts while its order is in flight: the order is reported as unknown, and the cabinet hears it after that, carries
// it out once and answers. The late reply is no second outcome, and the next order shows its own.
//
// The restart comes at the first try, so that every default number of tries gives these telegrams.
ghost use Rattle.std.specs.Prelude.{◌≡◌};
ghost use Rattle.link_rules.specs.Rules.{default_tries};
ghost use Rattle.scenes.specs.Scenes.{restart_in_order};
ghost use Rattle.stage.specs.Rows.{played};

use line_text::printing::Streams;
use stage::Stage;
use stage::scenes::{
    cabinet_answers, cabinet_hears, head_end_calls_restart, head_end_hears, head_end_submits,
    open_scene, opening_passes, order_passes,
};

pub(crate) fn steps(streams: &Streams) -> Stage
    ensures { result ≡ played default_tries restart_in_order }
{
    let mut stage = open_scene(
        streams,
        b"restart_in_order",
        b"the head end restarts while its order is in flight: it reports unknown, and the order is carried out once, afterwards",
    );
    stage = head_end_submits(streams, stage, b"open-17");
    stage = opening_passes(streams, stage);
    stage = head_end_calls_restart(streams, stage);
    stage = cabinet_hears(streams, stage);
    stage = cabinet_answers(streams, stage, b"opened-17");
    stage = head_end_hears(streams, stage);
    stage = head_end_submits(streams, stage, b"open-18");
    stage = opening_passes(streams, stage);
    stage = order_passes(streams, stage, b"opened-18");
    stage
}
