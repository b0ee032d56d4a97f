// A head end that restarts while its opening is in flight: the pending order is reported as not sent. The cabinet hears the opening after
// the restart and answers it; the head end has nothing pending and ignores the reply. The order itself was never written, and is never
// carried out.
//
// The restart comes at the first try, so that every default number of tries gives these telegrams.
ghost use Rattle.std.specs.Prelude.{◌≡◌};
ghost use Rattle.link_rules.specs.Rules.{default_tries};
ghost use Rattle.scenes.specs.Scenes.{restart_in_opening};
ghost use Rattle.stage.specs.Rows.{played};

use line_text::printing::Streams;
use stage::Stage;
use stage::scenes::{
    cabinet_hears, head_end_calls_restart, head_end_hears, head_end_submits, open_scene,
    opening_passes, order_passes,
};

pub(crate) fn steps(streams: &Streams) -> Stage
    ensures { result ≡ played default_tries restart_in_opening }
{
    let mut stage = open_scene(
        streams,
        b"restart_in_opening",
        b"the head end restarts while its opening is in flight: the order is not sent, and never carried out",
    );
    stage = head_end_submits(streams, stage, b"open-17");
    stage = head_end_calls_restart(streams, stage);
    stage = cabinet_hears(streams, stage);
    stage = head_end_hears(streams, stage);
    stage = head_end_submits(streams, stage, b"open-18");
    stage = opening_passes(streams, stage);
    stage = order_passes(streams, stage, b"opened-18");
    stage
}
