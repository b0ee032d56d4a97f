// A cabinet that restarts between opening and order: it has forgotten the link's bit, takes no order, and the head end reports the order
// as unknown. The next order opens the link anew and is carried out.
//
// States two tries: the second silence of the order's phase is its end.
ghost use Rattle.std.specs.Prelude.{◌≡◌};
ghost use Rattle.scenes.specs.Scenes.{cabinet_restart};
ghost use Rattle.stage.specs.Rows.{played};

use line_text::printing::Streams;
use stage::Stage;
use stage::scenes::{
    cabinet_hears, cabinet_restarts, head_end_hears_nothing, head_end_submits, line_loses,
    open_scene_with_tries, opening_passes, order_passes,
};

pub(crate) fn steps(streams: &Streams) -> Stage
    ensures { result ≡ played 2 cabinet_restart }
{
    let mut stage = open_scene_with_tries(
        streams,
        b"cabinet_restart",
        b"the cabinet restarts between opening and order, and takes orders again once the link is opened anew",
        2,
    );
    stage = head_end_submits(streams, stage, b"open-17");
    stage = opening_passes(streams, stage);
    stage = line_loses(streams, stage);
    stage = cabinet_restarts(streams, stage);
    stage = head_end_hears_nothing(streams, stage);
    stage = cabinet_hears(streams, stage);
    stage = head_end_hears_nothing(streams, stage);
    stage = head_end_submits(streams, stage, b"open-18");
    stage = opening_passes(streams, stage);
    stage = order_passes(streams, stage, b"opened-18");
    stage
}
