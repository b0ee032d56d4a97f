// A cabinet whose application is slow. The first order is handed up and not answered, and the head end reports it as unknown. The second
// is submitted, opens the link anew and is handed up; then the application finishes the first order and answers. Document 01 says
// that "an order's reply is the first answer accepted after it was handed up": so this answer is the second order's reply, and the
// head end shows the second order as confirmed with what the application said of the first.
//
// The link keeps its word here: each order was carried out at most once, and what is shown is the answer given after the order was handed
// up. An answer does not say which order it is for, so that no end can tell. With the guarded ends it does: `slow_cabinet_by_number`.
//
// States one try: the first silence of the order's phase is its end.
ghost use Rattle.std.specs.Prelude.{◌≡◌};
ghost use Rattle.scenes.specs.Scenes.{slow_cabinet};
ghost use Rattle.stage.specs.Rows.{played};

use line_text::printing::Streams;
use stage::Stage;
use stage::scenes::{
    cabinet_answers, cabinet_hears, head_end_hears, head_end_hears_nothing, head_end_submits,
    open_scene_with_tries, opening_passes,
};

pub(crate) fn steps(streams: &Streams) -> Stage
    ensures { result ≡ played 1 slow_cabinet }
{
    let mut stage = open_scene_with_tries(
        streams,
        b"slow_cabinet",
        b"the application answers the first order when the second is handed up; document 01 allows it: the second is confirmed with the first one's reply",
        1,
    );
    stage = head_end_submits(streams, stage, b"open-17");
    stage = opening_passes(streams, stage);
    stage = cabinet_hears(streams, stage);
    stage = head_end_hears_nothing(streams, stage);
    stage = head_end_submits(streams, stage, b"close-18");
    stage = opening_passes(streams, stage);
    stage = cabinet_hears(streams, stage);
    stage = cabinet_answers(streams, stage, b"opened-17");
    stage = head_end_hears(streams, stage);
    stage
}
