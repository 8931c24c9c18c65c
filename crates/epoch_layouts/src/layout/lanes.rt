//! The lanes of a picture.
ghost use Rattle.std.specs.Prelude.{◌≡◌};
ghost use Rattle.epoch_layouts.specs.Told.{lanes_told, lanes_with};

use crate::Moment;
use epoch_world::Reply;

/// How many positions there are from 0 to the greatest one that was ever taken.
pub fn participants_of(moments: &[Moment]) -> u32
    ensures { result ≡ lanes_told moments.now }
{
    let mut lanes = 0;
    for moment in moments {
        lanes = lanes_with(lanes, moment.reply);
    }
    lanes
}

/// The greater of `lanes` and the number of lanes that this reply tells of.
fn lanes_with(lanes: u32, reply: Reply) -> u32
    ensures { result ≡ lanes_with lanes reply }
{
    let Reply::Registered(position) = reply else {
        return lanes;
    };
    match u32::try_from(position) {
        Ok(position) if position < u32::MAX => lanes.max(position + 1),
        _ => u32::MAX,
    }
}
