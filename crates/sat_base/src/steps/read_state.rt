//! The state of a reader of steps.
ghost use Rattle.sat_base.specs.device.ReadRoom.{unread, HasCapacityFor};

use crate::device::ahead::Ahead;
use crate::steps::step_lists::Lists;

/// The bytes that were read ahead, and the lists of the current step.
#[derive(Drop)]
pub(crate) struct ReadState {
    pub(crate) ahead: Ahead,
    pub(crate) lists: Lists,
    // Every byte that was read ahead may be an item of a list.
    pub(crate) ghost room: { HasCapacityFor lists (unread ahead) },
}
