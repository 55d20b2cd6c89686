//! A device that refused its attach.
use crate::kit::Kit;
use crate::still::Still;
use vd_layout::Layout;

/// What a lane hands back where its device refused to be attached: the lane as it was, and the kit of an epoch of the mode shadow.
#[derive(Drop)]
pub struct DeviceFault<L: Layout> {
    pub lane: Still<L>,
    pub kit: Option<Kit<L>>,
}
