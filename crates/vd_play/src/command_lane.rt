//! The lane of the control queue.
ghost use Rattle.std.specs.Prelude.{◌≡◌, is_some};
ghost use Rattle.vd_play.specs.CommandRounds.{is_replayed};

use crate::floor::{Relaying, ShadowRing};
use vd_layout::Layout;
use vd_switch::Still;
use vd_words::PlainWords;

/// The guest's ring of the control queue. In every epoch, the closing one too, a relay carries its commands to the epoch's shadow ring,
/// which the device serves. Between two epochs the device's end of the guest's ring rests here, with the settings of the commands
/// acknowledged.
#[derive(Drop)]
pub struct CommandLane<L: Layout> {
    pub(crate) words: PlainWords,
    pub(crate) still: Option<Still<L>>,
    pub(crate) relaying: Option<Relaying<L>>,
    /// The shadow rings of the epochs to come, the next one last.
    pub(crate) kits: Vec<ShadowRing<L>>,
    /// How many steps its relays have made that were no looks.
    pub(crate) relayed: u64,
}

impl<L: Layout> CommandLane<L> {
    /// Whether it is still.
    pub(crate) fn is_still(&self) -> bool
        ensures { result ≡ is_some self.now.still }
    {
        self.still.is_some()
    }

    /// Whether each command that the epoch's relay replays was acknowledged, or the lane has come to the epoch's end.
    pub(crate) fn replayed(&self) -> bool
        ensures { result ≡ is_replayed self.now.relaying }
    {
        match &self.relaying {
            Some(relaying) => relaying.lane.replayed(),
            None => true,
        }
    }
}
