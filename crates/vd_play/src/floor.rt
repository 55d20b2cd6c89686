//! The rings on which a machine is played.
use vd_iova::IovaTree;
use vd_layout::Layout;
use vd_switch::{Kit, Shadowing};
use vd_words::PlainWords;

/// A shadow ring of an epoch to come: its words, and what a lane needs for it.
#[derive(Drop)]
pub struct ShadowRing<L: Layout> {
    pub(crate) words: PlainWords,
    pub(crate) kit: Kit<L>,
}

/// A lane in a shadow epoch: its relay, which holds the device's end of the guest's ring, and the words of the shadow ring.
#[derive(Drop)]
pub struct Relaying<L: Layout> {
    pub(crate) lane: Shadowing<L>,
    pub(crate) words: PlainWords,
}

/// The guest's ring of a queue. While neither the device nor a relay holds its device's end, that end rests here.
#[derive(Drop)]
pub struct Lane<L: Layout> {
    pub(crate) words: PlainWords,
    pub(crate) still: Option<L::Device>,
    pub(crate) relaying: Option<Relaying<L>>,
    /// The shadow rings of the epochs to come, the next one last.
    pub(crate) kits: Vec<ShadowRing<L>>,
    /// How many steps its relays have made that were no looks.
    pub(crate) relayed: u64,
}

/// The rings of all queues, in the machine's order, and where the regions lie in a shadow epoch. `prepare` makes it, and
/// `play_machine` takes it.
#[derive(Drop)]
pub struct Floor<L: Layout> {
    pub(crate) lanes: Vec<Lane<L>>,
    pub(crate) tree: IovaTree,
}
