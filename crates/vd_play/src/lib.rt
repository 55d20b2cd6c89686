//! Plays a machine over the guests and devices of a bench.
#![tactic(auto)]

mod alone;
mod bench;
mod calls;
mod command_attach;
mod command_count;
mod command_end;
mod command_epochs;
mod command_kits;
mod command_lane;
mod command_preparing;
mod command_rounds;
mod control_ring;
mod epoch;
mod floor;
mod guests_alone;
mod lane;
mod messages;
mod order;
mod playing;
mod preparing;
mod relaying;
mod renewing;
mod ring_addr;
mod rounds;
mod setup;
mod shadows;
mod tree;

pub use bench::Bench;
pub use command_lane::CommandLane;
pub use epoch::PlayFault;
pub use floor::Floor;
pub use playing::play_machine;
pub use preparing::prepare;
