//! The lane of a queue, by epochs: still, passing or shadowing. Each state owns the device's end of the guest's ring or has lent it to the
//! device or the relay, so that a lane is never in two of them.
#![tactic(auto)]

pub mod command_laws;
pub mod command_step_laws;
pub mod control_laws;
pub mod control_settling_laws;
pub mod control_sleeping_laws;
pub mod control_step_laws;
mod fault;
mod kit;
pub mod laws;
mod passing;
mod shadowing;
mod still;

pub use fault::DeviceFault;
pub use kit::Kit;
pub use passing::Passing;
pub use shadowing::Shadowing;
pub use still::Still;
