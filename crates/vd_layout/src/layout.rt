//! A layout of a ring.
ghost use Rattle.std.specs.Prelude.{◌≡◌, ◌<◌, IfOk, true};
ghost use Rattle.vd_ring.specs.declared.frame.Frame.{Frame};
ghost use Rattle.vd_layout.specs.Layout.{LayoutModel, IsMadeWith, CanMake, IsFresh, IsLawfulLayout};

use crate::device::DeviceEnd;
use crate::driver::DriverEnd;
use std::alloc::{AllocError, Global};
use vd_model::{Base, Features};

/// A layout of a ring: how its words lie, and the two ends that work on them.
pub trait Layout {
    type Driver: DriverEnd;

    type Device: DeviceEnd;

    ghost layout: { LayoutModel };

    /// The number of words of a ring.
    fn words(size: u32, f: Features, control: bool) -> u32
        requires { CanMake layout size f }
        ensures { (g : Frame) → IsMadeWith layout size f control g → result ≡ layout.width g };

    /// Both ends of a fresh ring, whose words are all 0.
    fn make(
        alloc: Global,
        size: u32,
        f: Features,
        control: bool,
    ) -> Result<(Self::Driver, Self::Device), AllocError>
        requires { CanMake layout size f }
        ensures { IfOk result (λ r. IsFresh Self.Driver.driver Self.Device.device layout size f control r.0 r.1) };

    /// Whether a ring of this layout may have so many places.
    fn lawful_size(size: u32) -> bool
        ensures { result ≡ layout.lawful_size size };

    /// The base of a fresh ring.
    fn fresh_base() -> Base
        ensures { result.0 ≡ layout.fresh_base };

    /// Whether a ring with so many places may have this base.
    fn lawful_base(size: u32, b: Base) -> bool
        ensures { result ≡ layout.lawful_base size b.0 };

    /// The first of the two command words of a head, on a control ring.
    fn command_word(size: u32, f: Features, head: u32) -> u32
        requires lawful { layout.lawful_size size ≡ true }
        requires inside { head < size }
        ensures { (g : Frame) → IsMadeWith layout size f true g → result ≡ layout.words.command g head };

    /// The ack word of a head, on a control ring.
    fn ack_word(size: u32, f: Features, head: u32) -> u32
        requires lawful { layout.lawful_size size ≡ true }
        requires inside { head < size }
        ensures { (g : Frame) → IsMadeWith layout size f true g → result ≡ layout.words.ack g head };

    ghost lawful: { IsLawfulLayout Self.Driver.driver Self.Device.device layout };
}
