//! The layout of a packed ring.
ghost use Rattle.std.specs.Prelude.{◌≡◌, ◌≤◌};
ghost use Rattle.vd_packed.specs.laws.PackedLayout.{packed_layout, packed_laws};
ghost use Rattle.vd_packed.specs.RingPositions.{commands_area, acks_area, all_words};

use crate::device::PackedDevice;
use crate::driver::PackedDriver;
use std::alloc::{AllocError, Global};
use vd_layout::Layout;
use vd_model::{Base, Features};

/// The layout of VIRTIO 1.2, 2.8: descriptors, and an event word of each side; here with commands, acks and two bells
/// behind them.
pub struct Packed;

impl Layout for Packed {
    type Driver = PackedDriver;

    type Device = PackedDevice;

    ghost layout = { packed_layout };

    ghost lawful = { packed_laws };

    fn words(size: u32, f: Features, control: bool) -> u32 {
        all_words(size, f.indirect, control)
    }

    fn make(
        alloc: Global,
        size: u32,
        f: Features,
        control: bool,
    ) -> Result<(PackedDriver, PackedDevice), AllocError> {
        let driver = PackedDriver::make(alloc, size, f, control)?;
        let device = PackedDevice::make(alloc, size, f, control)?;
        Ok((driver, device))
    }

    fn lawful_size(size: u32) -> bool {
        2 <= size && size <= 1024
    }

    fn fresh_base() -> Base {
        Base(0x8000_8000)
    }

    fn lawful_base(size: u32, b: Base) -> bool {
        b.0 % 0x8000 < size && b.0 / 0x1_0000 % 0x8000 < size
    }

    fn command_word(size: u32, f: Features, head: u32) -> u32 {
        commands_area(size, f.indirect) + 2 * head
    }

    fn ack_word(size: u32, f: Features, head: u32) -> u32 {
        acks_area(size, f.indirect, true) + head
    }
}

/// The first command word. The tables, which INDIRECT_DESC brings, stand before it.
fn commands_area(size: u32, indirect: bool) -> u32
    requires { size ≤ 32768 }
    ensures { result ≡ commands_area size indirect }
{
    let tables = if indirect { 32 * size } else { 0 };
    2 * size + 2 + tables
}

/// The first ack word.
fn acks_area(size: u32, indirect: bool, control: bool) -> u32
    requires { size ≤ 32768 }
    ensures { result ≡ acks_area size indirect control }
{
    let commands = if control { 2 * size } else { 0 };
    commands_area(size, indirect) + commands
}

/// How many words there are: behind the acks stand two bells.
pub(crate) fn all_words(size: u32, indirect: bool, control: bool) -> u32
    requires { size ≤ 32768 }
    ensures { result ≡ all_words size indirect control }
{
    let acks = if control { size } else { 0 };
    acks_area(size, indirect, control) + acks + 2
}
