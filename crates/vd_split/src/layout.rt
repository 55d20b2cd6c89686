//! The layout of a split ring.
ghost use Rattle.std.specs.Prelude.{◌≡◌, ◌≤◌};
ghost use Rattle.vd_split.specs.laws.SplitLayout.{split_layout, split_laws};
ghost use Rattle.vd_split.specs.Parts.{commands_area, acks_area, all_words};

use crate::descriptors::used_area;
use crate::device::SplitDevice;
use crate::driver::SplitDriver;
use std::alloc::{AllocError, Global};
use vd_layout::Layout;
use vd_model::{Base, Features};

/// The layout of VIRTIO 1.2, 2.7: descriptors, a driver area and a device area; here with commands, acks and two bells
/// behind them.
pub struct Split;

impl Layout for Split {
    type Driver = SplitDriver;

    type Device = SplitDevice;

    ghost layout = { split_layout };

    ghost lawful = { split_laws };

    fn words(size: u32, f: Features, control: bool) -> u32 {
        all_words(size, f.indirect, control)
    }

    fn make(
        alloc: Global,
        size: u32,
        f: Features,
        control: bool,
    ) -> Result<(SplitDriver, SplitDevice), AllocError> {
        let driver = SplitDriver::make(alloc, size, f, control)?;
        let device = SplitDevice::make(alloc, size, f, control)?;
        Ok((driver, device))
    }

    fn lawful_size(size: u32) -> bool {
        matches!(size, 2 | 4 | 8 | 16 | 32 | 64 | 128 | 256 | 512 | 1024)
    }

    fn fresh_base() -> Base {
        Base(0)
    }

    fn lawful_base(size: u32, b: Base) -> bool {
        let _ = size;
        b.0 <= 65535
    }

    fn command_word(size: u32, f: Features, head: u32) -> u32 {
        commands_area(size, f.indirect) + 2 * head
    }

    fn ack_word(size: u32, f: Features, head: u32) -> u32 {
        acks_area(size, f.indirect, true) + head
    }
}

/// The first command word. The tables, which INDIRECT_DESC brings, stand before it.
fn commands_area(size: u32, indirect: bool) -> u32
    requires { size ≤ 32768 }
    ensures { result ≡ commands_area size indirect }
{
    let tables = if indirect { 32 * size } else { 0 };
    used_area(size) + size + 1 + tables
}

/// The first ack word.
fn acks_area(size: u32, indirect: bool, control: bool) -> u32
    requires { size ≤ 32768 }
    ensures { result ≡ acks_area size indirect control }
{
    let commands = if control { 2 * size } else { 0 };
    commands_area(size, indirect) + commands
}

/// How many words there are: behind the acks stand two bells.
pub(crate) fn all_words(size: u32, indirect: bool, control: bool) -> u32
    requires { size ≤ 32768 }
    ensures { result ≡ all_words size indirect control }
{
    let acks = if control { size } else { 0 };
    acks_area(size, indirect, control) + acks + 2
}
