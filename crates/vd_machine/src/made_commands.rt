//! The control queue of a machine that is made.
ghost use Rattle.std.specs.Prelude.{◌≡◌, ◌≤◌, length, IfOk};
ghost use Rattle.vd_machine.specs.Commands.{command_with, control_script};
ghost use Rattle.vd_machine.specs.Made.{made_commands};

use arrayvec::ArrayVec;
use sqlite_items::Items;
use std::alloc::{AllocError, Global};
use vd_model::Script;

fn command_with(bytes: &[u8]) -> ArrayVec<u8, 10>
    requires { length bytes.now ≤ 10 }
    ensures { result ≡ command_with bytes.now }
{
    let mut command = ArrayVec::new();
    for byte in bytes {
        command.push(*byte);
    }
    command
}

/// The script of the two commands: the MAC address 52:54:00:12:34:56, and the VLAN 7 is added.
pub fn made_control(alloc: Global) -> Result<Script, AllocError>
    ensures { IfOk result (λ q. q ≡ control_script made_commands) }
{
    let mut commands = Vec::with_capacity(alloc, 2)?;
    commands.push(command_with(&[0x01, 0x01, 0x52, 0x54, 0x00, 0x12, 0x34, 0x56]))?;
    commands.push(command_with(&[0x02, 0x00, 0x07, 0x00]))?;
    Ok(Script {
        runs: Items::new(alloc),
        commands: Items::from_vec(commands),
    })
}
