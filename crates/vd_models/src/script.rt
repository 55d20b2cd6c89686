//! A copy of a script, and how much is in it.
ghost use Rattle.std.specs.Prelude.{◌≡◌, IfOk};
ghost use Rattle.vd_bus.specs.Scripts.{IsScript};
ghost use Rattle.vd_models.specs.Driving.{scripted};

use crate::cursor::count;
use arrayvec::ArrayVec;
use sqlite_items::Items;
use std::alloc::{AllocError, Global};
use vd_model::{Run, Script};

/// The same script again.
pub(crate) fn copy_script(alloc: Global, script: &Script) -> Result<Script, AllocError>
    ensures { IfOk result (λ s. s ≡ script.now) }
{
    Ok(Script {
        runs: copy_runs(alloc, script.runs.as_slice())?,
        commands: copy_commands(alloc, script.commands.as_slice())?,
    })
}

/// How many chains the script has, or commands where it has some.
pub(crate) fn total(script: &Script) -> u32
    requires { IsScript script.now }
    ensures { result ≡ scripted script.now }
{
    let commands = script.commands.as_slice();
    if commands.is_empty() {
        count(script.runs.as_slice())
    } else {
        commands.len() as u32
    }
}

fn copy_runs(alloc: Global, runs: &[Run]) -> Result<Items<Run>, AllocError>
    ensures { IfOk result (λ copy. copy ≡ runs.now) }
{
    let mut copy = Vec::with_capacity(alloc, runs.len())?;
    for run in runs {
        copy.push(Run {
            count: run.count,
            chain: run.chain.copy(),
        })?;
    }
    Ok(Items::from_vec(copy))
}

fn copy_commands(
    alloc: Global,
    commands: &[ArrayVec<u8, 10>],
) -> Result<Items<ArrayVec<u8, 10>>, AllocError>
    ensures { IfOk result (λ copy. copy ≡ commands.now) }
{
    let mut copy = Vec::with_capacity(alloc, commands.len())?;
    for command in commands {
        copy.push(copy_bytes(command))?;
    }
    Ok(Items::from_vec(copy))
}

fn copy_bytes(bytes: &ArrayVec<u8, 10>) -> ArrayVec<u8, 10>
    ensures { result ≡ bytes.now }
{
    let mut copy = ArrayVec::new();
    for byte in bytes.as_slice() {
        copy.push(*byte);
    }
    copy
}
