//! One party's turn: single accesses of plain words, until it looked, is done, or has made as many as were drawn.
ghost use Rattle.std.specs.Prelude.{◌≡◌, ◌≤◌, ℕ, List};
ghost use Rattle.vd_ring.specs.declared.device.DeviceView.{DeviceView};
ghost use Rattle.vd_ring.specs.declared.driver.DriverView.{DriverView};
ghost use Rattle.vd_turns.specs.Turns.{CanDrive, CanServe, GuestOn, GuestSteps, GuestTurns, DeviceOn, DeviceSteps, DeviceTurns};

use crate::draws::Draws;
use vd_bus::{Device, Guest};
use vd_layout::{Layout, Move};
use vd_words::{PlainPort, PlainWords, Port};

#[inline(always)]
fn guest_access<L: Layout, G: Guest<L>, P: Port>(port: &mut P, guest: &mut G) -> Move
    requires live { ¬ (G.party.is_done guest.old) }
    requires on { (ws : List ℕ) × P.port.plain port.old ws × CanDrive L.layout G.party ws guest.old }
    ensures { (ws : List ℕ) (v : DriverView) (w : DeviceView) → P.port.plain port.old ws → L.layout.ring ws v w → G.party.holds guest.old v
        → GuestOn P.port L.layout G.party port.old port.new v w guest.old guest.new result }
{
    guest.step(port)
}

#[inline(always)]
fn device_access<L: Layout, V: Device<L>, P: Port>(port: &mut P, device: &mut V) -> Move
    requires live { ¬ (V.party.is_done device.old) }
    requires on { (ws : List ℕ) × P.port.plain port.old ws × CanServe L.layout V.party ws device.old }
    ensures { (ws : List ℕ) (v : DriverView) (w : DeviceView) → P.port.plain port.old ws → L.layout.ring ws v w → V.party.holds device.old w
        → DeviceOn P.port L.layout V.party port.old port.new v w device.old device.new result }
{
    device.step(port)
}

/// One step of a guest.
#[inline(always)]
fn guest_step<L: Layout, G: Guest<L>>(words: &mut PlainWords, guest: &mut G) -> Move
    requires live { ¬ (G.party.is_done guest.old) }
    requires on { CanDrive L.layout G.party words.old.words guest.old }
    ensures ring { words.new.ring ≡ words.old.ring }
    ensures step { GuestSteps L.layout G.party words.old.words words.new.words guest.old guest.new result }
{
    let mut port = words.port();
    guest_access::<L, G, PlainPort<'_>>(&mut port, guest)
}

/// One step of a device.
#[inline(always)]
fn device_step<L: Layout, V: Device<L>>(words: &mut PlainWords, device: &mut V) -> Move
    requires live { ¬ (V.party.is_done device.old) }
    requires on { CanServe L.layout V.party words.old.words device.old }
    ensures ring { words.new.ring ≡ words.old.ring }
    ensures step { DeviceSteps L.layout V.party words.old.words words.new.words device.old device.new result }
{
    let mut port = words.port();
    device_access::<L, V, PlainPort<'_>>(&mut port, device)
}

/// A guest's turn of as many steps as are drawn. It answers how many of its steps were no look of a sleeper.
#[inline(never)]
fn guest_drawn<L: Layout, G: Guest<L>>(
    words: &mut PlainWords,
    guest: &mut G,
    draws: &mut Draws,
) -> u64
    requires on { CanDrive L.layout G.party words.old.words guest.old }
    ensures few { result ≤ 4 }
    ensures ring { words.new.ring ≡ words.old.ring }
    ensures turn { GuestTurns L.layout G.party words.old.words words.new.words guest.old guest.new result }
{
    if guest.done() {
        return 0;
    }
    let most = draws.steps();
    for made in 0..most {
        match guest_step::<L, G>(words, guest) {
            Move::Looked => return made,
            Move::Finished => return made + 1,
            Move::Worked => {}
        }
    }
    most
}

/// The same of a device that is not done.
#[inline(never)]
fn device_drawn<L: Layout, V: Device<L>>(
    words: &mut PlainWords,
    device: &mut V,
    draws: &mut Draws,
) -> u64
    requires live { ¬ (V.party.is_done device.old) }
    requires on { CanServe L.layout V.party words.old.words device.old }
    ensures few { result ≤ 4 }
    ensures ring { words.new.ring ≡ words.old.ring }
    ensures turn { DeviceTurns L.layout V.party words.old.words words.new.words device.old device.new result }
{
    let most = draws.steps();
    for made in 0..most {
        match device_step::<L, V>(words, device) {
            Move::Looked => return made,
            Move::Finished => return made + 1,
            Move::Worked => {}
        }
    }
    most
}

/// A guest's turn of one step. It answers whether that was no look of a sleeper, 0 for a look and for a guest that is done.
#[inline(always)]
pub fn guest_once<L: Layout, G: Guest<L>>(words: &mut PlainWords, guest: &mut G) -> u64
    requires on { CanDrive L.layout G.party words.old.words guest.old }
    ensures few { result ≤ 4 }
    ensures ring { words.new.ring ≡ words.old.ring }
    ensures turn { GuestTurns L.layout G.party words.old.words words.new.words guest.old guest.new result }
{
    if guest.done() {
        return 0;
    }
    match guest_step::<L, G>(words, guest) {
        Move::Looked => 0,
        Move::Finished => 1,
        Move::Worked => 1,
    }
}

/// The same of a device that is not done.
#[inline(always)]
pub fn device_once<L: Layout, V: Device<L>>(words: &mut PlainWords, device: &mut V) -> u64
    requires live { ¬ (V.party.is_done device.old) }
    requires on { CanServe L.layout V.party words.old.words device.old }
    ensures few { result ≤ 4 }
    ensures ring { words.new.ring ≡ words.old.ring }
    ensures turn { DeviceTurns L.layout V.party words.old.words words.new.words device.old device.new result }
{
    match device_step::<L, V>(words, device) {
        Move::Looked => 0,
        Move::Finished => 1,
        Move::Worked => 1,
    }
}

/// A guest's turn. It answers how many of its steps were no look of a sleeper.
pub fn guest_turn<L: Layout, G: Guest<L>>(
    words: &mut PlainWords,
    guest: &mut G,
    draws: &mut Draws,
) -> u64
    requires on { CanDrive L.layout G.party words.old.words guest.old }
    ensures few { result ≤ 4 }
    ensures ring { words.new.ring ≡ words.old.ring }
    ensures turn { GuestTurns L.layout G.party words.old.words words.new.words guest.old guest.new result }
{
    if draws.are_drawn() {
        guest_drawn::<L, G>(words, guest, draws)
    } else {
        guest_once::<L, G>(words, guest)
    }
}

/// The turn of a device that is not done. It answers how many of its steps were no look of a sleeper.
pub fn device_turn<L: Layout, V: Device<L>>(
    words: &mut PlainWords,
    device: &mut V,
    draws: &mut Draws,
) -> u64
    requires live { ¬ (V.party.is_done device.old) }
    requires on { CanServe L.layout V.party words.old.words device.old }
    ensures few { result ≤ 4 }
    ensures ring { words.new.ring ≡ words.old.ring }
    ensures turn { DeviceTurns L.layout V.party words.old.words words.new.words device.old device.new result }
{
    if draws.are_drawn() {
        device_drawn::<L, V>(words, device, draws)
    } else {
        device_once::<L, V>(words, device)
    }
}
