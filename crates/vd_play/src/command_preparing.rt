//! Makes the control queue's lane.
ghost use Rattle.std.specs.Prelude.{◌≡◌, Some, IfOk, length};
ghost use Rattle.std.specs.List.{All};
ghost use Rattle.vd_bus.specs.Device.{IsUnchanged};
ghost use Rattle.vd_control.specs.Settings.{default};
ghost use Rattle.vd_machine.specs.File.{view};
ghost use Rattle.vd_play.specs.CommandPrepared.{IsEmptyPlace, KeepsFirst, AreCommandsPrepared};
ghost use Rattle.vd_play.specs.CommandProgress.{CommandStopped};
ghost use Rattle.vd_play.specs.Each.{HasLanes};
ghost use Rattle.vd_play.specs.Places.{queue_total};
ghost use Rattle.vd_play.specs.Played.{KeepsBench};
ghost use Rattle.vd_play.specs.Prepared.{IsOfLayout, IsEmptyGuest, IsEmptyDevice, IsUnused, IsUntouched};
ghost use Rattle.vd_play.specs.Setting.{setting_of};

use crate::bench::Bench;
use crate::command_count::command_work;
use crate::command_kits::make_command_kits;
use crate::command_lane::CommandLane;
use crate::order::event_count;
use std::alloc::{AllocError, Global};
use vd_bus::{Device, Guest};
use vd_layout::Layout;
use vd_machine::Machine;
use vd_model::Script;
use vd_switch::Still;
use vd_words::PlainWords;

/// Makes the ring of the control queue and its shadow rings, loads and boots its guest, and makes room in its device's journal.
pub(crate) fn make_command_lane<L: Layout, G: Guest<L>, V: Device<L>>(
    alloc: Global,
    m: &Machine,
    script: &Script,
    guest: &mut G,
    device: &mut V,
) -> Result<CommandLane<L>, AllocError>
    requires layout { IsOfLayout L.layout (view m.now) }
    requires script { m.now.control ≡ Some script.now }
    requires guest { IsEmptyGuest G.party guest.old }
    requires device { IsEmptyDevice V.party device.old }
    requires set { V.party.settings device.old ≡ default }
    ensures ok { IfOk result (λ lane. CommandStopped (setting_of L.Driver.driver L.Device.device L.layout G.party V.party) (view m.now) 0
        lane guest.new device.new) }
    ensures none { IfOk result (λ lane. lane.relayed ≡ 0) }
    ensures guest { IsUnused G.party guest.new }
    ensures device { IsUnchanged V.party device.old device.new }
{
    let words = L::words(m.size, m.features, true);
    let words = PlainWords::new(alloc, 15, words)?;
    let (driver, end) = L::make(alloc, m.size, m.features, true)?;
    let events = event_count(m.switches.as_slice());
    device.reserve(alloc, m.window, events, command_work(m))?;
    guest.load(alloc, script)?;
    let kits = make_command_kits::<L>(alloc, m)?;
    guest.boot(driver);
    Ok(CommandLane {
        words,
        still: Some(Still::new(end, true)),
        relaying: None,
        kits,
        relayed: 0,
    })
}

/// Makes the control queue's lane with the parties behind those of the data queues; none, where the machine has no control queue.
pub(crate) fn prepare_commands<L: Layout, G: Guest<L>, V: Device<L>>(
    alloc: Global,
    m: &Machine,
    bench: &mut Bench<G, V>,
) -> Result<Option<CommandLane<L>>, AllocError>
    requires layout { IsOfLayout L.layout (view m.now) }
    requires parties { HasLanes (queue_total (view m.now)) bench.old }
    requires empty { IsEmptyPlace G.party V.party (view m.now) bench.old }
    requires unused { All (IsUnused G.party) bench.old.guests.items }
    ensures ok { IfOk result (λ control. AreCommandsPrepared
        (setting_of L.Driver.driver L.Device.device L.layout G.party V.party) (view m.now) control bench.new) }
    ensures keeps { KeepsBench V.party (queue_total (view m.now)) bench.old bench.new }
    ensures first { KeepsFirst (length m.now.queues) bench.old bench.new }
    ensures untouched { IsUntouched G.party V.party bench.old bench.new }
{
    let Some(script) = &m.control else {
        return Ok(None);
    };
    let place = m.queues.len();
    let guest = &mut bench.guests[place];
    let lane = make_command_lane::<L, G, V>(alloc, m, script, guest, &mut bench.devices[place])?;
    Ok(Some(lane))
}
