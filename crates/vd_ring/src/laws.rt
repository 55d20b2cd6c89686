//! What the lists and the bells of a ring's two sides say. These functions do nothing: their contracts are the laws.
ghost use Rattle.std.specs.Prelude.{◌≡◌, List};
ghost use Rattle.vd_ring.specs.declared.device.DeviceDone.{DeviceDone};
ghost use Rattle.vd_ring.specs.declared.device.DeviceView.{DeviceView};
ghost use Rattle.vd_ring.specs.declared.driver.DriverDone.{DriverDone};
ghost use Rattle.vd_ring.specs.declared.driver.DriverView.{DriverView};
ghost use Rattle.vd_ring.specs.declared.frame.Frame.{Frame};
ghost use Rattle.vd_ring.specs.Account.{Accounts};
ghost use Rattle.vd_ring.specs.History.{offers, collects, takes, gives};
ghost use Rattle.vd_ring.specs.Lists.{Lists};
ghost use Rattle.vd_ring.specs.Places.{Places};
ghost use Rattle.vd_ring.specs.Signals.{nothing};
ghost use Rattle.vd_ring.specs.Sleep.{RingSignals, DriverWaits, DeviceWaits, driver_owed, device_owed};

/// The account of a ring is lawful, ordered under IN_ORDER, and whole where as many entries are collected as chains were offered.
pub fn account_law()
    ensures { (f : Frame) (o : List DriverDone) (s : List DeviceDone) → Lists f o s → Accounts f.features.in_order o s }
{}

/// Where a side sleeps without a signal and the other owes nothing, nothing lies before it: all that was offered is taken, and all that
/// was given is collected.
pub fn quiet_law()
    ensures device { (v : DriverView) (w : DeviceView) → Places v.frame v.done → Lists v.frame v.done w.done → RingSignals v w
        → DeviceWaits v w → driver_owed v.doing ≡ nothing → takes w.done ≡ offers v.done }
    ensures driver { (v : DriverView) (w : DeviceView) → Places v.frame v.done → Lists v.frame v.done w.done → RingSignals v w
        → DriverWaits v w → device_owed w.doing ≡ nothing → collects v.done ≡ gives w.done }
{}
