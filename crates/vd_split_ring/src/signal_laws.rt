//! Event words, bells, and who is armed. These functions do nothing: their contracts are the laws.
ghost use Rattle.std.specs.Prelude.{◌≡◌, ◌≢◌, ℕ, ◌+◌, ◌≤◌, List, None, slice_index};
ghost use Rattle.vd_words.specs.declared.access.Access.{Access};
ghost use Rattle.vd_words.specs.declared.access.Op.{Op};
ghost use Rattle.vd_words.specs.declared.access.Op.TheVariants.{Arm};
ghost use Rattle.vd_words.specs.Step.{answered};
ghost use Rattle.vd_ring.specs.declared.act.DeviceAct.TheVariants.{Rested, Asleep as device_asleep};
ghost use Rattle.vd_ring.specs.declared.act.DriverAct.TheVariants.{Asleep as driver_asleep};
ghost use Rattle.vd_ring.specs.declared.device.DeviceView.{DeviceView};
ghost use Rattle.vd_ring.specs.declared.driver.DriverView.{DriverView};
ghost use Rattle.vd_ring.specs.declared.frame.Frame.{Frame};
ghost use Rattle.vd_ring.specs.Fresh.{fresh_driver, fresh_device};
ghost use Rattle.vd_ring.specs.Sleep.{RingSignals, DriverWaits, DeviceWaits, driver_hearings, device_hearings, driver_woken, device_woken};
ghost use Rattle.vd_ring.specs.Looks.{DriverLooks, DeviceLooks};
ghost use Rattle.vd_split_ring.specs.SplitDevice.{DeviceNext, device_act, device_after, device_shows, device_side};
ghost use Rattle.vd_split_ring.specs.SplitDriver.{DriverNext, driver_act, driver_after, driver_shows, driver_side};
ghost use Rattle.vd_split_ring.specs.SplitRing.{Ring, DriverSignals, DeviceSignals};
ghost use Rattle.vd_split_ring.specs.SplitWords.{kick_at, call_at};

/// The event words and bells in the ring's words are those of where each side is armed and of how many bells it stored.
pub fn signals_law()
    ensures driver { (ws : List ℕ) (d : DriverView) (e : DeviceView) → Ring ws d e → DriverSignals d.frame d.armed d.bells ws }
    ensures device { (ws : List ℕ) (d : DriverView) (e : DeviceView) → Ring ws d e → DeviceSignals d.frame e.armed e.bells ws }
{}

/// Both sides of a fresh ring are unarmed, a rest leaves the device unarmed, and no access but one of an arming arms a side.
pub fn unarmed_law()
    ensures fresh_driver { (f : Frame) (n : ℕ) → (fresh_driver f n).armed ≡ None }
    ensures fresh_device { (f : Frame) (n : ℕ) → (fresh_device f n).armed ≡ None }
    ensures rested { (ws : List ℕ) (d : DriverView) (v : DeviceView) (o : Op) (a : Access) (r : ℕ) → Ring ws d v
        → device_act v o a r ≡ Rested → (device_after v o a r).armed ≡ None }
    ensures driver { (v : DriverView) (o : Op) (a : Access) (r : ℕ) → o ≢ Arm → v.armed ≡ None → (driver_after v o a r).armed ≡ None }
    ensures device { (v : DeviceView) (o : Op) (a : Access) (r : ℕ) → o ≢ Arm → v.armed ≡ None → (device_after v o a r).armed ≡ None }
{}

/// A sleeping side without a signal has nothing before it, or the other side owes it one, in both directions.
pub fn sleep_law()
    ensures { (ws : List ℕ) (d : DriverView) (e : DeviceView) → Ring ws d e → RingSignals d e }
{}

/// The bell word that stands is the number of bells that its side stored: a side is without a signal exactly where it is the one heard
/// last.
pub fn bells_law()
    ensures kick { (ws : List ℕ) (d : DriverView) (e : DeviceView) → Ring ws d e → slice_index ws (kick_at d.frame) ≡ d.bells }
    ensures call { (ws : List ℕ) (d : DriverView) (e : DeviceView) → Ring ws d e → slice_index ws (call_at d.frame) ≡ e.bells }
{}

/// A side that answers Asleep is idle, armed and without a signal, and its view stays.
pub fn asleep_law()
    ensures driver { (ws : List ℕ) (d : DriverView) (e : DeviceView) (o : Op) (a : Access) → Ring ws d e → DriverNext d o a
        → driver_act d o a (answered ws a) ≡ driver_asleep → (driver_after d o a (answered ws a) ≡ d) × DriverWaits d e }
    ensures device { (ws : List ℕ) (d : DriverView) (e : DeviceView) (o : Op) (a : Access) → Ring ws d e → DeviceNext e o a
        → device_act e o a (answered ws a) ≡ device_asleep → (device_after e o a (answered ws a) ≡ e) × DeviceWaits d e }
{}

/// A hearing that ends with Awake has heard a bell more.
pub fn hears_law()
    ensures driver { (ws : List ℕ) (d : DriverView) (e : DeviceView) (o : Op) (a : Access) → Ring ws d e → DriverNext d o a
        → driver_hearings d + driver_woken o (driver_act d o a (answered ws a)) ≤ driver_hearings (driver_after d o a (answered ws a)) }
    ensures device { (ws : List ℕ) (d : DriverView) (e : DeviceView) (o : Op) (a : Access) → Ring ws d e → DeviceNext e o a
        → device_hearings e + device_woken o (device_act e o a (answered ws a)) ≤ device_hearings (device_after e o a (answered ws a)) }
{}

/// Nothing, Armed, Asleep and Awake are answered exactly by what the look, the second look or the bell loaded.
pub fn answers_law()
    ensures driver { DriverLooks driver_side driver_act driver_shows }
    ensures device { DeviceLooks device_side device_act device_shows }
{}
