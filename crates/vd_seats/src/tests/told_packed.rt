//! What a load through a seat's port of a packed ring tells its caller, one function for each kind of load.
ghost use Rattle.std.specs.Prelude.{◌≡◌, ◌<◌, ℕ, List, [], ◌∷◌, ◌++◌, slice_index};
ghost use Rattle.vd_words.specs.declared.access.Access.TheVariants.{Load};
ghost use Rattle.vd_words.specs.declared.access.Op.TheVariants as op;
ghost use Rattle.vd_ring.specs.declared.driver.DriverNow.TheVariants as driver;
ghost use Rattle.vd_ring.specs.declared.driver.DriverView.{DriverView};
ghost use Rattle.vd_ring.specs.declared.device.DeviceNow.TheVariants as device;
ghost use Rattle.vd_ring.specs.declared.device.DeviceView.{DeviceView};
ghost use Rattle.vd_packed_ring.specs.PackedWords.{IsDrivers, IsDevices};
ghost use Rattle.vd_packed_ring.specs.PackedDriver.{DriverNext, ShowsGives};
ghost use Rattle.vd_packed_ring.specs.PackedDevice.{DeviceNext, ShowsChains, BeginsChain};
ghost use Rattle.vd_packed.specs.laws.PackedLayout.{packed_layout};
ghost use Rattle.vd_seats.specs.Seat.{DrivesAt, ServesAt};

use crate::SeatPort;
use vd_packed::Packed;
use vd_words::{Access, Op, Port};

/// A word that only the driver stores is what it stored there last.
fn load_own_driver(port: &mut SeatPort<Packed>, op: Op, place: u32) -> u64
    requires { (v : DriverView) × DrivesAt packed_layout port.old v × DriverNext v op (Load place) × IsDrivers v.frame place }
    ensures { (v : DriverView) → DrivesAt packed_layout port.old v → IsDrivers v.frame place → result ≡ slice_index v.stored place }
{
    port.access(op, Access::Load(place))
}

/// A word that only the device stores is what it stored there last.
fn load_own_device(port: &mut SeatPort<Packed>, op: Op, place: u32) -> u64
    requires { (w : DeviceView) × ServesAt packed_layout port.old w × DeviceNext w op (Load place) × IsDevices w.frame place }
    ensures { (w : DeviceView) → ServesAt packed_layout port.old w → IsDevices w.frame place → result ≡ slice_index w.stored place }
{
    port.access(op, Access::Load(place))
}

/// The driver's look: an entry that it shows names the head of a chain offered and not collected, which may come next. It shows one
/// where the last look showed one that wasn't collected since.
fn look_driver(port: &mut SeatPort<Packed>, place: u32) -> u64
    requires { (v : DriverView) × DrivesAt packed_layout port.old v × (v.doing ≡ driver.Idle) × DriverNext v op.Collect (Load place) }
    ensures { (v : DriverView) → DrivesAt packed_layout port.old v → v.doing ≡ driver.Idle → ShowsGives v result }
{
    port.access(Op::Collect, Access::Load(place))
}

/// The device's look: where it shows a chain the ring's limit is not reached, and the word is the first of one chain. It shows one
/// where the last look showed one that wasn't taken since.
fn look_device(port: &mut SeatPort<Packed>, place: u32) -> u64
    requires { (w : DeviceView) × ServesAt packed_layout port.old w × (w.doing ≡ device.Idle) × DeviceNext w op.Take (Load place) }
    ensures { (w : DeviceView) → ServesAt packed_layout port.old w → w.doing ≡ device.Idle → ShowsChains w result }
{
    port.access(Op::Take, Access::Load(place))
}

/// The load of a chain's word: the words loaded so far are the first words of one chain, which may stand on the ring, has a new head,
/// and is a control chain of that head on a control ring. The last load completes it, and with it no more is taken than there are
/// places.
fn load_chain(port: &mut SeatPort<Packed>, place: u32) -> u64
    requires { (w : DeviceView) × (x : ℕ) × (xs : List ℕ) × ServesAt packed_layout port.old w × (w.doing ≡ device.Taking (x ∷ xs))
        × DeviceNext w op.Take (Load place) }
    ensures { (w : DeviceView) (x : ℕ) (xs : List ℕ) → ServesAt packed_layout port.old w → w.doing ≡ device.Taking (x ∷ xs)
        → BeginsChain w.frame w.done (x ∷ xs ++ result ∷ []) }
{
    port.access(Op::Take, Access::Load(place))
}
