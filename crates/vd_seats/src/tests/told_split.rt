//! What a load through a seat's port of a split ring tells its caller, one function for each kind of load.
ghost use Rattle.std.specs.Prelude.{◌≡◌, ◌<◌, ◌≤◌, ℕ, List, [], ◌∷◌, ◌++◌, false, length};
ghost use Rattle.std.specs.Prelude.{slice_index};
ghost use Rattle.vd_bits.specs.Lanes.{lane32};
ghost use Rattle.vd_words.specs.declared.access.Access.TheVariants.{Load};
ghost use Rattle.vd_words.specs.declared.access.Op.TheVariants as op;
ghost use Rattle.vd_ring.specs.declared.driver.DriverNow.TheVariants as driver;
ghost use Rattle.vd_ring.specs.declared.driver.DriverView.{DriverView};
ghost use Rattle.vd_ring.specs.declared.device.DeviceNow.TheVariants as device;
ghost use Rattle.vd_ring.specs.declared.device.DeviceView.{DeviceView};
ghost use Rattle.vd_ring.specs.History.{takes, gives, offers};
ghost use Rattle.vd_split_ring.specs.SplitWords.{IsDrivers, IsDevices};
ghost use Rattle.vd_split_ring.specs.SplitDriver.{DriverNext, ShowsGives, NamesOpen, driver_after};
ghost use Rattle.vd_split_ring.specs.SplitDevice.{DeviceNext, device_after, ShowsChains, IsNewHead, BeginsChain, loaded_head};
ghost use Rattle.vd_split_ring.specs.SplitRing.{Ring};
ghost use Rattle.vd_split.specs.laws.SplitLayout.{split_layout};
ghost use Rattle.vd_seats.specs.Seat.{DrivesAt, ServesAt};

use crate::SeatPort;
use vd_split::Split;
use vd_words::{Access, Op, Port};

/// A word that only the driver stores is what it stored there last.
fn load_own_driver(port: &mut SeatPort<Split>, op: Op, place: u32) -> u64
    requires { (v : DriverView) × DrivesAt split_layout port.old v × DriverNext v op (Load place) × IsDrivers v.frame place }
    ensures { (v : DriverView) → DrivesAt split_layout port.old v → IsDrivers v.frame place → result ≡ slice_index v.stored place }
{
    port.access(op, Access::Load(place))
}

/// A word that only the device stores is what it stored there last.
fn load_own_device(port: &mut SeatPort<Split>, op: Op, place: u32) -> u64
    requires { (w : DeviceView) × ServesAt split_layout port.old w × DeviceNext w op (Load place) × IsDevices w.frame place }
    ensures { (w : DeviceView) → ServesAt split_layout port.old w → IsDevices w.frame place → result ≡ slice_index w.stored place }
{
    port.access(op, Access::Load(place))
}

/// The driver's look: the index is between the chains collected and those offered, and not before the one loaded last. It shows an
/// entry where the last look showed one that wasn't collected since.
fn look_driver(port: &mut SeatPort<Split>, place: u32) -> u64
    requires { (v : DriverView) × DrivesAt split_layout port.old v × (v.doing ≡ driver.Idle) × DriverNext v op.Collect (Load place) }
    ensures { (v : DriverView) → DrivesAt split_layout port.old v → v.doing ≡ driver.Idle → ShowsGives v result }
{
    port.access(Op::Collect, Access::Load(place))
}

/// The index that the driver's look shows is at most the count of chains that the device had given at that load.
fn look_published(port: &mut SeatPort<Split>, place: u32) -> u64
    requires { (v : DriverView) × DrivesAt split_layout port.old v × DriverNext v op.Collect (Load place) }
    ensures { (v : DriverView) → DrivesAt split_layout port.old v → DriverNext v op.Collect (Load place)
        → (ws : List ℕ) × (w : DeviceView) × Ring ws v w × ((driver_after v op.Collect (Load place) result).seen ≤ length (gives w.done)) }
{
    port.access(Op::Collect, Access::Load(place))
}

/// The index that the device's look shows is at most the count of chains that the driver had offered at that load.
fn look_offered(port: &mut SeatPort<Split>, place: u32) -> u64
    requires { (w : DeviceView) × ServesAt split_layout port.old w × DeviceNext w op.Take (Load place) }
    ensures { (w : DeviceView) → ServesAt split_layout port.old w → DeviceNext w op.Take (Load place)
        → (ws : List ℕ) × (v : DriverView) × Ring ws v w × ((device_after w op.Take (Load place) result).seen ≤ length (offers v.done)) }
{
    port.access(Op::Take, Access::Load(place))
}

/// The device's look: the index is past the chains taken by at most the size, and not before the one loaded last. Where it shows a
/// chain the ring's limit is not reached. It shows one where the last look showed one that wasn't taken since.
fn look_device(port: &mut SeatPort<Split>, place: u32) -> u64
    requires { (w : DeviceView) × ServesAt split_layout port.old w × (w.doing ≡ device.Idle) × DeviceNext w op.Take (Load place) }
    ensures { (w : DeviceView) → ServesAt split_layout port.old w → w.doing ≡ device.Idle → ShowsChains w result }
{
    port.access(Op::Take, Access::Load(place))
}

/// The load of a take's entry: its head is a place of the ring, and the head of no chain taken and not given.
fn load_head(port: &mut SeatPort<Split>, place: u32) -> u64
    requires { (w : DeviceView) × (r : ℕ) × ServesAt split_layout port.old w × (w.doing ≡ device.Taking (r ∷ []))
        × DeviceNext w op.Take (Load place) }
    ensures { (w : DeviceView) (r : ℕ) → ServesAt split_layout port.old w → w.doing ≡ device.Taking (r ∷ [])
        → IsNewHead w.frame w.done (loaded_head w.frame (length (takes w.done)) result) }
{
    port.access(Op::Take, Access::Load(place))
}

/// The load of a chain's word: the words loaded so far are the first words of one chain at the head, which may stand on the ring and
/// is a control chain of its head on a control ring. The last load completes it, and with it no more is taken than there are places.
fn load_chain(port: &mut SeatPort<Split>, place: u32) -> u64
    requires { (w : DeviceView) × (r : ℕ) × (x : ℕ) × (xs : List ℕ) × ServesAt split_layout port.old w
        × (w.doing ≡ device.Taking (r ∷ x ∷ xs)) × DeviceNext w op.Take (Load place) }
    ensures { (w : DeviceView) (r x : ℕ) (xs : List ℕ) → ServesAt split_layout port.old w → w.doing ≡ device.Taking (r ∷ x ∷ xs)
        → BeginsChain w.frame w.done (loaded_head w.frame (length (takes w.done)) x) (xs ++ result ∷ []) }
{
    port.access(Op::Take, Access::Load(place))
}

/// The load of a used entry's first word: it names the head of a chain offered and not collected, which may come next.
fn load_used(port: &mut SeatPort<Split>, place: u32) -> u64
    requires { (v : DriverView) × (r : ℕ) × DrivesAt split_layout port.old v × (v.doing ≡ driver.Collecting (r ∷ []))
        × DriverNext v op.Collect (Load place) }
    ensures { (v : DriverView) (r : ℕ) → DrivesAt split_layout port.old v → v.doing ≡ driver.Collecting (r ∷ [])
        → NamesOpen v.frame v.done (lane32 result 1) }
{
    port.access(Op::Collect, Access::Load(place))
}
