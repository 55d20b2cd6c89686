//! A lane in a shadow epoch. The functions do nothing: their contracts are its laws.

ghost use Rattle.std.specs.Prelude.{◌≡◌, ℕ, ◌+◌, List, ◌∷◌, [], ◌++◌, length, map, take, drop, Bool, Some, true, false};
ghost use Rattle.vd_model.specs.declared.chain.Piece.{Piece};
ghost use Rattle.vd_model.specs.declared.record.Begun.{Begun};
ghost use Rattle.vd_ring.specs.declared.device.DeviceView.{DeviceView};
ghost use Rattle.vd_ring.specs.declared.driver.DriverView.{DriverView};
ghost use Rattle.vd_ring.specs.declared.frame.Used.{Used};
ghost use Rattle.vd_ring.specs.Bag as bag;
ghost use Rattle.vd_ring.specs.History.{collects, takes, gives, IsWhole};
ghost use Rattle.vd_ring.specs.Account.{Lawful};
ghost use Rattle.vd_bus.specs.declared.device.Attached.{Attached};
ghost use Rattle.vd_relay.specs.declared.state.State.{State};
ghost use Rattle.vd_relay.specs.declared.counts.Counts.{Counts};
ghost use Rattle.vd_layout.specs.Begun.{DeviceOp, DriverOp};
ghost use Rattle.vd_relay.specs.Moving.{Stands, IsRelayStep};
ghost use Rattle.vd_relay.specs.Stages.{is_hearing};
ghost use Rattle.vd_ring.specs.Signals.{nothing};
ghost use Rattle.vd_ring.specs.Sleep.{DriverWaits, DeviceWaits, driver_owed};
ghost use Rattle.vd_switch.specs.Sleeping.{Sleeps, IsAtRest};
ghost use Rattle.vd_relay.specs.declared.stage.Stage.TheVariants.{Collecting, Rested};
ghost use Rattle.vd_relay.specs.Tie.{Start, since};
ghost use Rattle.vd_switch.specs.Account.{IsBegunBefore, LeavesStill};
ghost use Rattle.vd_switch.specs.ShadowingLanes.{IsShadowing, IsWinding, IsUndone, KeepsShadowing, lane_begun};
ghost use Rattle.vd_switch.specs.ShadowingSteps.{RelayStepped, DeviceStepped, GuestStepped};
ghost use Rattle.vd_layout.specs.declared.moves.Move.{Move};
ghost use Rattle.vd_model.specs.Moved.{moved};
ghost use Rattle.vd_bus.specs.Device.{IsDeviceAccess, HasServedAll, IsServing, chains_of};
ghost use Rattle.vd_switch.specs.PassingLanes.{IsPassing, KeepsPassing, lane_passed, PassingServed, PassingDriven};
ghost use Rattle.vd_bus.specs.Guest.{IsGuestAccess};
ghost use Rattle.vd_bus.specs.Orders.{IsData};
ghost use Rattle.vd_iova.specs.Trees.{Tree, IsKept};

use vd_bus::{Device, Guest};
use vd_layout::Layout;
use vd_words::Port;

/// A shadowing lane is kept: its account is lawful, and its two rings hang together.
pub fn shadowing_law<L: Layout>()
    ensures { (z : Start) (old : List (List Piece × ℕ)) (r : State L.Device L.Driver) (begun : List Begun) (by : Attached) (words : List ℕ)
        (shadow_words : List ℕ) (v : DriverView) (w : DeviceView) (sv : DriverView) (sw : DeviceView)
        → IsShadowing L.Device.device L.Driver.driver L.layout z old r begun by words shadow_words v w sv sw
        → KeepsShadowing z old r begun by v w sv sw }
{}

/// What the device of the shadow ring has journalled since its attach: the next chains that were taken from the guest's ring, moved.
pub fn journal_law<L: Layout>()
    ensures { (z : Start) (old : List (List Piece × ℕ)) (r : State L.Device L.Driver) (begun : List Begun) (by : Attached)
        (words : List ℕ) (shadow_words : List ℕ) (v : DriverView) (w : DeviceView) (sv : DriverView) (sw : DeviceView)
        → IsShadowing L.Device.device L.Driver.driver L.layout z old r begun by words shadow_words v w sv sw
        → chains_of (drop by.at begun) ≡ map (moved z.map) (take (length (takes sw.done)) (drop (since z) (takes w.done))) }
{}

/// What a stop leaves.
pub fn still_law<L: Layout>()
    ensures { (z : Start) (old : List (List Piece × ℕ)) (r : State L.Device L.Driver) (begun : List Begun) (by : Attached) (words : List ℕ)
        (shadow_words : List ℕ) (v : DriverView) (w : DeviceView) (sv : DriverView) (sw : DeviceView)
        → IsShadowing L.Device.device L.Driver.driver L.layout z old r begun by words shadow_words v w sv sw → r.stage ≡ Rested
        → LeavesStill L.Device.device r.guest (lane_begun z old begun by) v w × (length (gives w.done) ≡ since z + length (gives sw.done)) }
{}

/// One step of the relay over plain words keeps the lane. It is no step of the lane's bag, or the end of one chain.
pub fn relay_step_law<L: Layout, P: Port, Q: Port>()
    ensures { (z : Start) (old : List (List Piece × ℕ)) (r : State L.Device L.Driver) (r2 : State L.Device L.Driver) (begun : List Begun)
        (by : Attached) (words : List ℕ) (shadow_words : List ℕ) (v : DriverView) (w : DeviceView) (sv : DriverView) (sw : DeviceView)
        (a : P) (a2 : P) (b : Q) (b2 : Q) (c : Counts) (c2 : Counts) (said : Move)
        → IsShadowing L.Device.device L.Driver.driver L.layout z old r begun by words shadow_words v w sv sw → P.port.plain a words
        → Q.port.plain b shadow_words → IsRelayStep P.port Q.port L.Device.device L.Driver.driver z a a2 b b2 w sv r r2 c c2 said
        → RelayStepped P.port Q.port L.Device.device L.Driver.driver L.layout z old r2 begun by a2 b2 v w sw }
{}

/// One step of the shadow ring's device keeps the lane.
pub fn device_step_law<L: Layout, V: Device<L>, Q: Port>()
    ensures { (z : Start) (old : List (List Piece × ℕ)) (r : State L.Device L.Driver) (by : Attached) (words : List ℕ)
        (shadow_words : List ℕ) (v : DriverView) (w : DeviceView) (sv : DriverView) (sw : DeviceView) (x : V) (y : V) (b : Q) (b2 : Q)
        (said : Move)
        → IsShadowing L.Device.device L.Driver.driver L.layout z old r (V.party.begun x) by words shadow_words v w sv sw → r.winding ≡ false
        → V.party.attached x ≡ Some by → IsData by.queue → Q.port.plain b shadow_words
        → (s : IsDeviceAccess Q.port L.Device.device V.party b b2 sw x y said)
        → DeviceStepped Q.port L.Device.device L.Driver.driver L.layout z old r (V.party.begun x) (V.party.begun y) by words b2 v w sv
        (L.Device.device.side.after sw s.op s.access s.got) }
{}

/// One step of the guest keeps the lane.
pub fn guest_step_law<L: Layout, G: Guest<L>, P: Port>()
    ensures { (z : Start) (old : List (List Piece × ℕ)) (r : State L.Device L.Driver) (begun : List Begun) (by : Attached) (words : List ℕ)
        (shadow_words : List ℕ) (v : DriverView) (w : DeviceView) (sv : DriverView) (sw : DeviceView) (x : G) (y : G) (a : P) (a2 : P)
        (said : Move)
        → IsShadowing L.Device.device L.Driver.driver L.layout z old r begun by words shadow_words v w sv sw → P.port.plain a words
        → (s : IsGuestAccess P.port L.Driver.driver G.party a a2 v x y said)
        → GuestStepped P.port L.Device.device L.Driver.driver L.layout z old r begun by shadow_words a2 v
        (L.Driver.driver.side.after v s.op s.access s.got) w sv sw }
{}

/// Where as many chains are collected as the shadow ring's device gave, the guest's end may rest.
pub fn rest_law<L: Layout>()
    ensures { (z : Start) (old : List (List Piece × ℕ)) (r : State L.Device L.Driver) (begun : List Begun) (by : Attached) (words : List ℕ)
        (shadow_words : List ℕ) (v : DriverView) (w : DeviceView) (sv : DriverView) (sw : DeviceView) (none : Bool)
        → IsShadowing L.Device.device L.Driver.driver L.layout z old r begun by words shadow_words v w sv sw → r.winding ≡ true
        → r.stage ≡ Collecting none → length (collects sv.done) ≡ r.target → IsWhole w.done }
{}

/// A lane begins to be shadowing with a new relay and a device that is just attached.
pub fn start_law<L: Layout>()
    ensures { (z : Start) (old : List (List Piece × ℕ)) (r : State L.Device L.Driver) (begun : List Begun) (by : Attached) (words : List ℕ)
        (shadow_words : List ℕ) (v : DriverView) (w : DeviceView) (sv : DriverView) (sw : DeviceView)
        → L.layout.ring words v w → L.layout.ring shadow_words sv sw → Stands L.Device.device L.Driver.driver z r w sv → r.winding ≡ false
        → by.at ≡ length begun → by.from ≡ 0 → sw.done ≡ [] → IsBegunBefore old z.takes z.gives → IsUndone z.map
        → IsShadowing L.Device.device L.Driver.driver L.layout z old r begun by words shadow_words v w sv sw }
{}

/// The lane goes on while its relay winds up, once the shadow ring's device is done.
pub fn wind_law<L: Layout>()
    ensures { (z : Start) (old : List (List Piece × ℕ)) (r : State L.Device L.Driver) (r2 : State L.Device L.Driver) (begun : List Begun)
        (by : Attached) (words : List ℕ) (shadow_words : List ℕ) (v : DriverView) (w : DeviceView) (sv : DriverView) (sw : DeviceView)
        → IsShadowing L.Device.device L.Driver.driver L.layout z old r begun by words shadow_words v w sv sw
        → Stands L.Device.device L.Driver.driver z r2 w sv → IsWinding r2 sw
        → IsShadowing L.Device.device L.Driver.driver L.layout z old r2 begun by words shadow_words v w sv sw }
{}

/// The map of an address tree brings each range back.
pub fn undone_law()
    ensures { (t : Tree) → IsKept t → IsUndone t.mappings }
{}

/// A passing lane is kept: its account is lawful, and the chains begun are those taken from the guest's ring.
pub fn passing_law<L: Layout>()
    ensures { (ts : List (List Piece)) (gs : List Used) (old : List (List Piece × ℕ)) (begun : List Begun) (by : Attached)
        (words : List ℕ) (v : DriverView) (w : DeviceView) → IsPassing L.layout ts gs old begun by words v w
        → KeepsPassing old begun by v w }
{}

/// What a stop of a passing lane leaves, where its device is done and hands out the end.
pub fn passed_law<L: Layout>()
    ensures { (ts : List (List Piece)) (gs : List Used) (old : List (List Piece × ℕ)) (begun : List Begun) (by : Attached)
        (words : List ℕ) (v : DriverView) (w : DeviceView) (end : L.Device) → IsPassing L.layout ts gs old begun by words v w
        → L.Device.device.stands end w → L.Device.device.resting end ≡ true → HasServedAll (length begun) by w
        → LeavesStill L.Device.device end (lane_passed old begun by) v w }
{}

/// A lane begins to be passing once its device is attached to the guest's ring, of which all that was taken was given.
pub fn passing_start_law<L: Layout>()
    ensures { (old : List (List Piece × ℕ)) (begun : List Begun) (by : Attached) (words : List ℕ) (v : DriverView) (w : DeviceView)
        → L.layout.ring words v w → IsServing begun by w.done → by.from ≡ length (gives w.done)
        → length (takes w.done) ≡ length (gives w.done) → IsBegunBefore old (takes w.done) (gives w.done)
        → IsPassing L.layout (takes w.done) (gives w.done) old begun by words v w }
{}

/// One step of the device keeps a passing lane, and is the one step of its bag that the answer names.
pub fn passing_device_law<L: Layout, V: Device<L>, P: Port>()
    ensures { (ts : List (List Piece)) (gs : List Used) (old : List (List Piece × ℕ)) (by : Attached) (words : List ℕ) (v : DriverView)
        (w : DeviceView) (x : V) (y : V) (a : P) (a2 : P) (said : Move) → IsPassing L.layout ts gs old (V.party.begun x) by words v w
        → V.party.attached x ≡ Some by → IsData by.queue → P.port.plain a words
        → (s : IsDeviceAccess P.port L.Device.device V.party a a2 w x y said)
        → PassingServed P.port L.layout ts gs old (V.party.begun y) by a2 v w (L.Device.device.side.after w s.op s.access s.got)
        (L.Device.device.act w s.op s.access s.got) }
{}

/// One step of the guest keeps a passing lane, and is the one step of its bag that the answer names.
pub fn passing_guest_law<L: Layout, G: Guest<L>, P: Port>()
    ensures { (ts : List (List Piece)) (gs : List Used) (old : List (List Piece × ℕ)) (begun : List Begun) (by : Attached)
        (words : List ℕ) (v : DriverView) (w : DeviceView) (x : G) (y : G) (a : P) (a2 : P) (said : Move)
        → IsPassing L.layout ts gs old begun by words v w → P.port.plain a words
        → (s : IsGuestAccess P.port L.Driver.driver G.party a a2 v x y said)
        → PassingDriven P.port L.layout ts gs old begun by a2 v (L.Driver.driver.side.after v s.op s.access s.got) w
        (L.Driver.driver.act v s.op s.access s.got) }
{}

/// A relay that hears and doesn't wind up keeps nothing: each chain taken is offered, each entry collected is given, and both its ends
/// are armed.
pub fn sleeping_law<L: Layout>()
    ensures { (z : Start) (r : State L.Device L.Driver) (w : DeviceView) (v : DriverView)
        → Stands L.Device.device L.Driver.driver z r w v → r.winding ≡ false
        → is_hearing r.stage ≡ true → L.Device.device.begun r.guest ≡ DeviceOp.idle → L.Driver.driver.begun r.shadow ≡ DriverOp.idle
        → Sleeps z w v }
{}

/// Where the guest owes no check and no bell, and relay and device sleep without a signal, nothing lies before any of them.
pub fn rest_of_all_law<L: Layout>()
    ensures { (z : Start) (words : List ℕ) (shadow_words : List ℕ) (v : DriverView) (w : DeviceView) (sv : DriverView) (sw : DeviceView)
        → L.layout.ring words v w → L.layout.ring shadow_words sv sw → Sleeps z w sv → driver_owed v.doing ≡ nothing → DeviceWaits v w
        → DriverWaits sv sw → DeviceWaits sv sw → IsAtRest z v w sv sw }
{}
