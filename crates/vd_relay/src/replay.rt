//! A replay: on a fresh shadow ring of a control queue the commands that set the settings again, one after the other.
ghost use Rattle.std.specs.Prelude.{◌≡◌, ◌+◌, ◌<◌, ◌≤◌, ◌↔◌, ◌⊎◌, Bool, ◌∷◌, ◌*◌, ◌^◌, [], IsTrue, Some, length, List, true, false};
ghost use Rattle.vd_model.specs.declared.chain.Piece.{Piece};
ghost use Rattle.vd_model.specs.Chains.{IsChain};
ghost use Rattle.vd_words.specs.Own.{IsOwn};
ghost use Rattle.vd_ring.specs.declared.driver.DriverView.{DriverView};
ghost use Rattle.vd_ring.specs.History.{next_head};
ghost use Rattle.vd_layout.specs.Begun.{DriverOp};
ghost use Rattle.vd_control.specs.Commands.{spelled};
ghost use Rattle.vd_control.specs.Settings.{HasPairs, replay};
ghost use Rattle.vd_relay.specs.declared.replay.ReplayStage.TheVariants.{First, Second, Loading, Arming, Hearing, Disarming};
ghost use Rattle.vd_relay.specs.Replays.{Replays, ReplayHolds, ReplayTurn, IsSameReplay, IsAsFar, IsWound, BeginsOffer, IsFreshShadow, HasNext, Goes, after_ack, control_chain, replay_owes, is_done, is_over, is_control, wound, Winds, replay_waking};

use crate::counts::Turn;
use vd_commands::words_of;
use vd_control::{Settings, replay_at, replay_len};
use vd_layout::{DriverAct, DriverEnd, Layout};
use vd_model::{Chain, Piece};
use vd_words::{Access, Op, Port};

/// What a replay does next.
#[derive(Copy, Clone, Debug, PartialEq, Eq)]
pub enum ReplayStage {
    /// The store of the first command word of the next head.
    First,
    /// The store of the second.
    Second,
    /// The offer of the command.
    Offering,
    /// A collect.
    Collecting,
    /// The load of the ack word of this head.
    Loading { head: u32 },
    /// Nothing was there: the shadow end is armed.
    Arming,
    /// It is armed: its bell is heard.
    Hearing,
    /// In a wind-up: the shadow end is disarmed.
    Disarming,
    /// Nothing: every command was acknowledged.
    Done,
    /// Nothing: the wind-up left the rest out.
    Left,
}

/// The settings that are set again, by so many commands; how many of them were acknowledged; what comes next; and whether it winds
/// up, until so many chains are collected.
#[derive(Copy, Clone)]
pub struct Replay {
    pub settings: Settings,
    pub count: u32,
    pub next: u32,
    pub stage: ReplayStage,
    pub winding: bool,
    pub target: u32,
}

/// What comes before a command: where none is left, nothing.
fn between(next: u32, count: u32) -> ReplayStage
    ensures { result ≡ after_ack next count }
{
    if next < count {
        ReplayStage::First
    } else {
        ReplayStage::Done
    }
}

/// The first command word of the next head.
fn command_place<L: Layout>(shadow: &L::Driver) -> u32
    requires { (v : DriverView) × HasNext L.layout L.Driver.driver shadow.now v }
    ensures value { (v : DriverView) → HasNext L.layout L.Driver.driver shadow.now v
        → result ≡ L.Driver.driver.words.command v.frame (next_head v.frame v.done) }
    ensures narrow { result + 1 < 2 ^ 32 }
{
    let size = shadow.size();
    let f = shadow.features();
    L::command_word(size, f, shadow.next_head())
}

/// A chain of two pieces, of which the second is writable.
fn two_pieces(first: Piece, second: Piece) -> Chain
    requires { second.write ≡ true }
    ensures value { result ≡ first ∷ second ∷ [] }
    ensures lawful { IsChain result }
{
    let mut chain = Chain::new(first);
    let _ = chain.push(second);
    chain
}

/// A control chain of the next head, for a command of so many bytes.
fn next_chain<L: Layout>(shadow: &L::Driver, count: u32) -> Chain
    requires { (v : DriverView) × HasNext L.layout L.Driver.driver shadow.now v }
    ensures value { (v : DriverView) → HasNext L.layout L.Driver.driver shadow.now v
        → result ≡ control_chain (L.Driver.driver.words.command v.frame (next_head v.frame v.done))
        (L.Driver.driver.words.ack v.frame (next_head v.frame v.done)) count }
    ensures lawful { IsChain result }
{
    let size = shadow.size();
    let f = shadow.features();
    let head = shadow.next_head();
    two_pieces(
        Piece {
            addr: 8 * u64::from(L::command_word(size, f, head)),
            len: count,
            write: false,
        },
        Piece {
            addr: 8 * u64::from(L::ack_word(size, f, head)),
            len: 1,
            write: true,
        },
    )
}

/// What comes next between two operations of a wind-up, where enough is collected or isn't.
fn wound(stage: ReplayStage, enough: bool) -> ReplayStage
    ensures { result ≡ wound stage enough }
{
    match stage {
        ReplayStage::First | ReplayStage::Second => ReplayStage::Left,
        ReplayStage::Collecting | ReplayStage::Arming => {
            if enough {
                ReplayStage::Left
            } else {
                ReplayStage::Collecting
            }
        }
        other => other,
    }
}

impl Replay {
    /// A replay of the settings on the ring of a fresh end.
    pub fn new<L: Layout>(settings: Settings, shadow: &L::Driver) -> Replay
        requires { HasPairs settings }
        ensures settings { result.settings ≡ settings }
        ensures next { result.next ≡ 0 }
        ensures winding { result.winding ≡ false }
        ensures target { result.target ≡ 0 }
        ensures done { IsTrue (is_done result.stage) ↔ (length (replay settings) ≡ 0) }
        ensures holds { (v : DriverView) → IsFreshShadow L.layout L.Driver.driver shadow.now v
            → ReplayHolds L.layout L.Driver.driver result shadow.now v }
        ensures paid { (v : DriverView) → replay_owes L.Driver.driver result.winding result.stage shadow.now v ≤ 64 }
    {
        let _ = shadow;
        let count = replay_len(&settings);
        Replay {
            settings,
            count,
            next: 0,
            stage: between(0, count),
            winding: false,
            target: 0,
        }
    }

    /// Whether every command was acknowledged.
    pub fn replayed(&self) -> bool
        ensures { result ≡ is_done self.now.stage }
    {
        matches!(self.stage, ReplayStage::Done)
    }

    /// Whether nothing more is to be done: all was acknowledged, or the wind-up left the rest out.
    pub fn over(&self) -> bool
        ensures { result ≡ is_over self.now.stage }
    {
        matches!(self.stage, ReplayStage::Done | ReplayStage::Left)
    }

    /// From now on no command's offer is begun, and it sleeps no more.
    pub fn begin_wind_up<L: Layout>(&mut self, shadow: &L::Driver, given: u32)
        requires once { self.old.winding ≡ false }
        ensures winds { (v : DriverView) → ReplayHolds L.layout L.Driver.driver self.old shadow.now v
            → Winds L.layout L.Driver.driver self.old self.new shadow.now v }
        ensures stage { (self.new.stage ≡ self.old.stage) ⊎ ((self.old.stage ≡ Hearing) × (self.new.stage ≡ Disarming)) }
        ensures far { IsAsFar self.old self.new }
        ensures winding { self.new.winding ≡ true }
        ensures target { self.new.target ≡ given }
    {
        self.winding = true;
        self.target = given;
        if matches!(self.stage, ReplayStage::Hearing) && shadow.idle() {
            self.stage = ReplayStage::Disarming;
        }
    }

    /// Between two operations of a wind-up a command that isn't offered is left out, and one on the ring is collected, until so many
    /// chains are collected.
    pub fn turn<L: Layout>(&mut self, shadow: &L::Driver)
        ensures winds { (v : DriverView) → ReplayHolds L.layout L.Driver.driver self.old shadow.now v
            → Winds L.layout L.Driver.driver self.old self.new shadow.now v }
        ensures stage { (self.new.stage ≡ self.old.stage) ⊎ ((enough : Bool) × (self.new.stage ≡ wound self.old.stage enough)) }
        ensures arms { self.new.winding ≡ true → self.new.stage ≡ Arming → ¬ (L.Driver.driver.begun shadow.now ≡ DriverOp.idle) }
        ensures turned { (v : DriverView) → L.Driver.driver.stands shadow.now v → self.old.winding ≡ true
            → L.Driver.driver.begun shadow.now ≡ DriverOp.idle → IsWound self.old self.new v }
        ensures still { self.old.winding ≡ false → self.new.stage ≡ self.old.stage }
        ensures busy { ¬ (L.Driver.driver.begun shadow.now ≡ DriverOp.idle) → self.new.stage ≡ self.old.stage }
        ensures far { IsAsFar self.old self.new }
        ensures same { IsSameReplay self.old self.new }
    {
        if self.winding && shadow.idle() {
            self.stage = wound(self.stage, shadow.collected() >= self.target);
        }
    }

    /// Makes one access of the shadow ring.
    pub fn step<L: Layout, Q: Port>(&mut self, shadow: &mut L::Driver, port: &mut Q) -> Turn
        requires at { is_over self.old.stage ≡ false }
        requires arms { self.old.winding ≡ true → self.old.stage ≡ Arming → ¬ (L.Driver.driver.begun shadow.old ≡ DriverOp.idle) }
        requires own { (v : DriverView) × ReplayHolds L.layout L.Driver.driver self.old shadow.old v
            × IsOwn Q.port L.Driver.driver.side port.old v }
        ensures turn { (v : DriverView) → ReplayHolds L.layout L.Driver.driver self.old shadow.old v
            → IsOwn Q.port L.Driver.driver.side port.old v
            → ReplayTurn Q.port L.layout L.Driver.driver port.old port.new self.old self.new shadow.old shadow.new v result }
        ensures quiet { BeginsOffer L.Driver.driver self.old.stage shadow.old shadow.new }
        ensures same { IsSameReplay self.old self.new }
    {
        match self.stage {
            ReplayStage::First => self.store_first::<L, Q>(shadow, port),
            ReplayStage::Second => self.store_second::<L, Q>(shadow, port),
            ReplayStage::Loading { head } => self.load::<L, Q>(shadow, port, head),
            _ => self.operate::<L, Q>(shadow, port),
        }
    }

    /// Stores the first word of the next command.
    fn store_first<L: Layout, Q: Port>(&mut self, shadow: &L::Driver, port: &mut Q) -> Turn
        requires at { self.old.stage ≡ First }
        requires own { (v : DriverView) × Replays L.layout L.Driver.driver self.old shadow.now v
            × IsOwn Q.port L.Driver.driver.side port.old v }
        ensures turn { (v : DriverView) → Replays L.layout L.Driver.driver self.old shadow.now v
            → IsOwn Q.port L.Driver.driver.side port.old v
            → ReplayTurn Q.port L.layout L.Driver.driver port.old port.new self.old self.new shadow.now shadow.now v result }
        ensures same { IsSameReplay self.old self.new }
    {
        let place = command_place::<L>(shadow);
        let words = words_of(replay_at(&self.settings, self.next).write().as_slice());
        let _ = port.access(Op::Control, Access::Store(place, words.first));
        self.stage = ReplayStage::Second;
        Turn::Worked
    }

    /// Stores the second word of the next command, and begins its offer.
    fn store_second<L: Layout, Q: Port>(&mut self, shadow: &mut L::Driver, port: &mut Q) -> Turn
        requires at { self.old.stage ≡ Second }
        requires own { (v : DriverView) × Replays L.layout L.Driver.driver self.old shadow.old v
            × IsOwn Q.port L.Driver.driver.side port.old v }
        ensures turn { (v : DriverView) → Replays L.layout L.Driver.driver self.old shadow.old v
            → IsOwn Q.port L.Driver.driver.side port.old v
            → ReplayTurn Q.port L.layout L.Driver.driver port.old port.new self.old self.new shadow.old shadow.new v result }
        ensures same { IsSameReplay self.old self.new }
    {
        let place = command_place::<L>(shadow);
        let bytes = replay_at(&self.settings, self.next).write();
        let words = words_of(bytes.as_slice());
        let _ = port.access(Op::Control, Access::Store(place + 1, words.second));
        let chain = next_chain::<L>(shadow, bytes.len() as u32);
        shadow.begin_offer(&chain);
        self.stage = ReplayStage::Offering;
        Turn::Worked
    }

    /// Loads the ack of the command. A replay's commands are valid, so it isn't looked at.
    fn load<L: Layout, Q: Port>(&mut self, shadow: &L::Driver, port: &mut Q, head: u32) -> Turn
        requires at { self.old.stage ≡ Loading head }
        requires own { (v : DriverView) × Replays L.layout L.Driver.driver self.old shadow.now v
            × IsOwn Q.port L.Driver.driver.side port.old v }
        ensures turn { (v : DriverView) → Replays L.layout L.Driver.driver self.old shadow.now v
            → IsOwn Q.port L.Driver.driver.side port.old v
            → ReplayTurn Q.port L.layout L.Driver.driver port.old port.new self.old self.new shadow.now shadow.now v result }
        ensures same { IsSameReplay self.old self.new }
    {
        let place = L::ack_word(shadow.size(), shadow.features(), head);
        let _ = port.access(Op::Control, Access::Load(place));
        self.next += 1;
        self.stage = between(self.next, self.count);
        Turn::Worked
    }

    /// Begins the shadow end's next operation where none is in progress.
    fn begin<L: Layout>(&self, shadow: &mut L::Driver)
        requires at { is_control self.now.stage ≡ false }
        requires arms { self.now.winding ≡ true → self.now.stage ≡ Arming → ¬ (L.Driver.driver.begun shadow.old ≡ DriverOp.idle) }
        requires own { (v : DriverView) × Replays L.layout L.Driver.driver self.now shadow.old v }
        ensures begun { (v : DriverView) → Replays L.layout L.Driver.driver self.now shadow.old v
            → Goes L.layout L.Driver.driver self.now shadow.old shadow.new v }
        ensures busy { ¬ (L.Driver.driver.begun shadow.new ≡ DriverOp.idle) }
        ensures quiet { (c : List Piece) → L.Driver.driver.begun shadow.new ≡ DriverOp.offer c
            → L.Driver.driver.begun shadow.old ≡ DriverOp.offer c }
        ensures was { (L.Driver.driver.begun shadow.old ≡ DriverOp.idle) ⊎ (shadow.new ≡ shadow.old) }
    {
        if shadow.idle() {
            match self.stage {
                ReplayStage::Arming => shadow.begin_arm(),
                ReplayStage::Hearing => shadow.begin_hear(),
                ReplayStage::Disarming => shadow.begin_disarm(),
                _ => shadow.begin_collect(),
            }
        }
    }

    /// Makes one access of the shadow end's operation.
    fn operate<L: Layout, Q: Port>(&mut self, shadow: &mut L::Driver, port: &mut Q) -> Turn
        requires at { is_control self.old.stage ≡ false }
        requires arms { self.old.winding ≡ true → self.old.stage ≡ Arming → ¬ (L.Driver.driver.begun shadow.old ≡ DriverOp.idle) }
        requires own { (v : DriverView) × ReplayHolds L.layout L.Driver.driver self.old shadow.old v
            × IsOwn Q.port L.Driver.driver.side port.old v }
        ensures turn { (v : DriverView) → ReplayHolds L.layout L.Driver.driver self.old shadow.old v
            → IsOwn Q.port L.Driver.driver.side port.old v
            → ReplayTurn Q.port L.layout L.Driver.driver port.old port.new self.old self.new shadow.old shadow.new v result }
        ensures quiet { (c : List Piece) → L.Driver.driver.begun shadow.new ≡ DriverOp.offer c
            → L.Driver.driver.begun shadow.old ≡ DriverOp.offer c }
        ensures same { IsSameReplay self.old self.new }
    {
        self.begin::<L>(shadow);
        match shadow.step(port) {
            DriverAct::Offered(_) => {
                self.stage = ReplayStage::Collecting;
                Turn::Handled
            }
            DriverAct::Collected { head, .. } => {
                self.stage = ReplayStage::Loading { head };
                Turn::Handled
            }
            DriverAct::Nothing => {
                if self.winding {
                    self.stage = ReplayStage::Collecting;
                    return Turn::Again;
                }
                self.stage = ReplayStage::Arming;
                Turn::Worked
            }
            DriverAct::Armed => {
                if self.winding {
                    self.stage = ReplayStage::Disarming;
                    return Turn::Worked;
                }
                self.stage = ReplayStage::Hearing;
                Turn::Worked
            }
            DriverAct::Awake => {
                let turn = self.waking();
                self.stage = ReplayStage::Collecting;
                turn
            }
            DriverAct::Asleep => Turn::Slept,
            DriverAct::Moved => Turn::Worked,
        }
    }

    /// What Awake ended: a hearing, or an arming.
    fn waking(&self) -> Turn
        ensures { result ≡ replay_waking self.now.stage }
    {
        match self.stage {
            ReplayStage::Hearing => Turn::Woke,
            _ => Turn::Worked,
        }
    }
}
