//! Turns of an end on a port that is its own, in any layout: whole operations, those that are possible. An end that has nothing to
//! do arms, and then hears until its bell rings.
ghost use Rattle.std.specs.Prelude.{◌≡◌};
ghost use Rattle.vd_ring.specs.declared.driver.DriverView.{DriverView};
ghost use Rattle.vd_ring.specs.declared.device.DeviceView.{DeviceView};
ghost use Rattle.vd_layout.specs.Runs.{DriverOn, DeviceOn, DriverRan, DeviceRan};
ghost use Rattle.vd_seats.specs.Open.{IsOpen, MayStand};

use vd_layout::{DeviceAct, DeviceEnd, DriverAct, DriverEnd, finish_device, finish_driver};
use vd_model::{Chain, Piece};
use vd_words::Port;

/// Offers a chain of one piece where fewer were offered, there is room for it and the end isn't armed.
pub fn offer_one<E: DriverEnd, P: Port>(end: &mut E, port: &mut P, count: u32, piece: Piece) -> bool
    requires { (v : DriverView) × DriverOn P.port E.driver port.old v end.old × IsOpen v.frame }
    ensures { (v : DriverView) → DriverOn P.port E.driver port.old v end.old → IsOpen v.frame
        → DriverRan P.port E.driver port.old v port.new end.new }
{
    let offered = end.offered();
    if offered >= count {
        return false;
    }
    if offered >= 1_000_000_000 || end.armed() {
        return false;
    }
    let chain = Chain::new(piece);
    let _ = chain.pieces();
    if !end.room(&chain) {
        return false;
    }
    end.begin_offer(&chain);
    finish_driver(end, port);
    true
}

/// Offers the chain where there is room for it and the end isn't armed.
pub fn offer_chain<E: DriverEnd, P: Port>(end: &mut E, port: &mut P, chain: &Chain) -> bool
    requires { (v : DriverView) × DriverOn P.port E.driver port.old v end.old × MayStand E.driver.words v chain.now }
    ensures { (v : DriverView) → DriverOn P.port E.driver port.old v end.old → MayStand E.driver.words v chain.now
        → DriverRan P.port E.driver port.old v port.new end.new }
{
    let offered = end.offered();
    if offered >= 1_000_000_000 || end.armed() {
        return false;
    }
    if !end.room(chain) {
        return false;
    }
    end.begin_offer(chain);
    finish_driver(end, port);
    true
}

/// Collects where the end isn't armed.
pub fn collect_one<E: DriverEnd, P: Port>(end: &mut E, port: &mut P) -> DriverAct
    requires { (v : DriverView) × DriverOn P.port E.driver port.old v end.old }
    ensures { (v : DriverView) → DriverOn P.port E.driver port.old v end.old → DriverRan P.port E.driver port.old v port.new end.new }
{
    if end.armed() {
        return DriverAct::Nothing;
    }
    end.begin_collect();
    finish_driver(end, port)
}

/// Arms where that is wanted and the end isn't armed.
fn arm_driver<E: DriverEnd, P: Port>(end: &mut E, port: &mut P, wanted: bool)
    requires { (v : DriverView) × DriverOn P.port E.driver port.old v end.old }
    ensures { (v : DriverView) → DriverOn P.port E.driver port.old v end.old → DriverRan P.port E.driver port.old v port.new end.new }
{
    if end.armed() || !wanted {
        return;
    }
    end.begin_arm();
    finish_driver(end, port);
}

/// Hears where the end is armed.
fn hear_driver<E: DriverEnd, P: Port>(end: &mut E, port: &mut P) -> DriverAct
    requires { (v : DriverView) × DriverOn P.port E.driver port.old v end.old }
    ensures { (v : DriverView) → DriverOn P.port E.driver port.old v end.old → DriverRan P.port E.driver port.old v port.new end.new }
{
    if !end.armed() {
        return DriverAct::Awake;
    }
    end.begin_hear();
    finish_driver(end, port)
}

// The piece of the next chain: its address tells the chain's number.
fn next_piece<E: DriverEnd>(end: &E) -> Piece {
    Piece {
        addr: (end.offered() as u64) << 12,
        len: 64,
        write: true,
    }
}

// The number and length of the chain that was collected.
fn collected_of(act: DriverAct) -> Option<u64> {
    match act {
        DriverAct::Collected { number, len, .. } => Some((number as u64) + (len as u64)),
        _ => None,
    }
}

// Offers and collects, and arms where nothing came of either.
fn work_driver<E: DriverEnd, P: Port>(end: &mut E, port: &mut P, count: u32) -> u64
    requires { (v : DriverView) × DriverOn P.port E.driver port.old v end.old × IsOpen v.frame }
    ensures { (v : DriverView) → DriverOn P.port E.driver port.old v end.old → IsOpen v.frame
        → DriverRan P.port E.driver port.old v port.new end.new }
{
    let piece = next_piece(end);
    let offered = offer_one(end, port, count, piece);
    let sum = collected_of(collect_one(end, port));
    arm_driver(end, port, !offered && sum.is_none());
    sum.unwrap_or(0)
}

/// One turn of a driver that offers so many chains: None where it sleeps on, else what the chain collected counts.
pub fn turn_driver<E: DriverEnd, P: Port>(end: &mut E, port: &mut P, count: u32) -> Option<u64>
    requires { (v : DriverView) × DriverOn P.port E.driver port.old v end.old × IsOpen v.frame }
    ensures { (v : DriverView) → DriverOn P.port E.driver port.old v end.old → IsOpen v.frame
        → DriverRan P.port E.driver port.old v port.new end.new }
{
    if end.armed() {
        return (hear_driver(end, port) != DriverAct::Asleep).then_some(0);
    }
    Some(work_driver(end, port, count))
}

/// Takes where the end isn't armed.
pub fn take_one<E: DeviceEnd, P: Port>(end: &mut E, port: &mut P) -> DeviceAct
    requires { (w : DeviceView) × DeviceOn P.port E.device port.old w end.old }
    ensures { (w : DeviceView) → DeviceOn P.port E.device port.old w end.old → DeviceRan P.port E.device port.old w port.new end.new }
{
    if end.armed() {
        return DeviceAct::Nothing;
    }
    end.begin_take();
    finish_device(end, port)
}

/// Gives chain number `k` where the end may.
pub fn give_one<E: DeviceEnd, P: Port>(end: &mut E, port: &mut P, k: u32, len: u32)
    requires { (w : DeviceView) × DeviceOn P.port E.device port.old w end.old }
    ensures { (w : DeviceView) → DeviceOn P.port E.device port.old w end.old → DeviceRan P.port E.device port.old w port.new end.new }
{
    if end.armed() || !end.holds(k) {
        return;
    }
    if end.features().in_order {
        if k != end.given() {
            return;
        }
    }
    end.begin_give(k, len);
    finish_device(end, port);
}

/// Arms where the end isn't armed.
fn arm_device<E: DeviceEnd, P: Port>(end: &mut E, port: &mut P)
    requires { (w : DeviceView) × DeviceOn P.port E.device port.old w end.old }
    ensures { (w : DeviceView) → DeviceOn P.port E.device port.old w end.old → DeviceRan P.port E.device port.old w port.new end.new }
{
    if end.armed() {
        return;
    }
    end.begin_arm();
    finish_device(end, port);
}

/// Hears where the end is armed.
fn hear_device<E: DeviceEnd, P: Port>(end: &mut E, port: &mut P) -> DeviceAct
    requires { (w : DeviceView) × DeviceOn P.port E.device port.old w end.old }
    ensures { (w : DeviceView) → DeviceOn P.port E.device port.old w end.old → DeviceRan P.port E.device port.old w port.new end.new }
{
    if !end.armed() {
        return DeviceAct::Awake;
    }
    end.begin_hear();
    finish_device(end, port)
}

fn is_asleep(act: DeviceAct) -> bool {
    matches!(act, DeviceAct::Asleep)
}

// The number of the chain that was taken, and its first address in units of 4,096.
fn taken_of(act: DeviceAct) -> Option<(u32, u64)> {
    match act {
        DeviceAct::Taken(number, chain) => Some((number, chain.pieces()[0].addr >> 12)),
        _ => None,
    }
}

// Takes a chain and gives it with a length of 10 bytes, or arms where there is none.
fn work_device<E: DeviceEnd, P: Port>(end: &mut E, port: &mut P) -> u64
    requires { (w : DeviceView) × DeviceOn P.port E.device port.old w end.old }
    ensures { (w : DeviceView) → DeviceOn P.port E.device port.old w end.old → DeviceRan P.port E.device port.old w port.new end.new }
{
    let Some((number, sum)) = taken_of(take_one(end, port)) else {
        arm_device(end, port);
        return 0;
    };
    give_one(end, port, number, 10);
    sum
}

/// One turn of a device: None where it sleeps on, else what the chain taken counts.
pub fn turn_device<E: DeviceEnd, P: Port>(end: &mut E, port: &mut P) -> Option<u64>
    requires { (w : DeviceView) × DeviceOn P.port E.device port.old w end.old }
    ensures { (w : DeviceView) → DeviceOn P.port E.device port.old w end.old → DeviceRan P.port E.device port.old w port.new end.new }
{
    if end.armed() {
        return (!is_asleep(hear_device(end, port))).then_some(0);
    }
    Some(work_device(end, port))
}
