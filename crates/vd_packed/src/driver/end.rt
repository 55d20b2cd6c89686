//! What the driver's end offers its holder.
ghost use Rattle.std.specs.Prelude.{◌≡◌, ◌≤◌, ◌<◌, length};
ghost use Rattle.vd_words.specs.Own.{IsOwn};
ghost use Rattle.vd_ring.specs.declared.driver.DriverView.{DriverView};
ghost use Rattle.vd_packed_ring.specs.PackedDriver.{driver_side};
ghost use Rattle.vd_layout.specs.Driver.{IsDriverStep};
ghost use Rattle.vd_packed.specs.DriverEnd.{DriverStands, IsSignal, packed_driver};
ghost use Rattle.vd_packed.specs.laws.DriverLaws.{driver_laws};
ghost use Rattle.vd_packed.specs.Tabled.{first_at, first_store};

use super::ids::next_id;
use super::{DriverStep, PackedDriver};
use crate::ring_position::{RingPosition, forward};
use crate::tables::{is_tabled, needed};
use arrayvec::ArrayVec;
use vd_layout::DriverEnd;
use vd_model::{Chain, Features, Piece};
use vd_ring::DriverAct;
use vd_words::{Op, Port};

impl DriverEnd for PackedDriver {
    ghost driver = { packed_driver };

    ghost driver_lawful = { driver_laws };

    fn size(&self) -> u32 {
        self.size
    }

    fn features(&self) -> Features {
        self.features
    }

    fn idle(&self) -> bool {
        matches!(self.doing, DriverStep::Idle)
    }

    fn armed(&self) -> bool {
        self.armed
    }

    fn offered(&self) -> u32 {
        self.offered
    }

    fn collected(&self) -> u32 {
        self.collected
    }

    fn room(&self, c: &Chain) -> bool {
        needed(self.features.indirect, c.pieces().len()) <= self.space as usize
    }

    fn next_head(&self) -> u32 {
        next_id(&self.free)
    }

    fn begin_offer(&mut self, c: &Chain) {
        copy_pieces(&mut self.pieces, c.pieces());
        let ring_position = first_at(
            self.features.indirect,
            c.pieces().len(),
            self.next,
            self.size,
        );
        self.at.place = ring_position.place;
        self.at.wrap = ring_position.wrap;
        self.doing = first_store(self.features.indirect, c.pieces().len());
    }

    fn begin_collect(&mut self) {
        self.doing = DriverStep::Look;
    }

    fn begin_arm(&mut self) {
        self.doing = DriverStep::Arm;
    }

    fn begin_hear(&mut self) {
        self.doing = DriverStep::Hear;
    }

    fn begin_disarm(&mut self) {
        self.doing = DriverStep::Disarm;
    }

    #[inline(always)]
    fn step<P: Port>(&mut self, port: &mut P) -> DriverAct {
        match self.doing {
            DriverStep::Idle => unreachable!(),
            DriverStep::Describe(at) => self.describe(port, at),
            DriverStep::Table(at) => self.tabulate(port, at),
            DriverStep::Publish => self.publish(port),
            DriverStep::Look => self.look(port),
            DriverStep::Check(_)
            | DriverStep::Ring
            | DriverStep::Arm
            | DriverStep::LookAgain
            | DriverStep::Hear
            | DriverStep::WakeArming
            | DriverStep::WakeHearing
            | DriverStep::Disarm => self.signal(port),
        }
    }
}

impl PackedDriver {
    /// Makes one access of a check, a bell, an arming, a hearing or a disarming.
    #[inline(always)]
    fn signal<P: Port>(&mut self, port: &mut P) -> DriverAct
        requires now { IsSignal self.old.doing }
        requires own { (v : DriverView) × DriverStands self.old v × IsOwn P.port driver_side port.old v }
        ensures { (v : DriverView) → DriverStands self.old v → IsOwn P.port driver_side port.old v
            → IsDriverStep P.port packed_driver port.old port.new v self.old self.new result }
    {
        match self.doing {
            DriverStep::Idle
            | DriverStep::Describe(_)
            | DriverStep::Table(_)
            | DriverStep::Publish
            | DriverStep::Look => unreachable!(),
            DriverStep::Check(count) => self.check(port, count),
            DriverStep::Ring => self.ring(port),
            DriverStep::Arm => self.arm(port),
            DriverStep::LookAgain => self.look_again(port),
            DriverStep::Hear => self.hear(port),
            DriverStep::WakeArming => self.wake(port, Op::Arm),
            DriverStep::WakeHearing => self.wake(port, Op::Hear),
            DriverStep::Disarm => self.disarm(port),
        }
    }
}

/// Puts these pieces in place of those that are there.
fn copy_pieces(to: &mut ArrayVec<Piece, 16>, from: &[Piece])
    requires { length from.now ≤ 16 }
    ensures { to.new.items ≡ from.now }
{
    // as many as there were: no blanks are written first
    if to.len() == from.len() {
        to.as_mut_slice().copy_from_slice(from);
        return;
    }
    to.clear();
    match to.try_extend_from_slice(from) {
        Ok(()) => {}
        Err(_) => unreachable!(),
    }
}

/// The first step of the offer of a chain of so many pieces.
#[inline]
fn first_store(indirect: bool, pieces: usize) -> DriverStep
    ensures { result ≡ first_store indirect pieces }
{
    if is_tabled(indirect, pieces) {
        DriverStep::Table(0)
    } else {
        DriverStep::Describe(0)
    }
}

/// Where its first descriptor stands, or, of a chain by a table, the first after its one.
#[inline]
fn first_at(indirect: bool, pieces: usize, next: RingPosition, size: u32) -> RingPosition
    requires { (next.place < size) × (1 ≤ size) × (size ≤ 32768) }
    ensures { result ≡ first_at indirect pieces next size }
{
    if is_tabled(indirect, pieces) {
        forward(next, 1, size)
    } else {
        next
    }
}
