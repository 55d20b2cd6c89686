//! What the driver's end offers its holder.
ghost use Rattle.std.specs.Prelude.{◌≡◌};
ghost use Rattle.vd_split.specs.DriverEnd.{split_driver};
ghost use Rattle.vd_split.specs.laws.DriverLaws.{driver_laws};
ghost use Rattle.vd_split.specs.Parts.{first_store};

use super::{DriverStep, DriverTold, SplitDriver};
use crate::descriptors::place_at;
use crate::tables::needed;
use vd_layout::DriverEnd;
use vd_model::{Chain, Features};
use vd_ring::DriverAct;
use vd_words::Port;

impl DriverEnd for SplitDriver {
    ghost driver = { split_driver };

    ghost driver_lawful = { driver_laws };

    fn size(&self) -> u32 {
        self.size
    }

    fn features(&self) -> Features {
        self.features
    }

    fn idle(&self) -> bool {
        matches!(self.doing, DriverStep::Idle)
    }

    fn armed(&self) -> bool {
        self.armed
    }

    fn offered(&self) -> u32 {
        self.offered
    }

    fn collected(&self) -> u32 {
        self.collected
    }

    fn room(&self, c: &Chain) -> bool {
        needed(self.features.indirect, c.pieces().len()) <= self.free.len()
    }

    fn next_head(&self) -> u32 {
        place_at(&self.free, 0)
    }

    fn begin_offer(&mut self, c: &Chain) {
        self.pieces.fill(c.pieces());
        self.doing = first_store(self.features.indirect, c.pieces().len());
    }

    fn begin_collect(&mut self) {
        self.doing = DriverStep::Look;
    }

    fn begin_arm(&mut self) {
        self.doing = DriverStep::Arm;
    }

    fn begin_hear(&mut self) {
        self.doing = DriverStep::Hear;
    }

    fn begin_disarm(&mut self) {
        self.doing = DriverStep::Disarm;
    }

    #[inline(always)]
    fn step<P: Port>(&mut self, port: &mut P) -> DriverAct {
        match self.advance(port) {
            DriverTold::Moved => DriverAct::Moved,
            DriverTold::Offered(number) => DriverAct::Offered(number),
            DriverTold::Collected => DriverAct::Collected {
                number: self.got.number,
                len: self.got.len,
                head: self.got.head,
            },
            DriverTold::Nothing => DriverAct::Nothing,
            DriverTold::Armed => DriverAct::Armed,
            DriverTold::Awake => DriverAct::Awake,
            DriverTold::Asleep => DriverAct::Asleep,
        }
    }
}

/// The first step of the offer of a chain of so many pieces: two and more stand in a table where the ring has them.
#[inline]
fn first_store(indirect: bool, pieces: usize) -> DriverStep
    ensures { result ≡ first_store indirect pieces }
{
    if indirect && pieces > 1 {
        DriverStep::Table(0)
    } else {
        DriverStep::Describe(0)
    }
}
