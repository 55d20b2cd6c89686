//! A port that isn't plain: it tracks the driver's view through its first 64 accesses, and allows what is next there alone.
use crate::Split;
use arrayvec::ArrayVec;
use std::test::*;
use vd_layout::{DriverAct, DriverEnd, Layout, finish_driver};
use vd_model::{Chain, Features, Piece};
use vd_words::{Access, Op, PlainWords, Port};

/// Words, and the accesses of them so far.
#[derive(Drop)]
struct Tracked {
    words: PlainWords,
    count: u32,
    size: u32,
    log: ArrayVec<Option<(Op, Access, u64)>, 64>,
}

impl Port for Tracked {
    ghost use Rattle.std.specs.Prelude.{◌≡◌, refl};
    ghost use Rattle.std.proofs.Common.{◌∙◌};
    ghost use Rattle.vd_split.specs.Tracked.{MayTrack, TrackMoves};

    ghost port = { record {
      ring = λ s. 0;
      count = λ s. s.count;
      allows = λ s op a. MayTrack s.size s.words.words s.log.items op a;
      moves = λ s op a r t. (t.count ≡ s.count) × TrackMoves s.size t.size s.words.words t.words.words s.log.items t.log.items op a r;
      plain = λ s ws. ⊥;
      same = λ s t. s.count ≡ t.count;
    } };

    ghost lawful = { record {
      stays = λ s op a r t m. (refl, m.0);
      counted = λ s ws is. absurd is;
      may = λ s ws op a is fits. absurd is;
      does = λ s ws op a r t is m. absurd is;
      alike = λ s t p. (refl, p);
      same_refl = λ s. refl;
      same_trans = λ s t u p q. p ∙ q;
    } };

    fn ring(&self) -> u32 {
        0
    }

    fn words(&self) -> u32 {
        self.count
    }

    fn access(&mut self, op: Op, a: Access) -> u64 {
        let answer = self.words.port().access(op, a);
        if !self.log.is_full() {
            self.log.push(Some((op, a, answer)));
        }
        answer
    }
}

#[test]
fn an_offer_is_made_on_a_port_that_tracks_the_view(rt: HostRuntime) -> Result<(), Fail> {
    let plain = Features {
        indirect: false,
        event_idx: false,
        in_order: false,
    };
    let (mut driver, device) = Split::make(rt.alloc(), 4, plain, false)?;
    let _ = device;
    let count = Split::words(4, plain, false);
    let words = PlainWords::new(rt.alloc(), 0, count)?;
    let mut port = Tracked {
        words,
        count,
        size: 4,
        log: ArrayVec::new(),
    };
    let chain = Chain::new(Piece {
        addr: 4096,
        len: 10,
        write: false,
    });
    let _ = chain.pieces();
    assert_eq!(rt; driver.next_head(), 0);
    driver.begin_offer(&chain);
    assert!(rt; finish_driver(&mut driver, &mut port) == DriverAct::Offered(0));
    let made = [
        Some((Op::Offer, Access::Store(0, 0x1000), 0)),
        Some((Op::Offer, Access::Store(1, 0xa), 0)),
        Some((Op::Offer, Access::Store(8, 0), 0)),
        Some((Op::Offer, Access::Store(8, 0x1_0000), 0)),
        Some((Op::Offer, Access::Load(10), 0)),
        Some((Op::Offer, Access::Store(15, 1), 0)),
    ];
    assert!(rt; port.log.as_slice() == made.as_slice());
    Ok(())
}
