//! What a relay makes of a chain that it took.
ghost use Rattle.std.specs.Prelude.{◌≡◌, ℕ};
ghost use Rattle.vd_model.specs.Chains.{IsChain};
ghost use Rattle.vd_ring.specs.declared.device.DeviceView.{DeviceView};
ghost use Rattle.vd_ring.specs.declared.driver.DriverView.{DriverView};
ghost use Rattle.vd_relay.specs.Ways.{Way};
ghost use Rattle.vd_relay.specs.Carriers.{CarrierModel, MayCarry, HasCarried};

use crate::translate::translate;
use vd_iova::IovaTree;
use vd_layout::Layout;
use vd_model::Chain;

/// What a relay makes of a chain that it took from the guest's ring, before it offers it on the shadow ring.
pub trait Carrier<L: Layout> {
    /// By which way it carries, and what it keeps of a chain.
    ghost carrier: { CarrierModel Self };

    /// Makes of a chain just taken, of this number on the guest's ring, the one that is offered next on the shadow ring.
    fn carry(&mut self, number: u32, chain: &mut Chain, shadow: &L::Driver)
        requires { (way : Way) × (w : DeviceView) × (v : DriverView)
            × MayCarry carrier L.layout L.Device.device L.Driver.driver way self.old number chain.old shadow.now w v }
        ensures carried { (way : Way) (w : DeviceView) (v : DriverView)
            → MayCarry carrier L.layout L.Device.device L.Driver.driver way self.old number chain.old shadow.now w v
            → HasCarried carrier L.Driver.driver way self.old self.new number chain.old chain.new v }
        ensures lawful { IsChain chain.new };

    /// The chain that it made last was offered, at this head of the shadow ring.
    fn offered(&mut self, head: u32)
        requires { carrier.may_offer self.old head }
        ensures { carrier.offered self.old head self.new };

    /// The chain at this head of the shadow ring was collected.
    fn collected(&mut self, head: u32)
        requires { carrier.may_collect self.old head }
        ensures { carrier.collected self.old head self.new };
}

/// A data queue's carrier: it moves each address by the tree.
#[derive(Drop)]
pub(crate) struct Mover<'a> {
    pub(crate) tree: &'a IovaTree,
}

impl<L: Layout> Carrier<L> for Mover<'_> {
    ghost use Rattle.std.specs.Prelude.{◌≡◌};
    ghost use Rattle.vd_relay.specs.Ways.{moving};

    ghost carrier = { record {
      by = λ m way g. way ≡ moving m.tree.now.mappings;
      took = λ m number c m'. m' ≡ m;
      may_offer = λ m h. Unit {0};
      offered = λ m h m'. m' ≡ m;
      may_collect = λ m h. Unit {0};
      collected = λ m h m'. m' ≡ m;
    } };

    #[inline(always)]
    fn carry(&mut self, number: u32, chain: &mut Chain, shadow: &L::Driver) {
        let _ = number;
        let _ = shadow;
        translate(self.tree, chain);
    }

    #[inline(always)]
    fn offered(&mut self, head: u32) {
        let _ = head;
    }

    #[inline(always)]
    fn collected(&mut self, head: u32) {
        let _ = head;
    }
}
