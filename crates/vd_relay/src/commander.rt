//! A control queue's carrier.
ghost use Rattle.std.specs.Prelude.{◌≡◌, ℕ};
ghost use Rattle.vd_model.specs.Chains.{IsChain, readable};
ghost use Rattle.vd_ring.specs.declared.driver.DriverView.{DriverView};
ghost use Rattle.vd_ring.specs.History.{next_head};
ghost use Rattle.vd_relay.specs.Accesses.{HasFree};
ghost use Rattle.vd_relay.specs.Carrying.{IsCommandAt};
ghost use Rattle.vd_relay.specs.Replays.{control_chain};

use crate::carrier::Carrier;
use crate::carry::{Carry, found_of};
use vd_layout::{DriverEnd, Layout};
use vd_model::Chain;
use vd_table::{Command, Rows};

/// It makes of each command the control chain of the shadow ring's next head, and has it in hand from then on, until it is offered.
/// Then it is kept at its head, and in hand again after it was collected.
#[derive(Drop)]
pub struct Commander {
    pub hand: Carry,
    /// The commands that stand on the shadow ring, by their heads.
    pub commands: Rows<Command>,
}

/// Moves a control chain to the next head of the shadow ring: its pieces' lengths stay.
fn to_next_head<L: Layout>(chain: &mut Chain, shadow: &L::Driver)
    requires chain { (a : ℕ) × (b : ℕ) × IsCommandAt a b chain.old }
    requires free { (v : DriverView) × HasFree L.layout L.Driver.driver shadow.now v }
    ensures value { (v : DriverView) → HasFree L.layout L.Driver.driver shadow.now v
        → chain.new ≡ control_chain (L.Driver.driver.words.command v.frame (next_head v.frame v.done))
        (L.Driver.driver.words.ack v.frame (next_head v.frame v.done)) (readable chain.old) }
    ensures lawful { IsChain chain.new }
{
    let size = shadow.size();
    let f = shadow.features();
    let head = shadow.next_head();
    let command = L::command_word(size, f, head);
    let ack = L::ack_word(size, f, head);
    chain.set_addr(0, 8 * u64::from(command));
    chain.set_addr(1, 8 * u64::from(ack));
}

impl<L: Layout> Carrier<L> for Commander {
    ghost use Rattle.vd_relay.specs.Commanders.{commander};

    ghost carrier = { commander L.layout };

    fn carry(&mut self, number: u32, chain: &mut Chain, shadow: &L::Driver) {
        self.hand = Carry::First {
            found: found_of(number, chain),
        };
        to_next_head::<L>(chain, shadow);
    }

    fn offered(&mut self, head: u32) {
        let Carry::Offer { command } = self.hand else {
            unreachable!()
        };
        self.commands.put(head, command);
        self.hand = Carry::None;
    }

    fn collected(&mut self, head: u32) {
        let command = self.commands.take(head);
        self.hand = Carry::LoadAck { head, command };
    }
}
