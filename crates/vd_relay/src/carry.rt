//! The command that a relay of a control queue has in hand, between two turns of its rings.
ghost use Rattle.std.specs.Prelude.{◌≡◌, ◌≤◌, ℕ, IsTrue, false};
ghost use Rattle.vd_model.specs.Chains.{readable};
ghost use Rattle.vd_relay.specs.Carrying.{IsCommandAt};
ghost use Rattle.vd_relay.specs.Underway.{due};

use vd_model::Chain;
use vd_table::Command;

/// A command that was taken from the guest's ring and isn't loaded yet: its number there, the places of its first command word and
/// of its ack word, and how many bytes it has.
#[derive(Copy, Clone, Debug, PartialEq, Eq)]
pub struct Found {
    pub number: u32,
    pub place: u32,
    pub ack_place: u32,
    pub count: u32,
}

/// The command of a control chain just taken.
pub fn found_of(number: u32, chain: &Chain) -> Found
    requires { (a : ℕ) × (b : ℕ) × IsCommandAt a b chain.now }
    ensures number { result.number ≡ number }
    ensures places { (a b : ℕ) → IsCommandAt a b chain.now → (result.place ≡ a) × (result.ack_place ≡ b) }
    ensures count { result.count ≡ readable chain.now }
{
    let pieces = chain.pieces();
    Found {
        number,
        place: (pieces[0].addr / 8) as u32,
        ack_place: (pieces[1].addr / 8) as u32,
        count: pieces[0].len,
    }
}

/// The command in hand, and which of the accesses of its command and ack words comes next.
#[derive(Copy, Clone, Debug, PartialEq, Eq)]
pub enum Carry {
    /// None is in hand.
    None,
    /// The load of the first command word, on the guest's ring.
    First { found: Found },
    /// The load of the second.
    Second { found: Found, first: u64 },
    /// The store of the first command word, in the shadow ring's next head.
    StoreFirst { command: Command },
    /// The store of the second.
    StoreSecond { command: Command },
    /// Nothing: its offer is made.
    Offer { command: Command },
    /// It came back: the load of the ack word of its head, on the shadow ring.
    LoadAck { head: u32, command: Command },
    /// The store of the ack, on the guest's ring. Its give comes then.
    StoreAck { place: u32, ack: u64 },
}

impl Carry {
    /// Whether an access of a command or ack word is due.
    pub fn is_due(&self) -> bool
        ensures yes { IsTrue result → 1 ≤ due self.now }
        ensures no { result ≡ false → due self.now ≡ 0 }
    {
        !matches!(self, Carry::None | Carry::Offer { .. })
    }
}
