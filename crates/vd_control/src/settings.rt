//! What the control queue has set.
ghost use Rattle.std.specs.Prelude.{◌≡◌};
ghost use Rattle.vd_control.specs.Commands.{IsCommand};
ghost use Rattle.vd_control.specs.Settings.{HasPairs, applied, default};

use crate::{Command, vlans};

/// What the commands of a control queue have set (VIRTIO 1.2, 5.1.6.5).
#[derive(Copy, Clone, Debug, PartialEq, Eq)]
pub struct Settings {
    /// The receive flags, by their command's number.
    pub rx: [bool; 6],
    /// The MAC address; zeros where none was set.
    pub mac: [u8; 6],
    /// The set of VLANs: VLAN `v` is there where bit `v % 64` of word `v / 64` is set.
    pub vlans: [u64; 64],
    /// Pairs of queues, 1 to 32,768.
    pub pairs: u16,
    /// Offloads as bits.
    pub offloads: u64,
}

impl Settings {
    /// The settings before any command: flags off, no MAC address, no VLAN, one pair, no offloads.
    #[tactic(auto, unfolding(crate::specs::Settings::default))]
    pub fn new() -> Settings
        ensures value { result ≡ default }
        ensures lawful { HasPairs result }
    {
        Settings {
            rx: [false; 6],
            mac: [0; 6],
            vlans: [0; 64],
            pairs: 1,
            offloads: 0,
        }
    }

    /// Sets what the command says. Adding a VLAN that is there and deleting one that isn't change nothing.
    pub fn apply(&mut self, c: &Command)
        requires { IsCommand c.now }
        ensures value { self.new ≡ applied self.old c.now }
        ensures lawful { HasPairs self.old → HasPairs self.new }
    {
        match *c {
            Command::Rx(flag, on) => self.rx[flag as usize] = on,
            Command::Mac(mac) => self.mac = mac,
            Command::VlanAdd(vlan) => vlans::add(&mut self.vlans, vlan),
            Command::VlanDel(vlan) => vlans::remove(&mut self.vlans, vlan),
            Command::Pairs(pairs) => self.pairs = pairs,
            Command::Offloads(offloads) => self.offloads = offloads,
        }
    }
}
