//! A command of the control queue, and its bytes.
ghost use Rattle.std.specs.Prelude.{◌≡◌, ◌≤◌, ◌∷◌, length, Some, IfSome};
ghost use Rattle.vd_control.specs.Commands.{IsCommand, command, spelled};

use arrayvec::ArrayVec;

/// How many pairs of queues a command may set (VIRTIO 1.2, 5.1.6.5.6).
const MOST_PAIRS: u16 = 32_768;

/// A command of the control queue (VIRTIO 1.2, 5.1.6.5).
#[derive(Copy, Clone, Debug, PartialEq, Eq)]
pub enum Command {
    /// VIRTIO_NET_CTRL_RX: sets the receive flag of this number, 0 to 5 (promiscuous, all multicast, all unicast, no
    /// multicast, no unicast, no broadcast; VIRTIO 1.2, 5.1.6.5.1).
    Rx(u8, bool),
    /// VIRTIO_NET_CTRL_MAC_ADDR_SET (VIRTIO 1.2, 5.1.6.5.2).
    Mac([u8; 6]),
    /// VIRTIO_NET_CTRL_VLAN_ADD, at most 4,095 (VIRTIO 1.2, 5.1.6.5.3).
    VlanAdd(u16),
    /// VIRTIO_NET_CTRL_VLAN_DEL, at most 4,095 (VIRTIO 1.2, 5.1.6.5.3).
    VlanDel(u16),
    /// VIRTIO_NET_CTRL_MQ_VQ_PAIRS_SET: 1 to `MOST_PAIRS` pairs of queues (VIRTIO 1.2, 5.1.6.5.6).
    Pairs(u16),
    /// VIRTIO_NET_CTRL_GUEST_OFFLOADS_SET: the offloads as bits (VIRTIO 1.2, 5.1.6.5.8).
    Offloads(u64),
}

impl Command {
    /// The command that these bytes spell, with nothing after it; None where they spell none.
    #[tactic(auto, unfolding(crate::specs::Commands::command))]
    pub fn read(bytes: &[u8]) -> Option<Command>
        ensures value { result ≡ command bytes.now }
        ensures lawful { IfSome result IsCommand }
    {
        match *bytes {
            [0, flag, value] if flag < 6 => Some(Command::Rx(flag, value != 0)),
            [1, 1, a, b, c, d, e, f] => Some(Command::Mac([a, b, c, d, e, f])),
            [2, 0, low, high] => {
                let vlan = u16::from_le_bytes([low, high]);
                (vlan < 4096).then_some(Command::VlanAdd(vlan))
            }
            [2, 1, low, high] => {
                let vlan = u16::from_le_bytes([low, high]);
                (vlan < 4096).then_some(Command::VlanDel(vlan))
            }
            [4, 0, low, high] => {
                let pairs = u16::from_le_bytes([low, high]);
                (1 <= pairs && pairs <= MOST_PAIRS).then_some(Command::Pairs(pairs))
            }
            [5, 0, a, b, c, d, e, f, g, h] => {
                Some(Command::Offloads(u64::from_le_bytes([a, b, c, d, e, f, g, h])))
            }
            _ => None,
        }
    }

    /// The command's bytes.
    pub fn write(&self) -> ArrayVec<u8, 10>
        requires { IsCommand self.now }
        ensures bytes { result.items ≡ spelled self.now }
        ensures back { command result.items ≡ Some self.now }
    {
        match *self {
            Command::Rx(flag, on) => bytes_of(0, flag, &[on as u8]),
            Command::Mac(mac) => bytes_of(1, 1, &mac),
            Command::VlanAdd(vlan) => bytes_of(2, 0, &vlan.to_le_bytes()),
            Command::VlanDel(vlan) => bytes_of(2, 1, &vlan.to_le_bytes()),
            Command::Pairs(pairs) => bytes_of(4, 0, &pairs.to_le_bytes()),
            Command::Offloads(offloads) => bytes_of(5, 0, &offloads.to_le_bytes()),
        }
    }
}

/// Class, command and payload, one after the other.
fn bytes_of(class: u8, code: u8, payload: &[u8]) -> ArrayVec<u8, 10>
    requires { length payload.now ≤ 8 }
    ensures { result.items ≡ class ∷ code ∷ payload.now }
{
    let mut bytes = ArrayVec::new();
    bytes.push(class);
    bytes.push(code);
    for byte in payload {
        bytes.push(*byte);
    }
    bytes
}
