//! The list of commands that sets settings again.
ghost use Rattle.std.specs.Prelude.{◌≡◌, ◌<◌, ◌≤◌, length, map, slice_get, Some};
ghost use Rattle.vd_control.specs.Commands.{IsCommand, spelled};
ghost use Rattle.vd_control.specs.Settings.{FoldsComeBack, HasPairs, after, folded, is_zeros, replay};

use crate::{Command, Settings, flags, vlans};

/// How many commands set the settings again, at most 4,105.
pub fn replay_len(s: &Settings) -> u32
    requires { HasPairs s.now }
    ensures value { result ≡ length (replay s.now) }
    ensures most { result ≤ 4105 }
{
    flags::count(&s.rx)
        + u32::from(!is_zeros(&s.mac))
        + vlans::count(&s.vlans)
        + u32::from(s.pairs != 1)
        + u32::from(s.offloads != 0)
}

/// Command `i` of those that set the settings again: the flags that are on, the address, the VLANs ascending, the
/// pairs, the offloads.
pub fn replay_at(s: &Settings, i: u32) -> Command
    requires pairs { HasPairs s.now }
    requires below { i < length (replay s.now) }
    ensures value { slice_get (replay s.now) i ≡ Some result }
    ensures lawful { IsCommand result }
{
    let flags = flags::count(&s.rx);
    if i < flags {
        return Command::Rx(flags::nth(&s.rx, i), true);
    }
    let addresses = u32::from(!is_zeros(&s.mac));
    if i < flags + addresses {
        return Command::Mac(s.mac);
    }
    let vlans = vlans::count(&s.vlans);
    if i < flags + addresses + vlans {
        return Command::VlanAdd(vlans::nth(&s.vlans, i - flags - addresses));
    }
    let pairs = u32::from(s.pairs != 1);
    if i < flags + addresses + vlans + pairs {
        return Command::Pairs(s.pairs);
    }
    Command::Offloads(s.offloads)
}

/// Whether the address is zeros, as before any was set.
fn is_zeros(mac: &[u8; 6]) -> bool
    ensures { result ≡ is_zeros mac.now }
{
    mac.iter().all(|byte| *byte == 0)
}

/// The law of the replay list: it sets from the default what `s` holds, as commands and as their bytes; and so for
/// whatever settings a list of byte strings leaves. It does nothing when it runs.
pub fn replay_comes_back(s: &Settings)
    requires { HasPairs s.now }
    ensures commands { after (replay s.now) ≡ s.now }
    ensures bytes { folded (map spelled (replay s.now)) ≡ s.now }
    ensures folds { FoldsComeBack }
{
    let _offloads = s.offloads;
    vlans::words_come_back(&s.vlans);
}
