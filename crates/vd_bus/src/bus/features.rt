//! What the driver and the device agree on (VIRTIO 1.2, 6).
ghost use Rattle.std.specs.Prelude.{◌≡◌, ◌<◌, ◌^◌, OnOk, OnErr};
ghost use Rattle.std.specs.Result.{result_err};
ghost use Rattle.vd_bus.specs.BusStatus.{has, bit_if, feature_bits, features_of, features_accepted, offered_bits, are_acceptable, features_fault, after_features};

use super::Bus;
use crate::fault::BusFault;
use vd_model::Features;

/// The numbers of the features' bits.
const INDIRECT_DESC: u32 = 28;

const EVENT_IDX: u32 = 29;

const VERSION_1: u32 = 32;

const ACCESS_PLATFORM: u32 = 33;

const RING_PACKED: u32 = 34;

const IN_ORDER: u32 = 35;

/// The status at which features are accepted: ACKNOWLEDGE and DRIVER.
const DRIVER: u8 = 3;

fn has(bits: u64, bit: u32) -> bool
    requires { bit < 64 }
    ensures { result ≡ has bits bit }
{
    bits >> bit & 1 == 1
}

/// The bit, where it is on.
fn bit_if(on: bool, bit: u32) -> u64
    requires { bit < 64 }
    ensures { result ≡ bit_if on bit }
{
    if on { 1 << bit } else { 0 }
}

/// Those that a device of the layout offers with these: VERSION_1 and ACCESS_PLATFORM always.
fn feature_bits(packed: bool, f: Features) -> u64
    ensures { result ≡ feature_bits packed f }
{
    bit_if(true, VERSION_1)
        + bit_if(true, ACCESS_PLATFORM)
        + bit_if(packed, RING_PACKED)
        + bit_if(f.indirect, INDIRECT_DESC)
        + bit_if(f.event_idx, EVENT_IDX)
        + bit_if(f.in_order, IN_ORDER)
}

impl Bus {
    /// The features offered, as bits (`VHOST_GET_FEATURES`).
    pub fn get_features(&self) -> u64
        ensures { result ≡ offered_bits self.now }
    {
        feature_bits(self.packed, self.offered)
    }

    /// Accepts features, between the statuses 3 and 11 (`VHOST_SET_FEATURES`).
    pub fn set_features(&mut self, bits: u64) -> Result<(), BusFault>
        ensures fault { result_err result ≡ features_fault self.old bits }
        ensures ok { OnOk result (self.new ≡ after_features self.old bits) }
        ensures same { OnErr result (self.new ≡ self.old) }
    {
        if self.status != DRIVER {
            return Err(BusFault::WrongStatus(self.status));
        }
        if !self.are_acceptable(bits) {
            return Err(BusFault::BadFeatures(bits));
        }
        self.accepted = Some(bits);
        Ok(())
    }

    /// Whether each bit is offered, the two that must be are there, and RING_PACKED is as the layout.
    fn are_acceptable(&self, bits: u64) -> bool
        ensures { result ≡ are_acceptable self.now bits }
    {
        bits & self.get_features() == bits
            && has(bits, VERSION_1)
            && has(bits, ACCESS_PLATFORM)
            && has(bits, RING_PACKED) == self.packed
    }

    /// Those that a ring is made with.
    pub(super) fn features_accepted(&self) -> Features
        ensures { result ≡ features_accepted self.now }
    {
        let bits = self.accepted.unwrap_or(0);
        Features {
            indirect: has(bits, INDIRECT_DESC),
            event_idx: has(bits, EVENT_IDX),
            in_order: has(bits, IN_ORDER),
        }
    }
}
