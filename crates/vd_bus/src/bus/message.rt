//! Messages on the map (`vhost_msg_v2` of the kernel's vhost_types.h).
ghost use Rattle.std.specs.Prelude.{◌≡◌, ◌<◌, not, filter, OnOk, OnErr, length};
ghost use Rattle.std.specs.Bool.{OnTrue};
ghost use Rattle.std.specs.List.{list_any};
ghost use Rattle.std.specs.Result.{result_err};
ghost use Rattle.vd_iova.specs.Ranges.{meets_iova};
ghost use Rattle.vd_bus.specs.BusMap.{is_named, can_map, allows, message_fault, after_message};

use super::Bus;
use crate::fault::BusFault;
use vd_model::{Map, Mapping};
use vd_uapi::Msg;

/// VHOST_IOTLB_UPDATE, INVALIDATE, BATCH_BEGIN and BATCH_END.
const UPDATE: u8 = 2;

const INVALIDATE: u8 = 3;

const BATCH_BEGIN: u8 = 5;

const BATCH_END: u8 = 6;

/// Where the guest's memory ends at the latest.
const END: u128 = 1 << 63;

/// Whether the message's iovas meet the mapping's.
fn meets(m: &Msg, k: &Mapping) -> bool
    ensures { result ≡ meets_iova m.now.iova m.now.size k.now }
{
    (m.iova as u128) < k.iova as u128 + k.size as u128
        && (k.iova as u128) < m.iova as u128 + m.size as u128
}

/// Whether the mapping is the one that the message names.
fn is_named(m: &Msg, k: &Mapping) -> bool
    ensures { result ≡ is_named m.now k.now }
{
    k.iova == m.iova && k.size == m.size
}

/// Whether the message's iovas meet those of a mapping.
fn meets_one(mappings: &[Mapping], m: &Msg) -> bool
    ensures { result ≡ list_any (meets_iova m.now.iova m.now.size) mappings.now }
{
    mappings.iter().any(|k| meets(m, k))
}

/// Whether the message names a mapping.
fn names_one(mappings: &[Mapping], m: &Msg) -> bool
    ensures { result ≡ list_any (is_named m.now) mappings.now }
{
    mappings.iter().any(|k| is_named(m, k))
}

/// The mappings that the message doesn't name, in their order.
fn without(map: &Map, m: &Msg) -> Map
    ensures { result ≡ filter (λ k. not (is_named m.now k)) map.now }
{
    let mut left = Map::new();
    for k in map.mappings() {
        if !is_named(m, k) {
            left.push(*k);
        }
    }
    left
}

impl Bus {
    /// Takes a message on the map, which an UPDATE extends and an INVALIDATE shortens.
    pub fn iotlb(&mut self, m: &Msg) -> Result<(), BusFault>
        ensures fault { result_err result ≡ message_fault self.old m.now }
        ensures ok { OnOk result (self.new ≡ after_message self.old m.now) }
        ensures same { OnErr result (self.new ≡ self.old) }
    {
        if m.asid != 0 {
            return Err(BusFault::BadAsid(m.asid));
        }
        if !matches!(m.kind, UPDATE | INVALIDATE | BATCH_BEGIN | BATCH_END) {
            return Err(BusFault::BadMessage(m.kind));
        }
        self.check_still()?;
        if !self.allows(m) {
            return Err(BusFault::BadMap(m.iova));
        }
        self.change_map(m);
        Ok(())
    }

    /// Whether an UPDATE may map, and an INVALIDATE names a mapping.
    fn allows(&self, m: &Msg) -> bool
        ensures value { result ≡ allows self.now m.now }
        ensures room { OnTrue result (m.now.kind ≡ 2 → length self.now.map < Map.MOST) }
    {
        match m.kind {
            UPDATE => self.can_map(m),
            INVALIDATE => names_one(self.map.mappings(), m),
            _ => true,
        }
    }

    fn can_map(&self, m: &Msg) -> bool
        ensures value { result ≡ can_map self.now m.now }
        ensures room { OnTrue result (length self.now.map < Map.MOST) }
    {
        m.size != 0
            && self.first <= m.iova
            && m.iova as u128 + m.size as u128 <= self.last as u128 + 1
            && m.uaddr as u128 + m.size as u128 <= END
            && !meets_one(self.map.mappings(), m)
            && !self.map.is_full()
    }

    fn change_map(&mut self, m: &Msg)
        requires { m.now.kind ≡ 2 → length self.old.map < Map.MOST }
        ensures { self.new ≡ after_message self.old m.now }
    {
        if m.kind == UPDATE {
            self.map.push(Mapping {
                iova: m.iova,
                size: m.size,
                guest: m.uaddr,
            });
        } else if m.kind == INVALIDATE {
            self.map = without(&self.map, m);
        }
    }
}
