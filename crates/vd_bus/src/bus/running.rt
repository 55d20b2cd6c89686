//! Whether the device runs, and orders to serve its queues.
ghost use Rattle.std.specs.Prelude.{◌≡◌, true, false, IfOk, OnOk, OnErr};
ghost use Rattle.std.specs.Result.{result_err};
ghost use Rattle.vd_bus.specs.BusStatus.{is_driver_ok, is_features_ok, running_fault, suspend_fault, resume_fault, with_suspended};
ghost use Rattle.vd_bus.specs.BusRings.{ring_at, order_fault, terms};

use super::Bus;
use super::status::DRIVEN;
use crate::fault::BusFault;
use crate::order::Order;
use vd_model::Base;
use vd_uapi::VringAddr;

/// The number of the ring that lies there; one that lies nowhere counts as 0.
fn ring_at(addr: Option<VringAddr>) -> u32
    ensures { result ≡ ring_at addr }
{
    addr.map_or(0, |a| (a.desc >> 32) as u32)
}

impl Bus {
    pub(super) fn is_driver_ok(&self) -> bool
        ensures { result ≡ is_driver_ok self.now }
    {
        self.status >> 2 & 1 == 1
    }

    pub(super) fn is_features_ok(&self) -> bool
        ensures { result ≡ is_features_ok self.now }
    {
        self.status >> 3 & 1 == 1
    }

    /// Refuses what can't be set while the device runs.
    pub(super) fn check_still(&self) -> Result<(), BusFault>
        ensures { result_err result ≡ running_fault self.now }
    {
        if self.is_driver_ok() && !self.suspended {
            return Err(BusFault::NotSuspended(self.status));
        }
        Ok(())
    }

    /// Suspends the device (`VHOST_VDPA_SUSPEND`).
    pub fn suspend(&mut self) -> Result<(), BusFault>
        ensures fault { result_err result ≡ suspend_fault self.old }
        ensures ok { OnOk result (self.new ≡ with_suspended self.old true) }
        ensures same { OnErr result (self.new ≡ self.old) }
    {
        if self.status != DRIVEN || self.suspended {
            return Err(BusFault::WrongStatus(self.status));
        }
        self.suspended = true;
        Ok(())
    }

    /// Lets the device run on (`VHOST_VDPA_RESUME`).
    pub fn resume(&mut self) -> Result<(), BusFault>
        ensures fault { result_err result ≡ resume_fault self.old }
        ensures ok { OnOk result (self.new ≡ with_suspended self.old false) }
        ensures same { OnErr result (self.new ≡ self.old) }
    {
        if !self.suspended {
            return Err(BusFault::NotSuspended(self.status));
        }
        self.suspended = false;
        Ok(())
    }

    /// The order to serve a queue from its base on, and to begin `count` chains.
    pub fn order(&self, n: u32, count: u32) -> Result<Order, BusFault>
        ensures fault { result_err result ≡ order_fault self.now n }
        ensures ok { IfOk result (λ o. o ≡ terms self.now n count) }
    {
        let place = self.find(n)?;
        let vring = self.vrings[place];
        if self.status != DRIVEN || self.suspended || !vring.enabled {
            return Err(BusFault::WrongStatus(self.status));
        }
        Ok(Order {
            queue: n,
            ring: ring_at(vring.addr),
            base: Base(vring.base),
            count,
            size: vring.num,
            features: self.features_accepted(),
            map: self.map.copy(),
        })
    }
}
