//! The calls on one queue.
ghost use Rattle.std.specs.Prelude.{◌≡◌, ◌<◌, ◌^◌, OnOk, OnErr, IfOk, length, slice_set};
ghost use Rattle.std.specs.Result.{result_err};
ghost use Rattle.vd_bus.specs.Bus.{place_of, vring_of, with_vring};
ghost use Rattle.vd_bus.specs.BusRings.{still_fault, num_fault, after_num, after_addr, base_fault, after_base, base_told, enable_fault, after_enable};

use super::vring::{fresh_base, is_lawful_base, is_lawful_size};
use super::{Bus, Vring};
use crate::fault::BusFault;
use vd_uapi::{VringAddr, VringState};

impl Bus {
    fn put(&mut self, place: usize, vring: Vring)
        requires { place < length self.old.vrings }
        ensures { self.new ≡ record self.old { vrings = slice_set self.old.vrings place vring } }
    {
        self.vrings[place] = vring;
    }

    /// Sets how many places a queue's ring has; its base is then the fresh one (`VHOST_SET_VRING_NUM`).
    pub fn set_vring_num(&mut self, v: &VringState) -> Result<(), BusFault>
        ensures fault { result_err result ≡ num_fault self.old v.now }
        ensures ok { OnOk result (self.new ≡ after_num self.old v.now) }
        ensures same { OnErr result (self.new ≡ self.old) }
    {
        let place = self.find(v.index)?;
        if self.is_driver_ok() {
            return Err(BusFault::WrongStatus(self.status));
        }
        if !is_lawful_size(self.packed, v.num) || self.size_max < v.num {
            return Err(BusFault::BadNum(v.num));
        }
        let base = fresh_base(self.packed);
        let vring = self.vrings[place];
        self.put(
            place,
            Vring {
                num: v.num,
                base,
                ..vring
            },
        );
        Ok(())
    }

    /// Sets where a queue's ring lies (`VHOST_SET_VRING_ADDR`).
    pub fn set_vring_addr(&mut self, a: &VringAddr) -> Result<(), BusFault>
        ensures fault { result_err result ≡ still_fault self.old a.now.index }
        ensures ok { OnOk result (self.new ≡ after_addr self.old a.now) }
        ensures same { OnErr result (self.new ≡ self.old) }
    {
        let place = self.find(a.index)?;
        self.check_still()?;
        let vring = self.vrings[place];
        self.put(
            place,
            Vring {
                addr: Some(*a),
                ..vring
            },
        );
        Ok(())
    }

    /// Sets the base from which a queue's ring is served (`VHOST_SET_VRING_BASE`).
    pub fn set_vring_base(&mut self, v: &VringState) -> Result<(), BusFault>
        ensures fault { result_err result ≡ base_fault self.old v.now }
        ensures ok { OnOk result (self.new ≡ after_base self.old v.now) }
        ensures same { OnErr result (self.new ≡ self.old) }
    {
        let place = self.find(v.index)?;
        self.check_still()?;
        let vring = self.vrings[place];
        if !is_lawful_base(self.packed, vring.num, v.num) {
            return Err(BusFault::BadBase(v.num));
        }
        self.put(
            place,
            Vring {
                base: v.num,
                ..vring
            },
        );
        Ok(())
    }

    /// The base that is kept for a queue's ring (`VHOST_GET_VRING_BASE`).
    pub fn get_vring_base(&self, n: u32) -> Result<VringState, BusFault>
        ensures fault { result_err result ≡ still_fault self.now n }
        ensures ok { IfOk result (λ v. v ≡ base_told self.now n) }
    {
        let place = self.find(n)?;
        self.check_still()?;
        Ok(VringState {
            index: n,
            num: self.vrings[place].base,
        })
    }

    /// Sets whether a queue is served: 1, or 0 (`VHOST_VDPA_SET_VRING_ENABLE`).
    pub fn set_vring_enable(&mut self, v: &VringState) -> Result<(), BusFault>
        ensures fault { result_err result ≡ enable_fault self.old v.now }
        ensures ok { OnOk result (self.new ≡ after_enable self.old v.now) }
        ensures same { OnErr result (self.new ≡ self.old) }
    {
        let place = self.find(v.index)?;
        if !self.is_features_ok() {
            return Err(BusFault::WrongStatus(self.status));
        }
        if 1 < v.num {
            return Err(BusFault::BadNum(v.num));
        }
        let vring = self.vrings[place];
        self.put(
            place,
            Vring {
                enabled: v.num == 1,
                ..vring
            },
        );
        Ok(())
    }
}
