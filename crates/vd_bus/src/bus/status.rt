//! The status (VIRTIO 1.2, 2.1).
ghost use Rattle.std.specs.Prelude.{◌≡◌, OnOk, OnErr};
ghost use Rattle.std.specs.List.{list_all};
ghost use Rattle.std.specs.Result.{result_err};
ghost use Rattle.vd_bus.specs.BusStatus.{is_ready, is_step, is_next, reset, status_fault, after_status};

use super::{Bus, Vring};
use crate::fault::BusFault;

/// ACKNOWLEDGE, DRIVER, DRIVER_OK and FEATURES_OK: the driver has set up all.
pub(super) const DRIVEN: u8 = 15;

/// The driver has given up.
const FAILED: u8 = 128;

fn is_ready(vring: &Vring) -> bool
    ensures { result ≡ is_ready vring.now }
{
    vring.num != 0 && vring.addr.is_some()
}

fn all_ready(vrings: &[Vring]) -> bool
    ensures { result ≡ list_all is_ready vrings.now }
{
    vrings.iter().all(|vring| is_ready(vring))
}

impl Bus {
    /// The status (`VHOST_VDPA_GET_STATUS`).
    pub fn get_status(&self) -> u8
        ensures { result ≡ self.now.status }
    {
        self.status
    }

    /// Sets the status: 0 resets the bus; else the present one, the next of 1, 3, 11 and 15, or FAILED beside the present one
    /// (`VHOST_VDPA_SET_STATUS`).
    pub fn set_status(&mut self, s: u8) -> Result<(), BusFault>
        ensures fault { result_err result ≡ status_fault self.old s }
        ensures ok { OnOk result (self.new ≡ after_status self.old s) }
        ensures same { OnErr result (self.new ≡ self.old) }
    {
        if !self.is_step(s) {
            return Err(BusFault::WrongStatus(self.status));
        }
        if s == 0 {
            self.reset();
        } else {
            self.status = s;
        }
        Ok(())
    }

    fn is_step(&self, s: u8) -> bool
        ensures { result ≡ is_step self.now s }
    {
        let failed = self.status as u32 + FAILED as u32;
        s == 0 || s == self.status || s as u32 == failed || self.is_next(s)
    }

    /// Whether it is the next of 1, 3, 11 and 15, and what it needs was done.
    fn is_next(&self, s: u8) -> bool
        ensures { result ≡ is_next self.now s }
    {
        match self.status {
            0 => s == 1,
            1 => s == 3,
            3 => s == 11 && self.accepted.is_some(),
            11 => s == DRIVEN && all_ready(self.vrings.as_slice()),
            _ => false,
        }
    }

    fn reset(&mut self)
        ensures { self.new ≡ reset self.old }
    {
        *self = Bus::new(
            self.packed,
            self.size_max,
            self.offered,
            self.queues,
            self.control,
            self.first,
            self.last,
        );
    }
}
