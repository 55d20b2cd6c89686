//! Where a ring's areas lie.
ghost use Rattle.std.specs.Prelude.{◌≡◌, ◌^◌, ◌<◌, ◌++◌, List, ℕ, length, drop, IfOk};
ghost use Rattle.std.specs.Result.{result_err};
ghost use Rattle.vd_uapi.specs.Bytes.{VringAddrFits, vring_addr_bytes};
ghost use Rattle.vd_uapi.specs.Faults.{short_fault};
ghost use Rattle.vd_uapi.specs.declared.vring_addr.VringAddr.{VringAddr};

use crate::UapiFault;
use crate::fault::check_length;
use crate::numbers::{put_u32, put_u64, u32_at, u64_at};

/// `struct vhost_vring_addr` of the kernel's vhost.h.
#[derive(Copy, Clone, Debug, PartialEq, Eq)]
pub struct VringAddr {
    /// `index`: which ring.
    pub index: u32,
    /// `flags`: bit 0 asks for a log of writes.
    pub flags: u32,
    /// `desc_user_addr`: the address of the descriptors.
    pub desc: u64,
    /// `used_user_addr`: the address of the device area.
    pub used: u64,
    /// `avail_user_addr`: the address of the driver area.
    pub avail: u64,
    /// `log_guest_addr`: where writes are logged.
    pub log: u64,
}

impl VringAddr {
    /// The structure's length in bytes.
    pub const LEN: usize = 40;

    /// The structure in the first 40 bytes; more are ignored. Short where there are fewer.
    pub fn read(bytes: &[u8]) -> Result<VringAddr, UapiFault>
        requires { length bytes.now < 2 ^ 32 }
        ensures fault { result_err result ≡ short_fault 40 bytes.now }
        ensures only { IfOk result (λ v. bytes.now ≡ vring_addr_bytes v ++ drop 40 bytes.now) }
        ensures inverse { (v : VringAddr) (rest : List ℕ) → VringAddrFits v → bytes.now ≡ vring_addr_bytes v ++ rest → result ≡ Ok v }
    {
        check_length(bytes, Self::LEN)?;
        Ok(VringAddr {
            index: u32_at(bytes, 0),
            flags: u32_at(bytes, 4),
            desc: u64_at(bytes, 8),
            used: u64_at(bytes, 16),
            avail: u64_at(bytes, 24),
            log: u64_at(bytes, 32),
        })
    }

    /// The structure's 40 bytes.
    pub fn write(&self) -> [u8; 40]
        ensures { result ≡ vring_addr_bytes self.now }
    {
        let mut bytes = [0; 40];
        put_u32(&mut bytes, 0, self.index);
        put_u32(&mut bytes, 4, self.flags);
        put_u64(&mut bytes, 8, self.desc);
        put_u64(&mut bytes, 16, self.used);
        put_u64(&mut bytes, 24, self.avail);
        put_u64(&mut bytes, 32, self.log);
        bytes
    }
}
