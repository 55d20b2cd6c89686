//! A number of a ring, as its size or its base.
ghost use Rattle.std.specs.Prelude.{◌≡◌, ◌^◌, ◌<◌, ◌++◌, List, ℕ, length, drop, IfOk};
ghost use Rattle.std.specs.Result.{result_err};
ghost use Rattle.vd_uapi.specs.Bytes.{VringStateFits, vring_state_bytes};
ghost use Rattle.vd_uapi.specs.Faults.{short_fault};
ghost use Rattle.vd_uapi.specs.declared.vring_state.VringState.{VringState};

use crate::UapiFault;
use crate::fault::check_length;
use crate::numbers::{put_u32, u32_at};

/// `struct vhost_vring_state` of the kernel's vhost.h.
#[derive(Copy, Clone, Debug, PartialEq, Eq)]
pub struct VringState {
    /// `index`: which ring.
    pub index: u32,
    /// `num`: its number of descriptors, or its base.
    pub num: u32,
}

impl VringState {
    /// The structure's length in bytes.
    pub const LEN: usize = 8;

    /// The structure in the first 8 bytes; more are ignored. Short where there are fewer.
    pub fn read(bytes: &[u8]) -> Result<VringState, UapiFault>
        requires { length bytes.now < 2 ^ 32 }
        ensures fault { result_err result ≡ short_fault 8 bytes.now }
        ensures only { IfOk result (λ v. bytes.now ≡ vring_state_bytes v ++ drop 8 bytes.now) }
        ensures inverse { (v : VringState) (rest : List ℕ) → VringStateFits v → bytes.now ≡ vring_state_bytes v ++ rest → result ≡ Ok v }
    {
        check_length(bytes, Self::LEN)?;
        Ok(VringState {
            index: u32_at(bytes, 0),
            num: u32_at(bytes, 4),
        })
    }

    /// The structure's 8 bytes.
    pub fn write(&self) -> [u8; 8]
        ensures { result ≡ vring_state_bytes self.now }
    {
        let mut bytes = [0; 8];
        put_u32(&mut bytes, 0, self.index);
        put_u32(&mut bytes, 4, self.num);
        bytes
    }
}
