//! A message on an address mapping.
ghost use Rattle.std.specs.Prelude.{◌≡◌, ◌^◌, ◌<◌, ◌≤◌, ◌++◌, List, ℕ, length, drop, IfOk};
ghost use Rattle.std.specs.Result.{result_err};
ghost use Rattle.vd_uapi.specs.Bytes.{IsMsg, msg_fields, msg_bytes};
ghost use Rattle.vd_uapi.specs.Faults.{msg_fault};
ghost use Rattle.vd_uapi.specs.declared.message.Msg.{Msg};

use crate::UapiFault;
use crate::fault::check_length;
use crate::numbers::{put_u32, put_u64, u32_at, u64_at};

/// `struct vhost_msg_v2` of the kernel's vhost_types.h, with the `struct vhost_iotlb_msg` that it holds.
#[derive(Copy, Clone, Debug, PartialEq, Eq)]
pub struct Msg {
    /// `asid`: the address space.
    pub asid: u32,
    /// `iotlb.iova`: the first address that the device uses.
    pub iova: u64,
    /// `iotlb.size`: the mapping's length in bytes.
    pub size: u64,
    /// `iotlb.uaddr`: the guest address of the first byte.
    pub uaddr: u64,
    /// `iotlb.perm`: VHOST_ACCESS_RO 1, VHOST_ACCESS_WO 2, VHOST_ACCESS_RW 3.
    pub perm: u8,
    /// `iotlb.type`: VHOST_IOTLB_MISS 1, VHOST_IOTLB_UPDATE 2, VHOST_IOTLB_INVALIDATE 3, VHOST_IOTLB_ACCESS_FAIL 4,
    /// VHOST_IOTLB_BATCH_BEGIN 5, VHOST_IOTLB_BATCH_END 6.
    pub kind: u8,
}

impl Msg {
    /// The structure's length in bytes.
    pub const LEN: usize = 72;
    /// VHOST_IOTLB_MSG_V2, the only `type` of `vhost_msg_v2`.
    pub const VERSION: u32 = 2;
    /// VHOST_IOTLB_UPDATE, the kind that makes a mapping.
    pub const UPDATE: u8 = 2;

    /// The message in the first 72 bytes; more are ignored, and so is what stands behind its fields. Refused are, in this order:
    /// fewer bytes, another version than 2, a kind that isn't 1 to 6, an update whose permission isn't 1 to 3.
    pub fn read(bytes: &[u8]) -> Result<Msg, UapiFault>
        requires { length bytes.now < 2 ^ 32 }
        ensures fault { result_err result ≡ msg_fault bytes.now }
        ensures only { IfOk result (λ m. bytes.now ≡ msg_fields m ++ drop 34 bytes.now) }
        ensures inverse { (m : Msg) (rest : List ℕ) → IsMsg m → 72 ≤ length bytes.now → bytes.now ≡ msg_fields m ++ rest → result ≡ Ok m }
    {
        Self::check(bytes)?;
        Ok(Msg {
            asid: u32_at(bytes, 4),
            iova: u64_at(bytes, 8),
            size: u64_at(bytes, 16),
            uaddr: u64_at(bytes, 24),
            perm: bytes[32],
            kind: bytes[33],
        })
    }

    /// Refuses bytes that are no message.
    fn check(bytes: &[u8]) -> Result<(), UapiFault>
        requires { length bytes.now < 2 ^ 32 }
        ensures { result_err result ≡ msg_fault bytes.now }
    {
        check_length(bytes, Self::LEN)?;
        let version = u32_at(bytes, 0);
        if version != Self::VERSION {
            return Err(UapiFault::BadVersion(version));
        }
        let kind = bytes[33];
        if kind < 1 || 6 < kind {
            return Err(UapiFault::BadType(kind));
        }
        let perm = bytes[32];
        if kind == Self::UPDATE && (perm < 1 || 3 < perm) {
            return Err(UapiFault::BadPerm(perm));
        }
        Ok(())
    }

    /// The message's 72 bytes.
    pub fn write(&self) -> [u8; 72]
        ensures { result ≡ msg_bytes self.now }
    {
        let mut bytes = [0; 72];
        put_u32(&mut bytes, 0, Self::VERSION);
        put_u32(&mut bytes, 4, self.asid);
        put_u64(&mut bytes, 8, self.iova);
        put_u64(&mut bytes, 16, self.size);
        put_u64(&mut bytes, 24, self.uaddr);
        bytes[32] = self.perm;
        bytes[33] = self.kind;
        bytes
    }
}
