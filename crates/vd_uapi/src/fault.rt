//! Why bytes are refused.
ghost use Rattle.std.specs.Prelude.{◌≡◌, ◌^◌, ◌<◌, length};
ghost use Rattle.std.specs.Result.{result_err};
ghost use Rattle.vd_uapi.specs.Faults.{short_fault};

use thiserror::Error;

/// Why bytes are no structure.
#[derive(Copy, Clone, Debug, PartialEq, Eq, Drop, Error)]
pub enum UapiFault {
    /// Fewer bytes than the structure has: how many there are, and how many it needs.
    #[error("{have} bytes where {need} are needed")]
    Short { have: u32, need: u32 },
    /// The message's type isn't VHOST_IOTLB_MSG_V2: the type that stands there.
    #[error("message type {0}, where only 2 is known")]
    BadVersion(u32),
    /// The address message's type isn't 1 to 6: the type that stands there.
    #[error("address message type {0}, where 1 to 6 are known")]
    BadType(u8),
    /// An update whose permission isn't 1 to 3: the permission that stands there.
    #[error("an update with the permission {0}, where 1 to 3 are known")]
    BadPerm(u8),
}

/// Refuses fewer than `need` bytes.
pub fn check_length(bytes: &[u8], need: usize) -> Result<(), UapiFault>
    requires have { length bytes.now < 2 ^ 32 }
    requires need { need < 2 ^ 32 }
    ensures { result_err result ≡ short_fault need bytes.now }
{
    if bytes.len() < need {
        return Err(UapiFault::Short {
            have: bytes.len() as u32,
            need: need as u32,
        });
    }
    Ok(())
}
