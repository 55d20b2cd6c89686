//! Descriptors of a packed ring, field by field (VIRTIO 1.2, 2.8.13).

pub const NEXT: u16 = 1;

pub const WRITE: u16 = 2;

pub const INDIRECT: u16 = 4;

pub const AVAIL: u16 = 1 << 7;

pub const USED: u16 = 1 << 15;

/// The 16 bytes of a descriptor.
#[derive(Copy, Clone)]
pub struct Descriptor {
    pub addr: u64,
    pub len: u32,
    pub id: u16,
    pub flags: u16,
}

pub const EMPTY: Descriptor = Descriptor {
    addr: 0,
    len: 0,
    id: 0,
    flags: 0,
};

impl Descriptor {
    /// Its first or its second word.
    pub fn half(self, second: bool) -> u64 {
        if second {
            self.len as u64 | (self.id as u64) << 32 | (self.flags as u64) << 48
        } else {
            self.addr
        }
    }
}
