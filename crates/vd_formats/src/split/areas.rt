//! Where the areas of a split ring lie, by the lanes with which they begin (VIRTIO 1.2, 2.7, 2.7.7 and 2.7.10).
use super::SplitFormat;

impl SplitFormat {
    pub(super) fn lane(&self, i: u32) -> u64 {
        self.lanes[(i & 2047) as usize] as u64
    }

    pub(super) fn set(&mut self, lane: u32, x: u32) {
        self.lanes[(lane & 2047) as usize] = (x & 0xffff) as u16;
    }

    pub(super) fn set_32(&mut self, lane: u32, x: u32) {
        self.set(lane, x);
        self.set(lane.wrapping_add(1), x >> 16);
    }

    /// The driver area: the descriptors are 16 bytes each.
    pub(super) fn driver_area(&self) -> u32 {
        self.size.wrapping_mul(8)
    }

    /// The device area: behind two lanes, a lane a place and the used event, rounded up to 8 bytes.
    pub(super) fn device_area(&self) -> u32 {
        let lanes = self.size.wrapping_add(3);
        self.driver_area()
            .wrapping_add(lanes.wrapping_add(3) & 0xffff_fffc)
    }

    /// The table of a place, behind the device area, which has a word more than places. A table has room for 16 descriptors.
    pub(super) fn table(&self, place: u32) -> u32 {
        self.device_area()
            .wrapping_add(self.size.wrapping_mul(4))
            .wrapping_add(4)
            .wrapping_add(place.wrapping_mul(128))
    }

    /// The driver's bell, behind the tables, if there are any. The device's is in the next word.
    pub(super) fn bells(&self) -> u32 {
        self.table(if self.indirect { self.size } else { 0 })
    }

    /// The lane by which the driver says when it wants a signal: behind the ring entries, or its flags.
    pub(super) fn driver_event(&self) -> u32 {
        let area = self.driver_area();
        if self.event_idx {
            area.wrapping_add(2).wrapping_add(self.size)
        } else {
            area
        }
    }

    /// The device's: in the last word of its area, or its flags.
    pub(super) fn device_event(&self) -> u32 {
        let area = self.device_area();
        if self.event_idx {
            area.wrapping_add(self.size.wrapping_mul(4)).wrapping_add(2)
        } else {
            area
        }
    }
}
