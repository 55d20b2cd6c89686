//! Takes over words in which only the last descriptor of a chain has its id, as other drivers write them (VIRTIO 1.2, 2.8).
use crate::device::PackedDevice;
use crate::device::running::find_head;
use crate::words::used_word;
use std::test::*;
use vd_bits::lane16;
use vd_layout::Told;
use vd_model::Features;

const PLAIN: Features = Features {
    indirect: false,
    event_idx: false,
    in_order: false,
};

/// The end takes in an address, where it may.
fn address(device: &mut PackedDevice, addr: u64) -> Option<Told> {
    let id = lane16(device.second, 2) as usize;
    if device.pieces.len() >= 16 || device.at.place >= device.size || device.size > 32768 {
        return None;
    }
    if id >= device.running.len() || id >= device.counts.len() || device.guesses.len() == 0 {
        return None;
    }
    if device.taken >= 1000 || device.next_position >= 1000 {
        return None;
    }
    Some(device.loaded_address(addr))
}

/// Whether the end, which is to take a chain with these second words, takes it with the last of them.
fn takes(device: &mut PackedDevice, seconds: &[u64]) -> bool {
    for (i, word) in seconds.iter().enumerate() {
        if i == 0 {
            if !matches!(device.saw(*word), Told::Moved) {
                return false;
            }
        } else {
            device.loaded_second(*word);
        }
        let taken = match address(device, 4096) {
            Some(Told::Taken(0)) => true,
            Some(Told::Moved) => false,
            _ => return false,
        };
        if taken {
            return i + 1 == seconds.len();
        }
    }
    false
}

/// The word with which the end gives chain 0 back.
fn given(device: &PackedDevice, len: u32) -> Option<u64> {
    match find_head(&device.running, device.size, 0, 0) {
        Some(head) => {
            if head < 65536 {
                Some(used_word(len, head, device.used.wrap))
            } else {
                None
            }
        }
        None => None,
    }
}

#[test]
fn the_last_descriptor_has_the_id(rt: HostRuntime) -> Result<(), Fail> {
    let cases = [
        (
            [
                0x0081_0000_0000_000a,
                0x0081_0000_0000_0014,
                0x0082_0003_0000_0040,
            ],
            3,
            0x8082_0003_0000_0007,
        ),
        (
            [0x0081_0002_0000_000a, 0x0082_0001_0000_0040, 0],
            2,
            0x8082_0001_0000_0007,
        ),
        ([0x0082_0002_0000_0040, 0, 0], 1, 0x8082_0002_0000_0007),
    ];
    for (seconds, count, word) in cases {
        let mut device = PackedDevice::make(rt.alloc(), 4, PLAIN, false)?;
        assert!(rt; takes(&mut device, &seconds[..count]));
        assert_eq!(rt; given(&device, 7), Some(word));
    }
    Ok(())
}
