//! Both ends against the format, over so many chains that 16-bit counts wrap.
use crate::expected::Expected;
use crate::format::Format;
use crate::operations::{agree, collect, give, offer, rest, sleep_device, sleep_driver, take};
use crate::packed::PackedFormat;
use crate::split::SplitFormat;
use std::alloc::{AllocError, Global};
use std::process::Abort;
use std::test::*;
use vd_layout::{Layout, PlainRing};
use vd_model::Features;
use vd_packed::Packed;
use vd_split::Split;

/// More than 65,536.
const CHAINS: u32 = 66_000;

/// Both sides sleep before a chain, and are woken for it.
fn pass<L: Layout, F: Format>(ring: &mut PlainRing<L>, format: &mut Expected<F>) -> bool {
    let len = format.given;
    sleep_device(ring, format, false)
        && offer(ring, format)
        && sleep_device(ring, format, false)
        && take(ring, format)
        && sleep_driver(ring, format, false)
        && give(ring, format, 0, len)
        && sleep_driver(ring, format, false)
        && collect(ring, format)
}

/// A ring of four places under both event rules, after each chain, and its rest.
fn wraps<L: Layout, F: Format, A: Abort>(rt: &A, alloc: Global) -> Result<(), AllocError> {
    assert!(rt; L::lawful_size(4));
    for event_idx in [false, true] {
        let f = Features {
            indirect: false,
            event_idx,
            in_order: false,
        };
        let mut ring = PlainRing::<L>::make(alloc, 0, 4, f)?;
        let mut format = Expected::<F>::new(4, f);
        for i in 0..CHAINS {
            let passed = pass(&mut ring, &mut format);
            assert!(rt; passed && agree(&ring, &format), "chain {i}");
        }
        assert_eq!(rt; format.collected, CHAINS);
        assert!(rt; format.rung() == (CHAINS, CHAINS));
        assert!(rt; rest(&mut ring, &mut format));
    }
    Ok(())
}

#[test]
fn counts_of_a_split_ring_wrap(rt: HostRuntime) -> Result<(), Fail> {
    wraps::<Split, SplitFormat, HostRuntime>(&rt, rt.alloc())?;
    Ok(())
}

#[test]
fn positions_of_a_packed_ring_go_on(rt: HostRuntime) -> Result<(), Fail> {
    wraps::<Packed, PackedFormat, HostRuntime>(&rt, rt.alloc())?;
    Ok(())
}
