//! Both ends against the format, over many drawn operations.
use crate::drawn::mixed;
use crate::expected::Expected;
use crate::format::Format;
use crate::operations::{agree, collect, give, offer, rest, sleep_device, sleep_driver, take};
use crate::packed::PackedFormat;
use crate::split::SplitFormat;
use std::alloc::{AllocError, Global};
use std::process::Abort;
use std::test::*;
use vd_layout::{Layout, PlainRing};
use vd_model::Features;
use vd_packed::Packed;
use vd_split::Split;

/// EVENT_IDX, IN_ORDER, how many eighths of the gives are out of order, and whether the ring rests.
type Row = (bool, bool, u32, bool);

const PLAIN: [Row; 4] = [
    (false, false, 0, true),
    (false, false, 8, false),
    (true, false, 4, true),
    (true, true, 0, true),
];

/// With tables, which leave a place for any chain.
const TABLED: [Row; 4] = [
    (false, false, 8, false),
    (false, true, 0, true),
    (true, false, 4, true),
    (true, true, 0, true),
];

/// One operation, chosen by a number.
fn operate<L: Layout, F: Format>(
    ring: &mut PlainRing<L>,
    format: &mut Expected<F>,
    disorder: u32,
    rests: bool,
    x: u32,
) -> bool {
    let which = x & 31;
    if which < 8 {
        offer(ring, format)
    } else if which < 14 {
        take(ring, format)
    } else if which < 20 {
        let disordered = x >> 5 & 7 < disorder;
        give(
            ring,
            format,
            if disordered { x >> 8 & 7 } else { 0 },
            x >> 11,
        )
    } else if which < 23 {
        sleep_driver(ring, format, x >> 5 & 3 == 0)
    } else if which < 26 {
        sleep_device(ring, format, x >> 5 & 3 == 0)
    } else if which < 31 || !rests {
        collect(ring, format)
    } else {
        rest(ring, format)
    }
}

/// A ring of a size in each of these rows, after each of so many operations.
fn rows_agree<L: Layout, F: Format, A: Abort>(
    rt: &A,
    alloc: Global,
    size: u32,
    indirect: bool,
    operations: u32,
) -> Result<(), AllocError> {
    assert!(rt; L::lawful_size(size));
    for (event_idx, in_order, disorder, rests) in if indirect { TABLED } else { PLAIN } {
        let f = Features {
            indirect,
            event_idx,
            in_order,
        };
        let mut ring = PlainRing::<L>::make(alloc, 0, size, f)?;
        let mut format = Expected::<F>::new(size, f);
        for i in 0..operations {
            let alike = operate(&mut ring, &mut format, disorder, rests, mixed(i));
            assert!(rt;
                alike && agree(&ring, &format),
                "operation {i} on {size} places"
            );
        }
        assert!(rt; ring.counts() == format.counts());
        let (kicks, calls) = format.rung();
        assert!(rt; format.collected > 50);
        assert!(rt; kicks > operations / 300 && calls > operations / 300);
    }
    Ok(())
}

#[test]
fn words_of_a_split_ring_are_as_the_format_has_them(rt: HostRuntime) -> Result<(), Fail> {
    for size in [2, 4, 8] {
        rows_agree::<Split, SplitFormat, HostRuntime>(&rt, rt.alloc(), size, false, 6000)?;
    }
    Ok(())
}

#[test]
fn words_of_a_split_ring_with_tables_are(rt: HostRuntime) -> Result<(), Fail> {
    for size in [2, 4, 8] {
        rows_agree::<Split, SplitFormat, HostRuntime>(&rt, rt.alloc(), size, true, 2000)?;
    }
    Ok(())
}

#[test]
fn words_of_a_packed_ring_are_as_the_format_has_them(rt: HostRuntime) -> Result<(), Fail> {
    for size in [2, 3, 5, 7] {
        rows_agree::<Packed, PackedFormat, HostRuntime>(&rt, rt.alloc(), size, false, 6000)?;
    }
    Ok(())
}

#[test]
fn words_of_a_packed_ring_with_tables_are(rt: HostRuntime) -> Result<(), Fail> {
    for size in [2, 3, 5, 7] {
        rows_agree::<Packed, PackedFormat, HostRuntime>(&rt, rt.alloc(), size, true, 2000)?;
    }
    Ok(())
}
