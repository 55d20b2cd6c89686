//! Which regions a file may have.
use crate::tests::files::{fault_in, fault_of};
use crate::{Machine, MachineFault};
use std::alloc::{AllocError, Global};
use std::test::*;

#[test]
fn names_the_rule_of_a_region(rt: HostRuntime) -> Result<(), Fail> {
    for (change, want) in [
        (
            "regions = [{ addr = 4096, size = 0 }]\nqueues = [['']]",
            Some(MachineFault::M9),
        ),
        (
            "regions = [{ addr = 4096, size = 8192 }, { addr = 4096, size = 8192 }]",
            Some(MachineFault::M9),
        ),
        (
            "regions = [{ addr = 4096, size = 8192 }, { addr = 0, size = 4097 }]",
            Some(MachineFault::M9),
        ),
        (
            "regions = [{ addr = -4096, size = 8192 }]",
            Some(MachineFault::M9),
        ),
        (
            "regions = [{ addr = 2, size = 9223372036854775807 }]",
            Some(MachineFault::M9),
        ),
        ("regions = []\nqueues = [[]]", None),
    ] {
        assert!(rt; fault_of(rt.alloc(), change)? == want, "at {change}");
    }
    Ok(())
}

/// A file of so many regions of one byte, with a byte between each two.
fn regions(alloc: Global, count: u32) -> Result<String, AllocError> {
    let mut text = String::from_str(
        alloc,
        "layout = \"split\"\nsize = 4\nqueues = [[]]\nregions = [",
    )?;
    for k in 0..count {
        let region = format!(in alloc; "{{ addr = {}, size = 1 }}, ", u64::from(k) * 2)?;
        text.push_str(region.as_str())?;
    }
    text.push_str("]\n")?;
    Ok(text)
}

#[test]
fn takes_64_regions_and_no_more(rt: HostRuntime) -> Result<(), Fail> {
    let alloc = rt.alloc();
    let most = regions(alloc, 64)?;
    assert_eq!(rt; Machine::read(alloc, most.as_bytes())?.regions.len(), 64);
    let more = regions(alloc, 65)?;
    assert!(rt; fault_in(alloc, more.as_bytes())? == Some(MachineFault::M9));
    Ok(())
}
