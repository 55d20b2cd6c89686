//! Which ranges of iovas a file may have.
use crate::MachineFault;
use crate::tests::files::fault_of;
use std::test::*;

#[test]
fn names_the_rule_of_a_range_in_which_the_regions_find_no_place(
    rt: HostRuntime,
) -> Result<(), Fail> {
    for (change, want) in [
        ("iova_last = 8191\nqueues = [[]]", Some(MachineFault::M16)),
        ("iova_last = 12286\nqueues = [[]]", Some(MachineFault::M16)),
        (
            "iova_last = 16382\nregions = [{ addr = 65536, size = 8192 }, { addr = 262144, size = 4096 }]\nqueues = [[]]",
            Some(MachineFault::M16),
        ),
        ("iova_first = -1\nqueues = [[]]", Some(MachineFault::M16)),
        (
            "iova_last = -1\nregions = []\nqueues = [[]]",
            Some(MachineFault::M16),
        ),
        (
            "iova_first = 8192\niova_last = 8191\nregions = []\nqueues = [[]]",
            Some(MachineFault::M16),
        ),
        ("iova_first = 1\niova_last = 12287\nqueues = [[]]", None),
        (
            "iova_first = 9223372036854775807\niova_last = 9223372036854775807\nregions = []\nqueues = [[]]",
            None,
        ),
        (
            "iova_last = 16383\nregions = [{ addr = 65536, size = 8192 }, { addr = 262144, size = 4096 }]\nqueues = [[]]",
            None,
        ),
    ] {
        assert!(rt; fault_of(rt.alloc(), change)? == want, "at {change}");
    }
    Ok(())
}
