//! Which rings a file may have.
use crate::MachineFault;
use crate::tests::files::fault_of;
use std::test::*;

#[test]
fn names_the_first_rule_that_a_layout_or_a_size_breaks(rt: HostRuntime) -> Result<(), Fail> {
    for (change, want) in [
        ("layout = 'round'\nsize = 3", Some(MachineFault::M5)),
        ("layout = 'packed '", Some(MachineFault::M5)),
        ("layout = 'Split'\nstart = 'still'", Some(MachineFault::M5)),
        ("layout = 'packed'\nsize = 1", Some(MachineFault::M6)),
        ("layout = 'packed'\nsize = 1025", Some(MachineFault::M6)),
        ("size = 3\nfeatures = ['fast']", Some(MachineFault::M6)),
        ("size = 1", Some(MachineFault::M6)),
        ("size = 2048", Some(MachineFault::M6)),
        ("size = -4", Some(MachineFault::M6)),
        ("layout = 'packed'\nsize = 3", None),
        ("layout = 'packed'\nsize = 1024", None),
    ] {
        assert!(rt; fault_of(rt.alloc(), change)? == want, "at {change}");
    }
    Ok(())
}

#[test]
fn names_the_rule_of_features_and_of_the_window(rt: HostRuntime) -> Result<(), Fail> {
    for (change, want) in [
        ("features = ['fast']\nwindow = 0", Some(MachineFault::M7)),
        (
            "features = ['in_order', 'in_order']",
            Some(MachineFault::M7),
        ),
        (
            "features = ['indirect', 'indirect']",
            Some(MachineFault::M7),
        ),
        (
            "window = 0\nregions = [{ addr = 4096, size = 0 }]",
            Some(MachineFault::M8),
        ),
        ("window = 65", Some(MachineFault::M8)),
    ] {
        assert!(rt; fault_of(rt.alloc(), change)? == want, "at {change}");
    }
    Ok(())
}
