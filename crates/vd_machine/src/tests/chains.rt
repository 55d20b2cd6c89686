//! Which chain texts and queues a file may have.
use crate::MachineFault;
use crate::tests::files::fault_of;
use std::test::*;

#[test]
fn names_the_first_rule_that_a_chain_breaks(rt: HostRuntime) -> Result<(), Fail> {
    for (change, want) in [
        ("queues = [['w8192+64 r4096+10']]", Some(MachineFault::M10)),
        ("queues = [['r4096+0']]", Some(MachineFault::M10)),
        ("queues = [['']]", Some(MachineFault::M10)),
        (
            "queues = [['r4096+4294967295 r4096+1'], ['2*']]",
            Some(MachineFault::M10),
        ),
        (
            "size = 2\nqueues = [['r4096+10 w8192+64 w8192+1']]",
            Some(MachineFault::M11),
        ),
        (
            "queues = [['r4096+1 r4096+1 r4096+1 r4096+1 r4096+1']]",
            Some(MachineFault::M11),
        ),
        (
            "queues = [['r1+1', 'r4096+4294967295 r4096+1']]",
            Some(MachineFault::M11),
        ),
        ("queues = [['r12287+2']]", Some(MachineFault::M12)),
        (
            "regions = [{ addr = 4096, size = 8192 }, { addr = 12288, size = 8192 }]\nqueues = [['r12287+2']]",
            Some(MachineFault::M12),
        ),
        (
            "regions = []\nqueues = [['200001*r4096+10']]",
            Some(MachineFault::M12),
        ),
        ("size = 2", None),
        ("queues = [['r12287+1']]", None),
    ] {
        assert!(rt; fault_of(rt.alloc(), change)? == want, "at {change}");
    }
    Ok(())
}

#[test]
fn takes_16_pieces_and_no_more(rt: HostRuntime) -> Result<(), Fail> {
    for (more, want) in [(15, None), (16, Some(MachineFault::M11))] {
        let mut change = String::from_str(rt.alloc(), "size = 32\nqueues = [['r4096+1")?;
        for _ in 0..more {
            change.push_str(" r4096+1")?;
        }
        change.push_str("']]")?;
        assert!(rt; fault_of(rt.alloc(), change.as_str())? == want, "at {more}");
    }
    Ok(())
}

#[test]
fn names_the_rule_of_too_many_queues_or_chains(rt: HostRuntime) -> Result<(), Fail> {
    for (change, want) in [
        ("queues = []", Some(MachineFault::M13)),
        ("iova_last = 8191\nqueues = []", Some(MachineFault::M13)),
        (
            "queues = [[], [], [], [], [], [], [], [], []]",
            Some(MachineFault::M13),
        ),
        ("queues = [[], ['200001*r4096+1']]", Some(MachineFault::M13)),
        (
            "queues = [['200000*r4096+1'], ['200000*r4096+1'], ['r4096+1']]",
            Some(MachineFault::M13),
        ),
        ("queues = [['200001*r4096+1']]", Some(MachineFault::M13)),
        (
            "queues = [['4294967295*r4096+1', '4294967295*r4096+1']]",
            Some(MachineFault::M13),
        ),
        ("queues = [[]]", None),
        ("queues = [['200000*r4096+1']]", None),
        (
            "queues = [['199999*r4096+1', 'r4096+1'], [], [], [], [], [], [], ['200000*r4096+1']]",
            None,
        ),
    ] {
        assert!(rt; fault_of(rt.alloc(), change)? == want, "at {change}");
    }
    Ok(())
}
