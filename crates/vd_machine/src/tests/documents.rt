//! What a document is, which keys it has, and of which types its values are.
use crate::MachineFault;
use crate::tests::files::{VALID, fault_in, fault_of};
use std::test::*;

#[test]
fn names_the_rule_of_a_document_and_of_its_needed_keys(rt: HostRuntime) -> Result<(), Fail> {
    for (text, want) in [
        (
            "queues = [['r4096+10 w8192+64']]\nregions = [{ addr = 4096, size = 8192 }]\nsize = 4\nlayout = 'split'\n",
            None,
        ),
        ("layout = \n", Some(MachineFault::M1)),
        (
            "layout = 'split'\nsize = 4\nsize = 4\n",
            Some(MachineFault::M1),
        ),
        (
            "layout = 'split'\nsize = 3\ncolour = 1\nregions = [{ addr = 4096, size = 8192 }]\n",
            Some(MachineFault::M2),
        ),
        (
            "layout = 'split'\nregions = [{ addr = 4096, size = 8192 }]\nqueues = [['r4096+10 w8192+64']]\n",
            Some(MachineFault::M3),
        ),
        (
            "size = 4\nregions = [{ addr = 4096, size = 8192 }]\nqueues = [['r4096+10 w8192+64']]\n",
            Some(MachineFault::M3),
        ),
        (
            "layout = 'split'\nsize = 4\nqueues = [['r4096+10 w8192+64']]\n",
            Some(MachineFault::M3),
        ),
        (
            "layout = 'split'\nsize = 4\nregions = [{ addr = 4096, size = 8192 }]\n",
            Some(MachineFault::M3),
        ),
    ] {
        assert!(rt; fault_in(rt.alloc(), text.as_bytes())? == want, "at {text}");
    }
    Ok(())
}

#[test]
fn reads_text_alone(rt: HostRuntime) -> Result<(), Fail> {
    assert!(rt; fault_in(rt.alloc(), b"\xff")? == Some(MachineFault::M1));
    Ok(())
}

#[test]
fn names_the_first_rule_that_a_key_or_a_value_breaks(rt: HostRuntime) -> Result<(), Fail> {
    for (change, want) in [
        ("# no change", None),
        (
            "regions = [{ addr = 0, size = 9223372036854775808 }]",
            Some(MachineFault::M1),
        ),
        ("commands = ['0101']", Some(MachineFault::M2)),
        (
            "regions = [{ addr = 4096, size = 8192, colour = 1 }]",
            Some(MachineFault::M2),
        ),
        (
            "switches = [{ after = 1, to = 'pass', colour = 1 }]",
            Some(MachineFault::M2),
        ),
        ("switches = [1, { addr = 4096 }]", Some(MachineFault::M2)),
        (
            "regions = [{ addr = 4096 }]\nswitches = [{ from = 1 }]",
            Some(MachineFault::M2),
        ),
        ("regions = [1, { addr = 4096 }]", Some(MachineFault::M3)),
        ("switches = [{ after = 1 }]", Some(MachineFault::M3)),
        ("switches = [{ to = 'pass' }]", Some(MachineFault::M3)),
        ("size = '4'\nswitches = [[], {}]", Some(MachineFault::M3)),
        ("iova_last = '1'\nqueues = [[]]", Some(MachineFault::M4)),
        ("size = '4'", Some(MachineFault::M4)),
        ("layout = 1", Some(MachineFault::M4)),
        ("features = [1]", Some(MachineFault::M4)),
        ("window = '1'", Some(MachineFault::M4)),
        (
            "regions = { addr = 4096, size = 8192 }",
            Some(MachineFault::M4),
        ),
        (
            "regions = [{ addr = 4096, size = 1.5 }]",
            Some(MachineFault::M4),
        ),
        ("queues = ['r4096+10']", Some(MachineFault::M4)),
        ("queues = [[1]]", Some(MachineFault::M4)),
        ("start = 1", Some(MachineFault::M4)),
        ("start = ['pass']", Some(MachineFault::M4)),
        ("switches = 'pass'", Some(MachineFault::M4)),
        (
            "switches = { after = 1, to = 'pass' }",
            Some(MachineFault::M4),
        ),
        ("switches = ['pass']", Some(MachineFault::M4)),
        (
            "switches = [[{ after = 1, to = 'pass' }]]",
            Some(MachineFault::M4),
        ),
        (
            "switches = [{ after = '1', to = 'pass' }]",
            Some(MachineFault::M4),
        ),
        (
            "switches = [{ after = 1.0, to = 'pass' }]",
            Some(MachineFault::M4),
        ),
        ("switches = [{ after = 1, to = 1 }]", Some(MachineFault::M4)),
        (
            "layout = 'round'\nstart = { mode = 'pass' }",
            Some(MachineFault::M4),
        ),
    ] {
        assert!(rt; fault_of(rt.alloc(), change)? == want, "at {change}");
    }
    Ok(())
}

#[test]
fn reads_a_file_cut_anywhere_or_names_a_rule(rt: HostRuntime) -> Result<(), Fail> {
    let bytes = VALID.as_bytes();
    // within a line it is no document, behind a line what is missing is named
    for end in 0..bytes.len() {
        let rule = match end {
            0 | 16 | 17 | 25 | 26 | 66 | 67 => Some(MachineFault::M3),
            99 => None,
            _ => Some(MachineFault::M1),
        };
        assert!(rt;
            fault_in(rt.alloc(), &bytes[..end])? == rule,
            "cut at {end}"
        );
    }
    Ok(())
}
