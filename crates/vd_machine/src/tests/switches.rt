//! Which switches a file may have, and in which mode it may start.
use crate::tests::files::{fault_in, fault_of, with};
use crate::*;
use std::test::*;
use vd_model::Mode;

#[test]
fn names_the_rule_of_the_mode_at_the_start(rt: HostRuntime) -> Result<(), Fail> {
    for (change, want) in [
        ("start = 'still'", Some(MachineFault::M5)),
        ("start = ''", Some(MachineFault::M5)),
        ("start = 'Pass'\nsize = 3", Some(MachineFault::M5)),
        ("start = 'renew'", Some(MachineFault::M5)),
        ("layout = 'packed'\nstart = 'pass '", Some(MachineFault::M5)),
        ("start = 'pass'", None),
        ("start = 'shadow'", None),
    ] {
        assert!(rt; fault_of(rt.alloc(), change)? == want, "at {change}");
    }
    Ok(())
}

#[test]
fn names_the_rule_of_a_switch(rt: HostRuntime) -> Result<(), Fail> {
    for (change, want) in [
        (
            "switches = [{ after = 5, to = 'pass' }, { after = 4, to = 'pass' }]",
            Some(MachineFault::M14),
        ),
        (
            "switches = [{ after = 0, to = 'pass' }, { after = 9, to = 'pass' }, { after = 8, to = 'pass' }]",
            Some(MachineFault::M14),
        ),
        (
            "switches = [{ after = -1, to = 'pass' }]",
            Some(MachineFault::M14),
        ),
        (
            "switches = [{ after = 4294967296, to = 'pass' }]",
            Some(MachineFault::M14),
        ),
        (
            "switches = [{ after = 9223372036854775807, to = 'pass' }]",
            Some(MachineFault::M14),
        ),
        (
            "switches = [{ after = 5, to = 'Renew' }]",
            Some(MachineFault::M14),
        ),
        (
            "switches = [{ after = 5, to = 'renewal' }]",
            Some(MachineFault::M14),
        ),
        (
            "switches = [{ after = 5, to = 'renew' }, { after = 4, to = 'renew' }]",
            Some(MachineFault::M14),
        ),
        (
            "switches = [{ after = -1, to = 'renew' }]",
            Some(MachineFault::M14),
        ),
        (
            "switches = [{ after = 4294967296, to = 'renew' }]",
            Some(MachineFault::M14),
        ),
        (
            "switches = [{ after = 5, to = 'Shadow' }]",
            Some(MachineFault::M14),
        ),
        (
            "switches = [{ after = 5, to = '' }]",
            Some(MachineFault::M14),
        ),
        (
            "switches = [{ after = 5, to = 'pass' }, { after = 5, to = 'still' }]",
            Some(MachineFault::M14),
        ),
        (
            "iova_last = 8191\nswitches = [{ after = -1, to = 'pass' }]",
            Some(MachineFault::M14),
        ),
        (
            "queues = []\nswitches = [{ after = -1, to = 'pass' }]",
            Some(MachineFault::M13),
        ),
        (
            "iova_last = 8191\nswitches = [{ after = 1, to = 'pass' }]",
            Some(MachineFault::M16),
        ),
        ("switches = []", None),
        ("switches = [{ after = 5, to = 'shadow' }]", None),
        ("switches = [{ after = 5, to = 'renew' }]", None),
        (
            "start = 'shadow'\nswitches = [{ after = 5, to = 'renew' }, { after = 5, to = 'renew' }]",
            None,
        ),
        ("switches = [{ to = 'pass', after = 0 }]", None),
        (
            "switches = [{ after = 5, to = 'pass' }, { after = 5, to = 'pass' }]",
            None,
        ),
        (
            "switches = [{ after = 4294967295, to = 'pass' }, { after = 4294967295, to = 'pass' }]",
            None,
        ),
    ] {
        assert!(rt; fault_of(rt.alloc(), change)? == want, "at {change}");
    }
    Ok(())
}

#[test]
fn reads_the_switches_in_their_order(rt: HostRuntime) -> Result<(), Fail> {
    let text = with(
        rt.alloc(),
        concat!(
            "start = 'shadow'\nswitches = [{ after = 0x10, to = 'shadow' }, { after = 16, to = 'renew' }, ",
            "{ to = \"pass\", after = 4294967295 }]",
        ),
    )?;
    let machine = Machine::read(rt.alloc(), text.as_bytes())?;
    let switches = [
        Switch {
            after: 16,
            to: To::Shadow,
        },
        Switch {
            after: 16,
            to: To::Renew,
        },
        Switch {
            after: 4294967295,
            to: To::Pass,
        },
    ];
    assert!(rt;
        machine.start == Mode::Shadow && machine.switches.as_slice() == switches.as_slice()
    );
    Ok(())
}

#[test]
fn takes_16_switches_and_no_more(rt: HostRuntime) -> Result<(), Fail> {
    let mut change = String::from_str(rt.alloc(), "")?;
    for k in 0..MOST_SWITCHES + 1 {
        change.push_str("[[switches]]\nafter = 7\nto = 'pass'\n")?;
        let text = with(rt.alloc(), "")?;
        let text = format!(in rt.alloc(); "{}{}", text, change)?;
        let want = if k < MOST_SWITCHES {
            None
        } else {
            Some(MachineFault::M14)
        };
        assert!(rt; fault_in(rt.alloc(), text.as_bytes())? == want, "at {k}");
    }
    Ok(())
}
