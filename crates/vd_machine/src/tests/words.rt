//! How many words all rings have.
use crate::tests::files::fault_of;
use crate::words::{ring_words, shadow_epochs};
use crate::{MachineFault, Switch, To};
use std::alloc::{AllocError, Global};
use std::test::*;
use vd_model::{Features, Mode};

fn features(indirect: bool) -> Features {
    Features {
        indirect,
        event_idx: true,
        in_order: true,
    }
}

#[test]
fn a_ring_has_descriptors_areas_tables_and_bells(rt: HostRuntime) -> Result<(), Fail> {
    for (packed, size, indirect, want) in [
        (false, 1_024, true, 36_100),
        (false, 1_024, false, 3_332),
        (false, 2, false, 11),
        (false, 4, true, 145),
        (true, 1_024, true, 34_820),
        (true, 1_024, false, 2_052),
        (true, 3, false, 10),
    ] {
        assert!(rt;
            ring_words(packed, size, features(indirect)) == want,
            "at {size}"
        );
    }
    Ok(())
}

#[test]
fn an_epoch_of_the_mode_shadow_has_rings_of_its_own(rt: HostRuntime) -> Result<(), Fail> {
    let to = |to| Switch { after: 0, to };
    for (start, switches, want) in [
        (Mode::Pass, [To::Pass, To::Pass, To::Pass], 0),
        (Mode::Pass, [To::Renew, To::Pass, To::Shadow], 1),
        (Mode::Pass, [To::Shadow, To::Renew, To::Pass], 2),
        (Mode::Shadow, [To::Pass, To::Renew, To::Shadow], 2),
        (Mode::Shadow, [To::Renew, To::Renew, To::Shadow], 4),
    ] {
        let switches = [to(switches[0]), to(switches[1]), to(switches[2])];
        assert!(rt;
            shadow_epochs(start, switches.as_slice()) == want,
            "at {want}"
        );
    }
    Ok(())
}

/// The rule that a file of eight queues with these rings breaks, which starts in the mode shadow and has so many switches.
fn fault_with(
    alloc: Global,
    rings: &str,
    count: u32,
    to: &str,
) -> Result<Option<MachineFault>, AllocError> {
    let mut change = String::from_str(alloc, rings)?;
    change.push_str("\nqueues = [[], [], [], [], [], [], [], []]\n")?;
    change.push_str("start = 'shadow'\nswitches = [")?;
    for _ in 0..count {
        let switch = format!(in alloc; "{{ after = 7, to = '{}' }}, ", to)?;
        change.push_str(switch.as_str())?;
    }
    change.push_str("]")?;
    fault_of(alloc, change.as_str())
}

#[test]
fn takes_4194304_words_and_no_more(rt: HostRuntime) -> Result<(), Fail> {
    let most = "size = 1024\nfeatures = ['indirect']";
    let packed = "layout = 'packed'\nsize = 1024\nfeatures = ['indirect']";
    let within = "layout = 'packed'\nsize = 856\nfeatures = ['indirect']";
    let past = "layout = 'packed'\nsize = 857\nfeatures = ['indirect']";
    for (rings, count, to, want) in [
        (most, 16, "shadow", Some(MachineFault::M17)),
        (most, 13, "shadow", Some(MachineFault::M17)),
        (most, 12, "shadow", None),
        (most, 13, "renew", Some(MachineFault::M17)),
        (most, 12, "renew", None),
        (most, 16, "pass", None),
        (packed, 14, "shadow", Some(MachineFault::M17)),
        (packed, 13, "shadow", None),
        (past, 16, "shadow", Some(MachineFault::M17)),
        (within, 16, "shadow", None),
        ("size = 1024", 16, "shadow", None),
        (most, 17, "shadow", Some(MachineFault::M14)),
        (
            "size = 1024\nfeatures = ['indirect']\niova_last = 8191",
            16,
            "shadow",
            Some(MachineFault::M16),
        ),
    ] {
        assert!(rt;
            fault_with(rt.alloc(), rings, count, to)? == want,
            "at {rings} with {count} switches to {to}"
        );
    }
    Ok(())
}
