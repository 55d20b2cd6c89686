//! Plays with switches, and with queues in several epochs.
use crate::benches::{no_parties, two_more};
use crate::commands::{ending, file, joined, left_by_faulty};
use crate::told::tell_of;
use std::test::*;
use vd_packed::Packed;
use vd_runner::Status;
use vd_split::Split;
use vd_stream::{MemorySink, MemorySource};

const BRIEF: &[&str] = &["play", "--brief"];

const SHADOWED: &str =
    "start = \"shadow\"\niova_first = 1048576\nqueues = [[\"r4096+10 w8192+64\"]]";

const TWICE: &str =
    "queues = [[\"3*r4096+10\"]]\nswitches = [{ after = 2, to = \"shadow\" }, { after = 2, to = \"pass\" }]";

const EIGHT: &str = concat!(
    "queues = [[], [\"r4096+10\"], [\"2*r4096+10\"], [\"3*r4096+10\"], ",
    "[\"4*r4096+10\"], [\"5*r4096+10\"], [\"6*r4096+10\"], [\"7*r4096+10\"]]\n",
    "switches = [{ after = 3, to = \"shadow\" }]",
);

const SIX: &str =
    "window = 4\nqueues = [[\"6*r4096+10\"]]\nswitches = [{ after = 3, to = \"shadow\" }]";

const SIX_JOURNAL: &str = "A 0 0 pass S 3 3 A 32 0 shadow S 6 3 A 0 6 pass S 6 6 ";

#[test]
fn each_epoch_is_in_the_journal(rt: HostRuntime) -> Result<(), Fail> {
    let alloc = rt.alloc();
    let cases: [(&str, &str, &str, &str); 5] = [
        (
            "split",
            "4",
            SHADOWED,
            "A 16 0 shadow S 1 1 A 0 1 pass S 1 1 ",
        ),
        (
            "packed",
            "4",
            SHADOWED,
            "A 16 2147516416 shadow S 1 2147647490 A 0 2147647490 pass S 1 2147647490 ",
        ),
        (
            "split",
            "4",
            TWICE,
            "A 0 0 pass S 2 2 A 32 0 shadow S 2 0 A 0 2 pass S 3 3 A 0 3 pass S 3 3 ",
        ),
        ("split", "8", SIX, SIX_JOURNAL),
        (
            "packed",
            "3",
            TWICE,
            "A 0 2147516416 pass S 2 2147647490 A 32 2147516416 shadow S 2 2147516416 A 0 2147647490 pass S 3 0 A 0 0 pass S 3 0 ",
        ),
    ];
    for (layout, size, lines, journal) in &cases {
        let text = file(alloc, layout, size, lines)?;
        let left = left_by_faulty(alloc, BRIEF, text.as_str(), *layout == "packed", 0)?;
        assert!(rt; left.status == Status::Ok);
        assert!(rt; left.told.once);
        assert!(rt; left.told.journal.as_str() == *journal);
    }
    Ok(())
}

#[test]
fn the_chains_of_a_shadow_epoch_are_at_their_iovas(rt: HostRuntime) -> Result<(), Fail> {
    let alloc = rt.alloc();
    let text = file(
        alloc,
        "split",
        "4",
        concat!(
            "iova_first = 1048576\nqueues = [[\"70000*r4096+10\"]]\n",
            "switches = [{ after = 65535, to = \"shadow\" }, { after = 65537, to = \"pass\" }]",
        ),
    )?;
    let left = left_by_faulty(alloc, BRIEF, text.as_str(), false, 0)?;
    assert!(rt; left.status == Status::Ok);
    assert!(rt; left.told.once);
    assert!(rt;
        left.told.journal.as_str()
            == "A 0 0 pass S 65535 65535 A 32 0 shadow S 65537 2 A 0 1 pass S 70000 4464 A 0 4464 pass S 70000 4464 "
    );
    assert_eq!(rt; left.told.taken.len(), 70_000);
    for k in 0..left.told.taken.len() {
        let wanted: u64 = if k == 65_535 || k == 65_536 {
            1_048_576
        } else {
            4_096
        };
        assert_eq!(rt; left.told.taken[k].first, wanted);
    }
    Ok(())
}

const SEEDS: [&str; 12] = ["0", "1", "2", "3", "4", "5", "6", "7", "8", "9", "10", "11"];

#[test]
fn in_every_schedule_a_switch_comes_after_its_chains(rt: HostRuntime) -> Result<(), Fail> {
    let alloc = rt.alloc();
    let plain = file(alloc, "split", "8", SIX)?;
    let mut ordered = file(alloc, "split", "8", SIX)?;
    ordered.push_str("features = [\"in_order\"]\n")?;
    for seed in &SEEDS {
        let words = ["play", "--brief", "--seed", *seed];
        let left = left_by_faulty(alloc, &words, plain.as_str(), false, 0)?;
        assert!(rt; left.status == Status::Ok && left.told.once);
        assert!(rt; left.told.journal.as_str() == SIX_JOURNAL);
        let left = left_by_faulty(alloc, &words, ordered.as_str(), false, 0)?;
        assert!(rt; left.status == Status::Ok && left.told.once);
        assert!(rt; left.told.came_back(&[0, 1, 2, 3, 4, 5]));
    }
    Ok(())
}

const COUNTS: [&str; 7] = ["0", "1", "2", "3", "4", "5", "6"];

/// Five chains of two pieces, with switches to shadow and to pass after so many of them.
#[test]
fn wherever_the_switches_are_each_chain_comes_back_once(rt: HostRuntime) -> Result<(), Fail> {
    let alloc = rt.alloc();
    let rings: [(&str, &str); 5] = [
        ("split", "2"),
        ("split", "4"),
        ("packed", "2"),
        ("packed", "3"),
        ("packed", "4"),
    ];
    let shadow = "queues = [[\"5*r4096+10 w8192+64\"]]\nswitches = [{ after = ";
    let pass = ", to = \"shadow\" }, { after = ";
    for (layout, size) in &rings {
        for (number, from) in COUNTS.iter().enumerate() {
            for to in COUNTS.iter().skip(number) {
                let lines = joined(alloc, &[shadow, *from, pass, *to, ", to = \"pass\" }]"])?;
                let text = file(alloc, layout, size, lines.as_str())?;
                let left = left_by_faulty(alloc, BRIEF, text.as_str(), *layout == "packed", 0)?;
                assert!(rt; left.status == Status::Ok);
                assert!(rt; left.told.once);
                assert_eq!(rt; left.told.returned.len(), 5);
            }
        }
    }
    Ok(())
}

#[test]
fn eight_queues_are_switched_together(rt: HostRuntime) -> Result<(), Fail> {
    let alloc = rt.alloc();
    let text = file(alloc, "split", "4", EIGHT)?;
    let mut source = MemorySource::new(alloc, text.as_bytes(), &[])?;
    let mut sink = MemorySink::new(alloc, 2_000, &[])?;
    let four = two_more(alloc, two_more(alloc, no_parties::<Split>(alloc))?)?;
    let mut bench = two_more(alloc, two_more(alloc, four)?)?;
    let status = ending(
        alloc,
        BRIEF,
        &mut source,
        &mut sink,
        &mut bench,
        &mut no_parties::<Packed>(alloc),
    );
    assert!(rt; status == Status::Ok);
    let wanted: [(usize, &str); 3] = [
        (0, "A 0 0 pass S 0 0 A 32 0 shadow S 0 0 A 0 0 pass S 0 0 "),
        (3, "A 3 0 pass S 3 3 A 35 0 shadow S 3 0 A 3 3 pass S 3 3 "),
        (7, "A 7 0 pass S 3 3 A 39 0 shadow S 7 4 A 7 7 pass S 7 7 "),
    ];
    for (queue, journal) in &wanted {
        let told = tell_of::<Split, _, _>(alloc, &bench, *queue)?;
        assert!(rt; told.once);
        assert!(rt; told.journal.as_str() == *journal);
    }
    Ok(())
}
