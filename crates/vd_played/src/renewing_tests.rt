//! Plays with renewals.
use crate::benches::{no_parties, two_more};
use crate::commands::{ending, file, left_by_faulty};
use crate::told::tell_of;
use std::test::*;
use vd_packed::Packed;
use vd_runner::Status;
use vd_split::Split;
use vd_stream::{MemorySink, MemorySource, Sink};

const BRIEF: &[&str] = &["play", "--brief"];

const FROM_PASS: &str = "queues = [[\"3*r4096+10\"]]\nswitches = [{ after = 2, to = \"renew\" }]";

const FROM_SHADOW: &str =
    "start = \"shadow\"\nqueues = [[\"3*r4096+10\"]]\nswitches = [{ after = 2, to = \"renew\" }]";

/// At the begin twice, after two chains, and where all chains are begun.
const IN_A_ROW: &str = concat!(
    "queues = [[\"3*r4096+10\"]]\n",
    "switches = [{ after = 0, to = \"renew\" }, { after = 0, to = \"renew\" }, { after = 2, to = \"renew\" }, ",
    "{ after = 3, to = \"renew\" }]",
);

/// Pass, shadow, renewed in shadow, pass.
const AMONG: &str = concat!(
    "queues = [[\"4*r4096+10\"]]\n",
    "switches = [{ after = 1, to = \"shadow\" }, { after = 2, to = \"renew\" }, { after = 3, to = \"pass\" }]",
);

const TWICE_IN_SHADOW: &str = concat!(
    "queues = [[\"r4096+10\"]]\nstart = \"shadow\"\n",
    "switches = [{ after = 0, to = \"renew\" }, { after = 1, to = \"renew\" }]",
);

const NO_CHAINS: &str = "queues = [[]]\nswitches = [{ after = 7, to = \"renew\" }]";

const FROM_PASS_REPORT: &str =
    "queue 0 chains 3 bytes 0\nepoch 0 0 pass 0 2\nepoch 0 1 pass 2 3\ndrained 3\n";

const FROM_SHADOW_REPORT: &str =
    "queue 0 chains 3 bytes 0\nepoch 0 0 shadow 0 2\nepoch 0 1 shadow 2 3\ndrained 3\n";

const IN_A_ROW_REPORT: &str = concat!(
    "queue 0 chains 3 bytes 0\nepoch 0 0 pass 0 0\nepoch 0 1 pass 0 0\nepoch 0 2 pass 0 2\nepoch 0 3 pass 2 3\n",
    "epoch 0 4 pass 3 3\ndrained 3\n",
);

const AMONG_REPORT: &str = concat!(
    "queue 0 chains 4 bytes 0\nepoch 0 0 pass 0 1\nepoch 0 1 shadow 1 2\nepoch 0 2 shadow 2 3\nepoch 0 3 pass 3 4\n",
    "drained 4\n",
);

const TWICE_REPORT: &str = concat!(
    "queue 0 chains 1 bytes 0\nepoch 0 0 shadow 0 0\nepoch 0 1 shadow 0 1\nepoch 0 2 shadow 1 1\n",
    "drained 1\n",
);

const NO_CHAINS_REPORT: &str =
    "queue 0 chains 0 bytes 0\nepoch 0 0 pass 0 0\nepoch 0 1 pass 0 0\ndrained 0\n";

/// The reset stands before the attach of the epoch that it begins. A guest's ring goes on from its base, and a shadow ring is fresh.
#[test]
fn each_renewal_is_in_the_journal(rt: HostRuntime) -> Result<(), Fail> {
    let alloc = rt.alloc();
    let cases: [((&str, &str, &str), &str, &str); 9] = [
        (
            ("split", "4", FROM_PASS),
            FROM_PASS_REPORT,
            "A 0 0 pass S 2 2 X A 0 2 pass S 3 3 A 0 3 pass S 3 3 ",
        ),
        (
            ("packed", "4", FROM_PASS),
            FROM_PASS_REPORT,
            "A 0 2147516416 pass S 2 2147647490 X A 0 2147647490 pass S 3 2147713027 A 0 2147713027 pass S 3 2147713027 ",
        ),
        (
            ("split", "4", FROM_SHADOW),
            FROM_SHADOW_REPORT,
            "A 16 0 shadow S 2 2 X A 32 0 shadow S 3 1 A 0 3 pass S 3 3 ",
        ),
        (
            ("packed", "2", FROM_SHADOW),
            FROM_SHADOW_REPORT,
            "A 16 2147516416 shadow S 2 0 X A 32 2147516416 shadow S 3 2147581953 A 0 65537 pass S 3 65537 ",
        ),
        (
            ("split", "2", IN_A_ROW),
            IN_A_ROW_REPORT,
            "A 0 0 pass S 0 0 X A 0 0 pass S 0 0 X A 0 0 pass S 2 2 X A 0 2 pass S 3 3 X A 0 3 pass S 3 3 A 0 3 pass S 3 3 ",
        ),
        (
            ("split", "4", AMONG),
            AMONG_REPORT,
            "A 0 0 pass S 1 1 A 32 0 shadow S 2 1 X A 48 0 shadow S 3 1 A 0 3 pass S 4 4 A 0 4 pass S 4 4 ",
        ),
        (
            ("packed", "4", AMONG),
            AMONG_REPORT,
            concat!(
                "A 0 2147516416 pass S 1 2147581953 A 32 2147516416 shadow S 2 2147581953 ",
                "X A 48 2147516416 shadow S 3 2147581953 A 0 2147713027 pass S 4 0 A 0 0 pass S 4 0 ",
            ),
        ),
        (
            ("split", "4", TWICE_IN_SHADOW),
            TWICE_REPORT,
            "A 16 0 shadow S 0 0 X A 32 0 shadow S 1 1 X A 48 0 shadow S 1 0 A 0 1 pass S 1 1 ",
        ),
        (
            ("split", "4", NO_CHAINS),
            NO_CHAINS_REPORT,
            "A 0 0 pass S 0 0 X A 0 0 pass S 0 0 A 0 0 pass S 0 0 ",
        ),
    ];
    for ((layout, size, lines), report, journal) in &cases {
        let text = file(alloc, layout, size, lines)?;
        let left = left_by_faulty(alloc, BRIEF, text.as_str(), *layout == "packed", 0)?;
        assert!(rt; left.status == Status::Ok);
        assert!(rt; left.told.once);
        assert!(rt; left.told.journal.as_str() == *journal, "at {lines}");
        assert!(rt; left.held.as_slice() == report.as_bytes(), "at {lines}");
    }
    Ok(())
}

/// An attach that is refused after a renewal leaves the reset.
#[test]
fn a_refusal_after_a_renewal_leaves_the_reset(rt: HostRuntime) -> Result<(), Fail> {
    let alloc = rt.alloc();
    let cases: [(&str, &str, &str, u32, &str); 5] = [
        ("split", "4", FROM_PASS, 2, "A 0 0 pass S 2 2 X "),
        (
            "packed",
            "4",
            FROM_PASS,
            2,
            "A 0 2147516416 pass S 2 2147647490 X ",
        ),
        ("split", "4", FROM_SHADOW, 2, "A 16 0 shadow S 2 2 X "),
        (
            "split",
            "4",
            FROM_SHADOW,
            3,
            "A 16 0 shadow S 2 2 X A 32 0 shadow S 3 1 ",
        ),
        ("split", "4", IN_A_ROW, 2, "A 0 0 pass S 0 0 X "),
    ];
    for (layout, size, lines, fails, journal) in &cases {
        let text = file(alloc, layout, size, lines)?;
        let left = left_by_faulty(alloc, BRIEF, text.as_str(), *layout == "packed", *fails)?;
        assert!(rt; left.status == Status::DeviceFault(0));
        assert!(rt; left.told.journal.as_str() == *journal, "at {lines}");
        assert!(rt; left.held.is_empty());
    }
    Ok(())
}

const TWO_QUEUES: &str = concat!(
    "queues = [[\"r4096+10\"], [\"4*r4096+10 w8192+64\"]]\n",
    "switches = [{ after = 2, to = \"renew\" }, { after = 3, to = \"shadow\" }, { after = 3, to = \"renew\" }]",
);

const TWO_REPORT: &str = concat!(
    "queue 0 chains 1 bytes 0\nepoch 0 0 pass 0 1\nepoch 0 1 pass 1 1\nepoch 0 2 shadow 1 1\nepoch 0 3 shadow 1 1\n",
    "queue 1 chains 4 bytes 40\nepoch 1 0 pass 0 2\nepoch 1 1 pass 2 3\nepoch 1 2 shadow 3 3\nepoch 1 3 shadow 3 4\n",
    "drained 5\n",
);

#[test]
fn two_queues_are_renewed_together(rt: HostRuntime) -> Result<(), Fail> {
    let alloc = rt.alloc();
    let text = file(alloc, "split", "4", TWO_QUEUES)?;
    let mut source = MemorySource::new(alloc, text.as_bytes(), &[])?;
    let mut sink = MemorySink::new(alloc, 2_000, &[])?;
    let mut bench = two_more(alloc, no_parties::<Split>(alloc))?;
    let status = ending(
        alloc,
        BRIEF,
        &mut source,
        &mut sink,
        &mut bench,
        &mut no_parties::<Packed>(alloc),
    );
    assert!(rt; status == Status::Ok);
    assert!(rt; sink.held() == TWO_REPORT.as_bytes());
    let wanted: [(usize, &str); 2] = [
        (
            0,
            "A 0 0 pass S 1 1 X A 0 1 pass S 1 1 A 48 0 shadow S 1 0 X A 64 0 shadow S 1 0 A 0 1 pass S 1 1 ",
        ),
        (
            1,
            "A 1 0 pass S 2 2 X A 1 2 pass S 3 3 A 49 0 shadow S 3 0 X A 65 0 shadow S 4 1 A 1 4 pass S 4 4 ",
        ),
    ];
    for (queue, journal) in &wanted {
        let told = tell_of::<Split, _, _>(alloc, &bench, *queue)?;
        assert!(rt; told.once);
        assert!(rt; told.journal.as_str() == *journal);
    }
    Ok(())
}
