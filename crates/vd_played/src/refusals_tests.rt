//! Devices that refuse an attach.
use crate::commands::{file, left_by_faulty};
use std::test::*;
use vd_runner::Status;

const ONE: &str = "queues = [[\"r4096+10 w8192+64\"]]";

const ONE_REPORT: &str = "queue 0 chains 1 bytes 10\nchain 0 0 10\nepoch 0 0 pass 0 1\ndrained 1\n";

const TWO: &str = "queues = [[\"2*r4096+10 w8192+64\"]]";

const TWICE: &str =
    "queues = [[\"3*r4096+10\"]]\nswitches = [{ after = 2, to = \"shadow\" }, { after = 2, to = \"pass\" }]";

/// A refused attach is the fault of its queue, and leaves the epochs before it. The rows of `TWICE` refuse one to a shadow ring.
#[test]
fn a_refused_attach_is_told(rt: HostRuntime) -> Result<(), Fail> {
    let alloc = rt.alloc();
    let refused = Status::DeviceFault(0);
    let split = "A 0 0 pass S 2 2 ";
    let packed = "A 0 2147516416 pass S 2 2147647490 ";
    let cases: [((&str, &str, &str, u32), Status, &str, &str, &[u32]); 6] = [
        (("split", "4", ONE, 1), refused, "", "", &[]),
        (
            ("split", "4", ONE, 2),
            refused,
            "",
            "A 0 0 pass S 1 1 ",
            &[10],
        ),
        (
            ("split", "4", ONE, 3),
            Status::Ok,
            ONE_REPORT,
            "A 0 0 pass S 1 1 A 0 1 pass S 1 1 ",
            &[10],
        ),
        (
            ("packed", "3", TWO, 2),
            refused,
            "",
            "A 0 2147516416 pass S 2 65537 ",
            &[10, 10],
        ),
        (("split", "4", TWICE, 2), refused, "", split, &[0, 0]),
        (("packed", "4", TWICE, 2), refused, "", packed, &[0, 0]),
    ];
    for ((layout, size, lines, fails), status, held, journal, lens) in &cases {
        let text = file(alloc, layout, size, lines)?;
        let left = left_by_faulty(alloc, &["play"], text.as_str(), *layout == "packed", *fails)?;
        assert!(rt; left.status == *status);
        assert!(rt; left.held.as_slice() == held.as_bytes());
        assert!(rt; left.told.journal.as_str() == *journal);
        assert!(rt; left.told.gave(lens));
    }
    Ok(())
}
