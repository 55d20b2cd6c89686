//! What plays over the model parties leave: the report, the journal, and what came back.
use crate::benches::Parties;
use crate::commands::{file, left_by_models};
use std::test::*;
use vd_model::Return;
use vd_runner::Status;

const ONE: &str = "queues = [[\"r4096+10 w8192+64\"]]";

const ONE_REPORT: &str = "queue 0 chains 1 bytes 10\nchain 0 0 10\nepoch 0 0 pass 0 1\ndrained 1\n";

const TWO: &str = "queues = [[\"2*r4096+10 w8192+64\"]]";

const TWO_REPORT: &str =
    "queue 0 chains 2 bytes 20\nchain 0 0 10\nchain 0 1 10\nepoch 0 0 pass 0 2\ndrained 2\n";

/// Six chains of different lengths over a ring of four places, two of them in a shadow epoch.
const SIX: &str = concat!(
    "window = 3\nqueues = [[\"2*r4096+10 w8192+64\", \"r4096+9\", \"w8192+64\", \"2*r4096+7 r4103+1 w8192+5\"]]\n",
    "switches = [{ after = 2, to = \"shadow\" }, { after = 4, to = \"pass\" }]",
);

const SIX_REPORT: &str = concat!(
    "queue 0 chains 6 bytes 30\nchain 0 0 10\nchain 0 1 10\nchain 0 2 0\nchain 0 3 0\nchain 0 4 5\nchain 0 5 5\n",
    "epoch 0 0 pass 0 2\nepoch 0 1 shadow 2 4\nepoch 0 2 pass 4 6\ndrained 6\n",
);

const NONE_REPORT: &str = "queue 0 chains 0 bytes 0\nepoch 0 0 pass 0 0\ndrained 0\n";

/// A window of four chains that are given back last begun first unless in order.
const WINDOW: &str = "window = 4\nqueues = [[\"6*r4096+10\"]]\nfeatures = []";

const IN_ORDER: &str = "window = 4\nqueues = [[\"6*r4096+10\"]]\nfeatures = [\"in_order\"]";

const WINDOW_REPORT: &str = concat!(
    "queue 0 chains 6 bytes 0\nchain 0 0 0\nchain 0 1 0\nchain 0 2 0\nchain 0 3 0\nchain 0 4 0\nchain 0 5 0\n",
    "epoch 0 0 pass 0 6\ndrained 6\n",
);

/// A file of one queue as layout, size and lines, and what its play leaves: the report, the journal, and the numbers of the
/// chains in the order in which they come back.
#[derive(Drop)]
struct Row {
    parties: Parties,
    file: (&'static str, &'static str, &'static str),
    report: &'static str,
    journal: &'static str,
    order: &'static [u32],
}

/// A base of a packed ring has place and wrap of both positions: of a fresh ring, and after four descriptors in a ring of three.
#[test]
fn a_play_leaves_its_report_its_journal_and_all_chains(rt: HostRuntime) -> Result<(), Fail> {
    let alloc = rt.alloc();
    let rows = [
        Row {
            parties: Parties::Models,
            file: ("split", "4", ONE),
            report: ONE_REPORT,
            journal: "A 0 0 pass S 1 1 A 0 1 pass S 1 1 ",
            order: &[0],
        },
        Row {
            parties: Parties::Models,
            file: ("split", "4", "queues = [[]]"),
            report: NONE_REPORT,
            journal: "A 0 0 pass S 0 0 A 0 0 pass S 0 0 ",
            order: &[],
        },
        Row {
            parties: Parties::Models,
            file: ("packed", "3", TWO),
            report: TWO_REPORT,
            journal: "A 0 2147516416 pass S 2 65537 A 0 65537 pass S 2 65537 ",
            order: &[0, 1],
        },
        Row {
            parties: Parties::Models,
            file: ("split", "8", WINDOW),
            report: WINDOW_REPORT,
            journal: "A 0 0 pass S 6 6 A 0 6 pass S 6 6 ",
            order: &[3, 2, 1, 0, 5, 4],
        },
        Row {
            parties: Parties::Models,
            file: ("split", "8", IN_ORDER),
            report: WINDOW_REPORT,
            journal: "A 0 0 pass S 6 6 A 0 6 pass S 6 6 ",
            order: &[0, 1, 2, 3, 4, 5],
        },
        Row {
            parties: Parties::Others,
            file: ("split", "4", SIX),
            report: SIX_REPORT,
            journal: "A 0 0 pass S 2 2 A 32 0 shadow S 4 2 A 0 4 pass S 6 6 A 0 6 pass S 6 6 ",
            order: &[0, 1, 2, 3, 4, 5],
        },
        Row {
            parties: Parties::Others,
            file: ("packed", "4", SIX),
            report: SIX_REPORT,
            journal: "A 0 2147516416 pass S 2 0 A 32 2147516416 shadow S 4 2147647490 A 0 131074 pass S 6 0 A 0 0 pass S 6 0 ",
            order: &[0, 1, 2, 3, 4, 5],
        },
    ];
    for row in &rows {
        let (layout, size, lines) = row.file;
        let text = file(alloc, layout, size, lines)?;
        let (split, packed) = if layout == "packed" {
            (Parties::None, row.parties)
        } else {
            (row.parties, Parties::None)
        };
        let given: (&[u8], &[u32], &[u32]) = (text.as_bytes(), &[], &[]);
        let left = left_by_models(alloc, &["play"], given, split, packed)?;
        assert!(rt; left.status == Status::Ok);
        assert!(rt; left.held.as_slice() == row.report.as_bytes());
        assert!(rt; left.told.journal.as_str() == row.journal);
        assert!(rt; left.told.came_back(row.order));
        assert!(rt; left.told.once);
    }
    Ok(())
}

#[test]
fn one_chain_is_begun_and_returned(rt: HostRuntime) -> Result<(), Fail> {
    let alloc = rt.alloc();
    let text = file(alloc, "split", "4", ONE)?;
    let left = left_by_models(
        alloc,
        &["play"],
        (text.as_bytes(), &[], &[]),
        Parties::Models,
        Parties::None,
    )?;
    assert!(rt; left.status == Status::Ok);
    assert_eq!(rt; left.told.taken.len(), 1);
    let taken = &left.told.taken[0];
    assert_eq!(rt; taken.len, 10);
    assert_eq!(rt; taken.pieces, 2);
    assert!(rt; taken.first == 4096 && taken.last == 8192);
    let once = Return {
        number: 0,
        len: 10,
        ack: 0,
    };
    assert!(rt; left.told.returned.as_slice() == [once].as_slice());
    Ok(())
}

#[test]
fn bases_wrap_at_65536(rt: HostRuntime) -> Result<(), Fail> {
    let alloc = rt.alloc();
    let text = file(
        alloc,
        "split",
        "4",
        "queues = [[\"70000*r4096+10 w8192+64\"]]",
    )?;
    let left = left_by_models(
        alloc,
        &["play"],
        (text.as_bytes(), &[], &[]),
        Parties::Models,
        Parties::None,
    )?;
    assert!(rt; left.status == Status::Ok);
    assert!(rt;
        left.told.journal.as_str() == "A 0 0 pass S 70000 4464 A 0 4464 pass S 70000 4464 "
    );
    assert_eq!(rt; left.told.returned.len(), 70_000);
    assert_eq!(rt; left.told.returned[69_999].number, 69_999);
    Ok(())
}

#[test]
fn a_machine_wants_the_parties_of_its_own_layout(rt: HostRuntime) -> Result<(), Fail> {
    let alloc = rt.alloc();
    let text = file(alloc, "packed", "3", TWO)?;
    let left = left_by_models(
        alloc,
        &["play"],
        (text.as_bytes(), &[], &[]),
        Parties::Models,
        Parties::None,
    )?;
    let few = Status::TooFewParties {
        need: 1,
        guests: 0,
        devices: 0,
    };
    assert!(rt; left.status == few);
    assert_eq!(rt; left.told.offered, 0);
    Ok(())
}
