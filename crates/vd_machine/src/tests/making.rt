//! Machines made from a seed, against numbers that a few lines of another language gave.
use crate::tests::files::fault_in;
use crate::*;
use std::alloc::{AllocError, Global};
use std::test::*;

/// What is drawn from a seed, in short: sums over all pieces, and the size and a hash (FNV-1a, 64 bits) of the whole text.
#[derive(Copy, Clone, Debug, PartialEq, Eq)]
struct Sums {
    seed: u64,
    packed: bool,
    window: u32,
    pieces: u64,
    lens: u64,
    addrs: u64,
    size: usize,
    hash: u64,
}

const WANTED: [Sums; 4] = [
    Sums {
        seed: 0,
        packed: true,
        window: 9,
        pieces: 3_041,
        lens: 1_089_790,
        addrs: 7_145_143_456,
        size: 45_846,
        hash: 1_534_101_408_264_389_340,
    },
    Sums {
        seed: 7,
        packed: false,
        window: 16,
        pieces: 3_015,
        lens: 1_084_555,
        addrs: 7_108_675_520,
        size: 45_527,
        hash: 17_066_045_841_631_487_892,
    },
    Sums {
        seed: 9,
        packed: true,
        window: 2,
        pieces: 2_993,
        lens: 1_059_926,
        addrs: 7_066_865_240,
        size: 45_202,
        hash: 7_078_566_820_243_547_389,
    },
    Sums {
        seed: 18_446_744_073_709_551_615,
        packed: false,
        window: 8,
        pieces: 2_969,
        lens: 1_066_878,
        addrs: 7_040_551_584,
        size: 44_914,
        hash: 5_275_970_824_731_651_453,
    },
];

/// The canonical text of a seed's machine.
fn text_of(alloc: Global, seed: u64) -> Result<Vec<u8>, AllocError> {
    let machine = make(alloc, seed)?;
    let mut text = Vec::new(alloc);
    machine.print(alloc, &mut text)?;
    Ok(text)
}

fn hash_of(text: &[u8]) -> u64 {
    let mut hash = 14_695_981_039_346_656_037u64;
    for byte in text {
        hash = (hash ^ *byte as u64).wrapping_mul(1_099_511_628_211);
    }
    hash
}

fn sums_of(alloc: Global, seed: u64) -> Result<Sums, AllocError> {
    let machine = make(alloc, seed)?;
    let text = text_of(alloc, seed)?;
    let mut sums = Sums {
        seed,
        packed: machine.packed,
        window: machine.window,
        pieces: 0,
        lens: 0,
        addrs: 0,
        size: text.len(),
        hash: hash_of(text.as_slice()),
    };
    for script in machine.queues.as_slice() {
        for run in script.runs.as_slice() {
            for piece in run.chain.pieces() {
                sums.pieces = sums.pieces.saturating_add(1);
                sums.lens = sums.lens.saturating_add(piece.len as u64);
                sums.addrs = sums.addrs.saturating_add(piece.addr);
            }
        }
    }
    Ok(sums)
}

#[test]
fn draws_what_the_seed_says(rt: HostRuntime) -> Result<(), Fail> {
    for wanted in WANTED {
        let sums = sums_of(rt.alloc(), wanted.seed)?;
        assert!(rt; sums == wanted, "at seed {}", wanted.seed);
    }
    Ok(())
}

/// What stands before the first text of seed 7, and the text.
const FRONT: &str = concat!(
    "layout = \"split\"\n",
    "size = 256\n",
    "features = [\"indirect\", \"event_idx\", \"in_order\"]\n",
    "window = 16\n",
    "start = \"pass\"\n",
    "iova_first = 4096\n",
    "iova_last = 281474976710655\n",
    "regions = [{ addr = 1048576, size = 1048576 }, { addr = 4194304, size = 2097152 }]\n",
    "queues = [[\"200*r1236104+249 w4605976+16\", \"200*r1163424+235 r1389488+531 w4214168+16\", ",
);

/// Its last text, what stands behind it, and the line of the control queue.
const BACK: &str = concat!(
    ", \"200*r1532216+613 r1233896+820 r1381808+61 w4214904+16\"]]\n",
    "switches = [{ after = 50000, to = \"shadow\" }, { after = 100000, to = \"renew\" }, { after = 150000, to = \"pass\" }]\n",
);

const COMMANDS: &str = "commands = [\"0101525400123456\", \"02000700\"]\n";

#[test]
fn writes_each_key(rt: HostRuntime) -> Result<(), Fail> {
    let text = text_of(rt.alloc(), 7)?;
    let whole = std::str::from_utf8(text.as_slice()).or(Err("no text"))?;
    assert!(rt; whole.starts_with(FRONT));
    let uncontrolled = whole.strip_suffix(COMMANDS).ok_or("no commands")?;
    assert!(rt; uncontrolled.ends_with(BACK));
    Ok(())
}

#[test]
fn has_200_of_each_chain(rt: HostRuntime) -> Result<(), Fail> {
    let machine = make(rt.alloc(), 7)?;
    assert_eq!(rt; machine.queues.len(), 1);
    let script = machine.queues.get(0).ok_or("no queue")?;
    assert_eq!(rt; script.runs.len(), 1_000);
    assert!(rt; script.runs.as_slice().iter().all(|run| run.count == 200));
    Ok(())
}

/// Until a play takes commands the key of the control queue alone is refused.
#[test]
fn breaks_no_rule_but_that_of_its_key(rt: HostRuntime) -> Result<(), Fail> {
    for wanted in WANTED {
        let text = text_of(rt.alloc(), wanted.seed)?;
        let whole = std::str::from_utf8(text.as_slice()).or(Err("no text"))?;
        let uncontrolled = whole.strip_suffix(COMMANDS).ok_or("no commands")?;
        assert!(rt; fault_in(rt.alloc(), whole.as_bytes())? == Some(MachineFault::M2));
        assert!(rt; fault_in(rt.alloc(), uncontrolled.as_bytes())?.is_none());
    }
    Ok(())
}

#[test]
fn another_seed_makes_another(rt: HostRuntime) -> Result<(), Fail> {
    let first = text_of(rt.alloc(), 7)?;
    let second = text_of(rt.alloc(), 8)?;
    let again = text_of(rt.alloc(), 7)?;
    assert!(rt; first.as_slice() != second.as_slice() && first.as_slice() == again.as_slice());
    assert!(rt; first.len() < 200_000 && second.len() < 200_000);
    Ok(())
}
