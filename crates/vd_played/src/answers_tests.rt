//! How commands end, and what they write.
use crate::benches::{Parties, no_parties};
use crate::commands::{ending, joined, left_by_models};
use std::test::*;
use vd_bus::Guest;
use vd_machine::MachineFault;
use vd_models::{ModelDevice, ModelGuest};
use vd_packed::Packed;
use vd_runner::{Bench, Status};
use vd_split::Split;
use vd_stream::{MemorySink, MemorySource};

pub const FILE: &str =
    "layout = \"split\"\nsize = 4\nregions = [{ addr = 4096, size = 8192 }]\nqueues = [[\"r4096+10 w8192+64\"]]\n";

pub const REPORT: &str = "queue 0 chains 1 bytes 10\nchain 0 0 10\nepoch 0 0 pass 0 1\ndrained 1\n";

#[test]
fn each_answer_comes_with_its_state(rt: HostRuntime) -> Result<(), Fail> {
    let alloc = rt.alloc();
    let file = FILE.as_bytes();
    let report = REPORT.as_bytes();
    let whole: (&[u8], &[u32], &[u32]) = (file, &[], &[]);
    let play: &[&str] = &["play"];
    let no_text = Status::Machine(MachineFault::M1);
    let no_keys = Status::Machine(MachineFault::M3);
    let cases: [(&[&str], (&[u8], &[u32], &[u32]), Status, &[u8], usize); 14] = [
        (play, whole, Status::Ok, report, 1),
        (&[], whole, Status::Usage, b"", 0),
        (&["play", "play"], whole, Status::Usage, b"", 0),
        (&["play", "run"], whole, Status::Usage, b"", 0),
        (&["play", "--seed"], whole, Status::Usage, b"", 0),
        (&["make"], whole, Status::Usage, b"", 0),
        (&["run", "--seed", "1"], whole, Status::Usage, b"", 0),
        (
            &["play", "--seed", "18446744073709551616"],
            whole,
            Status::Usage,
            b"",
            0,
        ),
        (play, (b"layout = ", &[], &[]), no_text, b"", 0),
        (play, (b"layout = \"split\xff\"", &[], &[]), no_text, b"", 0),
        (play, (b"", &[], &[]), no_keys, b"", 0),
        (play, (file, &[1], &[]), Status::ReadFault, b"", 0),
        (play, (file, &[2], &[]), Status::ReadFault, b"", 0),
        (
            play,
            (file, &[], &[3]),
            Status::WriteFault,
            &report[..39],
            1,
        ),
    ];
    for (words, given, status, held, returned) in &cases {
        let left = left_by_models(alloc, words, *given, Parties::Models, Parties::None)?;
        assert!(rt; left.status == *status);
        assert!(rt; left.held.as_slice() == *held);
        assert_eq!(rt; left.told.returned.len(), *returned);
        let journal = if *returned == 0 {
            ""
        } else {
            "A 0 0 pass S 1 1 A 0 1 pass S 1 1 "
        };
        assert!(rt; left.told.journal.as_str() == journal);
    }
    Ok(())
}

#[test]
fn a_file_of_1048577_bytes_is_too_large(rt: HostRuntime) -> Result<(), Fail> {
    let alloc = rt.alloc();
    for (bytes, status) in [
        (1_048_577, Status::TooLarge(1_048_577)),
        (1_048_576, Status::Machine(MachineFault::M3)),
    ] {
        let spaces = Vec::from_elem(alloc, b' ', bytes)?;
        let left = left_by_models(
            alloc,
            &["play"],
            (&spaces, &[], &[]),
            Parties::Models,
            Parties::None,
        )?;
        assert!(rt; left.status == status);
    }
    Ok(())
}

#[test]
fn a_file_is_played_or_refused_by_its_first_broken_rule(rt: HostRuntime) -> Result<(), Fail> {
    let alloc = rt.alloc();
    let none = "queue 0 chains 0 bytes 0\nepoch 0 0 pass 0 0\ndrained 0\n";
    let three =
        "queue 0 chains 3 bytes 30\nchain 0 0 10\nchain 0 1 10\nchain 0 2 10\nepoch 0 0 pass 0 3\ndrained 3\n";
    let mixed =
        "queue 0 chains 2 bytes 1\nchain 0 0 0\nchain 0 1 1\nepoch 0 0 pass 0 2\ndrained 2\n";
    let wrong = |rule| (Status::Machine(rule), "");
    let cases: [(&str, &str, (Status, &str)); 18] = [
        ("4", "[[]]", (Status::Ok, none)),
        ("2", "[[\"3*r4096+10 w8192+64\"]]", (Status::Ok, three)),
        (
            "2",
            "[[\"r4096+10\", \"r4096+1 w8192+64\"]]",
            (Status::Ok, mixed),
        ),
        ("", "[[]]", wrong(MachineFault::M1)),
        ("4", "[[]]\ncolour = 1", wrong(MachineFault::M2)),
        ("4", "[[]]\ncommands = []", wrong(MachineFault::M2)),
        ("\"4\"", "[[]]", wrong(MachineFault::M4)),
        ("3", "[[]]", wrong(MachineFault::M6)),
        ("2048", "[[]]", wrong(MachineFault::M6)),
        ("4", "[[]]\nfeatures = [\"fast\"]", wrong(MachineFault::M7)),
        ("4", "[[]]\nwindow = 0", wrong(MachineFault::M8)),
        ("4", "[[\"w8192+64 r4096+10\"]]", wrong(MachineFault::M10)),
        (
            "2",
            "[[\"r4096+1 r4096+1 r4096+1\"]]",
            wrong(MachineFault::M11),
        ),
        ("4", "[[\"r12287+2\"]]", wrong(MachineFault::M12)),
        ("4", "[]", wrong(MachineFault::M13)),
        (
            "4",
            "[[], [], [], [], [], [], [], [], []]",
            wrong(MachineFault::M13),
        ),
        ("4", "[[\"200001*r4096+1\"]]", wrong(MachineFault::M13)),
        ("3", "[[\"r12287+2\"], []]", wrong(MachineFault::M6)),
    ];
    let front = "layout = \"split\"\nregions = [{ addr = 4096, size = 8192 }]\nsize = ";
    for (size, queues, (status, held)) in &cases {
        let text = joined(alloc, &[front, *size, "\nqueues = ", *queues, "\n"])?;
        let left = left_by_models(
            alloc,
            &["play"],
            (text.as_bytes(), &[], &[]),
            Parties::Models,
            Parties::None,
        )?;
        assert!(rt; left.status == *status);
        assert!(rt; left.held.as_slice() == held.as_bytes());
    }
    Ok(())
}

#[test]
fn a_bench_of_too_few_devices_is_left_as_it_is(rt: HostRuntime) -> Result<(), Fail> {
    let alloc = rt.alloc();
    let text =
        "layout = \"split\"\nregions = [{ addr = 4096, size = 8192 }]\nsize = 4\nqueues = [[\"r4096+10 w8192+64\"], []]\n";
    let mut source = MemorySource::new(alloc, text.as_bytes(), &[])?;
    let mut sink = MemorySink::new(alloc, 200, &[])?;
    let mut guests = Vec::new(alloc);
    guests.push(ModelGuest::new(alloc))?;
    guests.push(ModelGuest::new(alloc))?;
    let mut devices: Vec<ModelDevice<Split>> = Vec::new(alloc);
    devices.push(ModelDevice::new(alloc, 1))?;
    let mut bench = Bench { guests, devices };
    let status = ending(
        alloc,
        &["play"],
        &mut source,
        &mut sink,
        &mut bench,
        &mut no_parties::<Packed>(alloc),
    );
    let few = Status::TooFewParties {
        need: 2,
        guests: 2,
        devices: 1,
    };
    assert!(rt; status == few);
    assert!(rt; sink.held().is_empty());
    assert!(rt; bench.guests.len() == 2 && bench.guests[0].offered() == 0);
    Ok(())
}
