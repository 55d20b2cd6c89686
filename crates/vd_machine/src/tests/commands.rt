//! The control queue: its texts, its line, and that no file has its key yet.
use crate::commands::{control_of, has_few_commands};
use crate::control_lines::print_control;
use crate::tests::files::fault_of;
use crate::types::typed;
use crate::words::{all_words, are_few_words, control_count, control_words};
use crate::{MachineFault, Switch, To};
use std::alloc::{AllocError, Global};
use std::test::*;
use vd_model::Features;

/// What a document's control queue is: `faulty` where a text has no meaning, `none` where there is no queue, else its line.
fn control_in(alloc: Global, text: &str) -> Result<String, AllocError> {
    let Ok(file) = toml::table_from_str(alloc, text) else {
        return String::from_str(alloc, "no document");
    };
    if !has_few_commands(&file) {
        return String::from_str(alloc, "many");
    }
    let Some(control) = control_of(alloc, &file)? else {
        return String::from_str(alloc, "faulty");
    };
    if control.is_none() {
        return String::from_str(alloc, "none");
    }
    let mut out = Vec::new(alloc);
    print_control(&control, &mut out)?;
    match std::str::from_utf8(out.as_slice()) {
        Ok(line) => String::from_str(alloc, line),
        Err(_) => String::from_str(alloc, "no text"),
    }
}

#[test]
fn reads_commands_and_prints_their_line(rt: HostRuntime) -> Result<(), Fail> {
    for (text, want) in [
        ("", "none"),
        ("size = 4", "none"),
        ("commands = []", "commands = []\n"),
        (
            "commands = ['0101525400123456', '02000700', '04000100']",
            "commands = [\"0101525400123456\", \"02000700\", \"04000100\"]\n",
        ),
        (
            "size = 4\ncommands = ['0500ABCDEFabcdef0123', '000001']",
            "commands = [\"0500abcdefabcdef0123\", \"000001\"]\n",
        ),
        ("commands = ['0101']", "faulty"),
        ("commands = ['01010']", "faulty"),
        ("commands = ['']", "faulty"),
        ("commands = ['0000012']", "faulty"),
        ("commands = ['0500ffffffffffffffff00']", "faulty"),
        ("commands = ['02000700', '0200070g']", "faulty"),
        ("commands = ['02 000700']", "faulty"),
        ("commands = ['02000700', 2]", "faulty"),
    ] {
        let found = control_in(rt.alloc(), text)?;
        assert!(rt; found.as_str() == want, "at {text}");
    }
    Ok(())
}

/// A document of so many commands.
fn with_commands(alloc: Global, count: u32) -> Result<String, AllocError> {
    let mut text = String::from_str(alloc, "commands = [")?;
    for _ in 0..count {
        text.push_str("'000001', ")?;
    }
    text.push_str("]")?;
    Ok(text)
}

#[test]
fn takes_4096_commands_and_no_more(rt: HostRuntime) -> Result<(), Fail> {
    for (count, want) in [(0, true), (1, true), (4_096, true), (4_097, false)] {
        let text = with_commands(rt.alloc(), count)?;
        let file = toml::table_from_str(rt.alloc(), text.as_str())?;
        assert!(rt; has_few_commands(&file) == want, "at {count}");
    }
    Ok(())
}

#[test]
fn commands_are_a_list_of_texts(rt: HostRuntime) -> Result<(), Fail> {
    for (text, want) in [
        ("commands = []", true),
        ("commands = ['0101']", true),
        ("commands = ['no command', '']", true),
        ("commands = '02000700'", false),
        ("commands = 2000700", false),
        ("commands = { first = '02000700' }", false),
        ("commands = [2000700]", false),
        ("commands = ['02000700', 2000700]", false),
        ("commands = [['02000700']]", false),
        ("commands = [true]", false),
    ] {
        let file = toml::table_from_str(rt.alloc(), text)?;
        assert!(rt; typed(&file) == want, "at {text}");
    }
    Ok(())
}

#[test]
fn a_control_queue_has_a_ring_in_each_epoch(rt: HostRuntime) -> Result<(), Fail> {
    let one = [Switch {
        after: 5,
        to: To::Pass,
    }];
    let two = [
        Switch {
            after: 5,
            to: To::Renew,
        },
        Switch {
            after: 7,
            to: To::Shadow,
        },
    ];
    assert!(rt; control_count(false, &[]) == 0 && control_count(false, &two) == 0);
    assert!(rt; control_count(true, &[]) == 3);
    assert!(rt; control_count(true, &one) == 4);
    assert!(rt; control_count(true, &two) == 5);
    let features = Features {
        indirect: true,
        event_idx: true,
        in_order: true,
    };
    assert!(rt; control_words(false, 1_024, features) == 39_172);
    assert!(rt; control_words(true, 1_024, features) == 37_892);
    assert!(rt; all_words(false, 1_024, features, 104, 0) == 3_754_400);
    assert!(rt; all_words(false, 1_024, features, 104, 11) == 4_185_292);
    assert!(rt; are_few_words(4_194_304) && !are_few_words(4_194_305));
    Ok(())
}

#[test]
fn the_key_is_unknown_until_a_play_takes_commands(rt: HostRuntime) -> Result<(), Fail> {
    for change in [
        "commands = []",
        "commands = ['0101525400123456', '02000700']",
        "commands = ['0101']",
        "commands = '02000700'",
        "size = 3\ncommands = ['02000700']",
    ] {
        assert!(rt;
            fault_of(rt.alloc(), change)? == Some(MachineFault::M2),
            "at {change}"
        );
    }
    Ok(())
}
