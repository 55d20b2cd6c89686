use super::*;
use std::test::*;

#[test]
fn an_armed_word_names_its_position(rt: HostRuntime) {
    let packed = EventRule::Packed { size: 3 };
    let cases = [
        (packed, 0, 0x2_8000),
        (packed, 1, 0x2_8001),
        (packed, 2, 0x2_8002),
        (packed, 3, 0x2_0000),
        (packed, 4, 0x2_0001),
        (packed, 6, 0x2_8000),
        (EventRule::SplitIndex, 65535, 65535),
        (EventRule::SplitIndex, 65543, 7),
        (EventRule::SplitFlags, 65543, 0),
    ];
    for (rule, position, want) in cases {
        if let EventRule::Packed { size } = rule {
            assert!(rt; 1 <= size && size <= 32768);
        }
        assert_eq!(rt; arm_word(rule, position), want, "{rule:?} {position}");
    }
    assert_eq!(rt; off_word(packed), Some(0x1_0000));
    assert_eq!(rt; off_word(EventRule::SplitFlags), Some(1));
    assert_eq!(rt; off_word(EventRule::SplitIndex), None);
}

#[test]
fn a_split_range_is_checked(rt: HostRuntime) {
    let cases = [
        (EventRule::SplitIndex, 65535, 65536, 65535, Answer::Ring),
        (EventRule::SplitIndex, 65535, 65536, 0, Answer::Quiet),
        (EventRule::SplitIndex, 4, 5, 5, Answer::Quiet),
        (EventRule::SplitIndex, 4, 5, 3, Answer::Quiet),
        (EventRule::SplitIndex, 4, 5, 4, Answer::Ring),
        (EventRule::SplitIndex, 65540, 65541, 4, Answer::Ring),
        (EventRule::SplitIndex, 65534, 65537, 0, Answer::Ring),
        (EventRule::SplitIndex, 65534, 65537, 1, Answer::Quiet),
        (EventRule::SplitFlags, 4, 5, 0, Answer::Ring),
        (EventRule::SplitFlags, 4, 5, 1, Answer::Quiet),
        (EventRule::SplitFlags, 4, 5, 2, Answer::Ring),
        (EventRule::SplitFlags, 4, 5, 3, Answer::Quiet),
    ];
    for (rule, old, new, word, want) in cases {
        assert!(rt; !matches!(rule, EventRule::Packed { .. }));
        assert!(rt; old < new && new - old <= 32768);
        assert_eq!(rt;
            Due::new(rule, old, new).check(word),
            want,
            "{rule:?} {old} {new} {word}"
        );
    }
}

#[test]
fn a_packed_range_of_three_places_is_checked(rt: HostRuntime) {
    let cases = [
        (3, 5, 0x2_0001, Answer::Ring),
        (3, 5, 0x2_8001, Answer::Quiet),
        (3, 5, 0x2_0000, Answer::Ring),
        (3, 5, 0x2_0002, Answer::Quiet),
        (3, 5, 0x2_8002, Answer::Quiet),
        (3, 5, 0x2_0003, Answer::Quiet),
        (3, 5, 0x0_0000, Answer::Ring),
        (3, 5, 0x0_8002, Answer::Ring),
        (3, 5, 0x1_0001, Answer::Quiet),
        (3, 5, 0x3_0001, Answer::Quiet),
        (2, 5, 0x2_8002, Answer::Ring),
        (2, 5, 0x2_0000, Answer::Ring),
        (2, 5, 0x2_0001, Answer::Ring),
        (2, 5, 0x2_0002, Answer::Quiet),
        (2, 5, 0x2_8000, Answer::Quiet),
        (2, 5, 0x2_8001, Answer::Quiet),
        (5, 7, 0x2_0002, Answer::Ring),
        (5, 7, 0x2_8000, Answer::Ring),
        (5, 7, 0x2_8001, Answer::Quiet),
    ];
    for (old, new, word, want) in cases {
        assert!(rt; old < new && new - old <= 3);
        let due = Due::new(EventRule::Packed { size: 3 }, old, new);
        assert_eq!(rt; due.check(word), want, "{old} {new} {word:x}");
    }
}
