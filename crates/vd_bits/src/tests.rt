use super::*;
use std::test::*;

#[test]
fn lanes_are_counted_from_the_lowest(rt: HostRuntime) -> Result<(), Fail> {
    let word = 0x4444_3333_2222_1111;
    assert_eq!(rt; lane16(word, 0), 0x1111);
    assert_eq!(rt; lane16(word, 3), 0x4444);
    assert_eq!(rt; set_lane16(word, 1, 0xabcd), 0x4444_3333_abcd_1111);
    assert_eq!(rt; lane32(word, 1), 0x4444_3333);
    assert_eq!(rt; set_lane32(word, 0, 7), 0x4444_3333_0000_0007);
    Ok(())
}

#[test]
fn a_position_has_a_place_and_a_wrap(rt: HostRuntime) -> Result<(), Fail> {
    assert_eq!(rt; place(4, 3), 1);
    assert!(rt; !wrap(4, 3));
    assert!(rt; wrap(6, 3));
    Ok(())
}

#[test]
fn an_event_lies_in_the_published_range(rt: HostRuntime) -> Result<(), Fail> {
    assert!(rt; need_event(65535, 0, 65535));
    assert!(rt; !need_event(5, 5, 4));
    assert!(rt; !need_event(3, 5, 4));
    assert!(rt; need_event(4, 5, 4));
    Ok(())
}
