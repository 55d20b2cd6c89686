use super::*;
use std::test::*;

fn put<P: Port>(port: &mut P, place: u32, word: u64) -> u64
    requires { P.port.allows port.old Op.Offer (Access.Store place word) }
    ensures { P.port.moves port.old Op.Offer (Access.Store place word) result port.new }
{
    port.access(Op::Offer, Access::Store(place, word))
}

#[test]
fn a_store_changes_one_word(rt: HostRuntime) -> Result<(), Fail> {
    let mut words = PlainWords::new(rt.alloc(), 3, 4)?;
    let mut port = words.port();
    assert_eq!(rt; port.ring(), 3);
    assert_eq!(rt; port.words(), 4);
    assert_eq!(rt; put(&mut port, 2, 7), 0);
    assert_eq!(rt; port.access(Op::Collect, Access::Load(2)), 7);
    for (place, word) in [(0, 0), (1, 0), (2, 7), (3, 0)] {
        assert_eq!(rt; words.get(place), word);
    }
    Ok(())
}
