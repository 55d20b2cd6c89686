//! What machine a file means.
use crate::tests::files::VALID;
use crate::*;
use std::test::*;
use vd_model::{Mode, Piece};

#[test]
fn tables_let_a_chain_have_more_pieces_than_the_ring_has_places(
    rt: HostRuntime,
) -> Result<(), Fail> {
    let text = concat!(
        "layout = \"split\"\n",
        "size = 2\n",
        "features = [\"indirect\", \"event_idx\"]\n",
        "regions = [{ addr = 4096, size = 8192 }]\n",
        "queues = [[\"r4096+1 w8192+64 w8192+1\"]]",
    );
    let machine = Machine::read(rt.alloc(), text.as_bytes())?;
    assert!(rt;
        machine.features.indirect && machine.features.event_idx && !machine.features.in_order
    );
    Ok(())
}

#[test]
fn reads_what_a_file_orders(rt: HostRuntime) -> Result<(), Fail> {
    let text = concat!(
        "layout = \"split\"\n",
        "size = 1024\n",
        "features = [\"in_order\"]\n",
        "window = 64\n",
        "regions = [{ addr = 9223372036854775807, size = 1 }, { addr = 0, size = 8192 }]\n",
        "queues = [[\"3*r4096+10 w4096+64\", \"w09223372036854775807+01\", \"w09223372036854775807+01\"]]",
    );
    let machine = Machine::read(rt.alloc(), text.as_bytes())?;
    assert!(rt; !machine.packed && machine.size == 1024 && machine.window == 64);
    assert!(rt;
        !machine.features.indirect && !machine.features.event_idx && machine.features.in_order
    );
    assert!(rt;
        machine.start == Mode::Pass && machine.first == 4096 && machine.last == 281474976710655
    );
    assert!(rt; machine.switches.is_empty() && machine.control.is_none());
    let regions = [
        Region {
            addr: 9223372036854775807,
            size: 1,
        },
        Region {
            addr: 0,
            size: 8192,
        },
    ];
    assert!(rt; machine.regions.as_slice() == regions.as_slice());
    assert_eq!(rt; machine.queues.len(), 1);
    let script = machine.queues.get(0).ok_or("no queue")?;
    assert!(rt; script.commands.is_empty());
    let runs = script.runs.as_slice();
    assert_eq!(rt; runs.len(), 3);
    let last = Piece {
        addr: 9223372036854775807,
        len: 1,
        write: true,
    };
    let pieces = [
        Piece {
            addr: 4096,
            len: 10,
            write: false,
        },
        Piece {
            addr: 4096,
            len: 64,
            write: true,
        },
    ];
    assert!(rt; runs[0].count == 3 && runs[0].chain.pieces() == pieces.as_slice());
    assert!(rt; runs[1].count == 1 && runs[1].chain.pieces() == [last].as_slice());
    assert!(rt; runs[2].count == 1 && runs[2].chain.pieces() == [last].as_slice());
    Ok(())
}

#[test]
fn has_its_defaults(rt: HostRuntime) -> Result<(), Fail> {
    let machine = Machine::read(rt.alloc(), VALID.as_bytes())?;
    assert!(rt; machine.window == 1 && !machine.features.in_order);
    Ok(())
}
