//! A command's words and its chain, for the head that the next chain of a control ring gets.
ghost use Rattle.std.specs.Prelude.{◌≡◌, ◌≤◌, length};
ghost use Rattle.vd_ring.specs.declared.driver.DriverView.{DriverView};
ghost use Rattle.vd_bus.specs.GuestCommands.{control_chain};
ghost use Rattle.vd_models.specs.Sent.{HasPlaces, IsReady, ack_is, chain_is, command_is, store_is};

use arrayvec::ArrayVec;
use vd_commands::words_of;
use vd_layout::{DriverEnd, Layout};
use vd_model::{Chain, Piece};
use vd_words::Access;

/// The control chain with so many bytes of a command, for command and ack words at these places.
pub(crate) fn control_chain(command: u32, ack: u32, len: usize) -> Chain
    requires { len ≤ 10 }
    ensures { result ≡ control_chain command ack len }
{
    let mut pieces = ArrayVec::new();
    pieces.push(Piece {
        addr: 8 * command as u64,
        len: len as u32,
        write: false,
    });
    pieces.push(Piece {
        addr: 8 * ack as u64,
        len: 1,
        write: true,
    });
    Chain::of(pieces)
}

/// The place of a head's first command word.
fn command_place<L: Layout>(end: &L::Driver, head: u32) -> u32
    requires { (v : DriverView) × HasPlaces L.Driver.driver L.layout end.now head v }
    ensures { (v : DriverView) → HasPlaces L.Driver.driver L.layout end.now head v → command_is L.Driver.driver v head result }
{
    L::command_word(end.size(), end.features(), head)
}

/// The place of a head's ack word.
pub(crate) fn ack_place<L: Layout>(end: &L::Driver, head: u32) -> u32
    requires { (v : DriverView) × HasPlaces L.Driver.driver L.layout end.now head v }
    ensures { (v : DriverView) → HasPlaces L.Driver.driver L.layout end.now head v → ack_is L.Driver.driver v head result }
{
    L::ack_word(end.size(), end.features(), head)
}

/// The control chain of the next command, which has so many bytes.
pub(crate) fn command_chain<L: Layout>(end: &L::Driver, len: usize) -> Chain
    requires few { len ≤ 10 }
    requires ready { (v : DriverView) × IsReady L.Driver.driver L.layout end.now v }
    ensures { (v : DriverView) → IsReady L.Driver.driver L.layout end.now v → chain_is L.Driver.driver v len result }
{
    let head = end.next_head();
    control_chain(
        command_place::<L>(end, head),
        ack_place::<L>(end, head),
        len,
    )
}

/// The store of the next command's first word, or of its second.
pub(crate) fn command_store<L: Layout>(end: &L::Driver, bytes: &[u8], second: bool) -> Access
    requires few { length bytes.now ≤ 10 }
    requires ready { (v : DriverView) × IsReady L.Driver.driver L.layout end.now v }
    ensures { (v : DriverView) → IsReady L.Driver.driver L.layout end.now v → store_is L.Driver.driver v bytes.now second result }
{
    let place = command_place::<L>(end, end.next_head());
    let words = words_of(bytes);
    if second {
        Access::Store(place + 1, words.second)
    } else {
        Access::Store(place, words.first)
    }
}
