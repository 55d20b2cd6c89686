//! The steps of a take.
ghost use Rattle.vd_model.specs.Chains.{IsChain};
ghost use Rattle.std.specs.Prelude.{ℕ, ◌≡◌, ◌*◌, ◌/◌, ◌%◌, ◌<◌, ◌&&◌, Some, length, slice_set};
ghost use Rattle.vd_words.specs.Own.{IsOwn};
ghost use Rattle.vd_ring.specs.declared.device.DeviceView.{DeviceView};
ghost use Rattle.vd_split_ring.specs.SplitDevice.{device_side};
ghost use Rattle.vd_split_ring.specs.SplitWords.{piece_of, goes_on, next_of, names_table};
ghost use Rattle.vd_layout.specs.Device.{IsDeviceStep};
ghost use Rattle.vd_split.specs.DeviceEnd.{DeviceStands, split_device};
ghost use Rattle.vd_layout.specs.Telling.{act_of};

use super::{DeviceStep, SplitDevice};
use crate::descriptors::{next_place, shows_count};
use crate::lanes::lane_at;
use vd_layout::Told;
use vd_model::Piece;
use vd_words::{Access, Op, Port};

/// The piece of a descriptor's two words.
#[inline]
pub(super) fn piece_from(addr: u64, second: u64) -> Piece
    ensures { result ≡ piece_of addr second }
{
    Piece {
        addr,
        len: (second % 0x1_0000_0000) as u32,
        write: second / 0x2_0000_0000 % 2 == 1,
    }
}

/// Whether another descriptor follows.
#[inline]
fn has_next(second: u64) -> bool
    ensures { result ≡ goes_on second }
{
    second / 0x1_0000_0000 % 2 == 1
}

/// The place of the descriptor that follows.
#[inline]
fn following(second: u64) -> u32
    ensures { result ≡ next_of second }
{
    (second / 0x1_0000_0000_0000) as u32
}

/// Whether a descriptor with this second word names a table, on a ring that has tables or not.
#[inline]
fn has_table(indirect: bool, second: u64) -> bool
    ensures { result ≡ (indirect && names_table second) }
{
    indirect && second / 0x4_0000_0000 % 2 == 1
}

/// How many pieces the table has that it names.
#[inline]
fn table_pieces(second: u64) -> u32
    ensures { result ≡ (second % 4294967296) / 16 }
{
    (second % 0x1_0000_0000 / 16) as u32
}

/// Remembers the head of a chain, at the low bits of its number.
#[inline]
pub(super) fn remember(guesses: &mut Vec<u32>, number: u32, head: u32)
    requires { 0 < length guesses.old.items }
    ensures { length guesses.new.items ≡ length guesses.old.items }
{
    let last = guesses.len() - 1;
    let i = number as usize & last;
    guesses[i] = head;
}

impl SplitDevice {
    /// The look at the available index, which the last store of an offer changes.
    #[inline(always)]
    pub(super) fn look<P: Port>(&mut self, port: &mut P) -> Told
        requires now { self.old.doing ≡ DeviceStep.Look }
        requires own { (v : DeviceView) × DeviceStands self.old v × IsOwn P.port device_side port.old v }
        ensures { (v : DeviceView) → DeviceStands self.old v → IsOwn P.port device_side port.old v
            → IsDeviceStep P.port split_device port.old port.new v self.old self.new (act_of result self.new.pieces.items) }
    {
        let word = port.access(Op::Take, Access::Load(2 * self.size));
        if shows_count(word, self.taken) {
            self.shown = false;
            self.doing = DeviceStep::Idle;
            return Told::Nothing;
        }
        self.shown = true;
        self.doing = DeviceStep::Entry(word);
        Told::Moved
    }

    /// The load of the next chain's head.
    #[inline(always)]
    pub(super) fn entry<P: Port>(&mut self, port: &mut P, word: u64) -> Told
        requires now { self.old.doing ≡ DeviceStep.Entry word }
        requires own { (v : DeviceView) × DeviceStands self.old v × IsOwn P.port device_side port.old v }
        ensures { (v : DeviceView) → DeviceStands self.old v → IsOwn P.port device_side port.old v
            → IsDeviceStep P.port split_device port.old port.new v self.old self.new (act_of result self.new.pieces.items) }
    {
        let lane = self.entry + 2;
        let entry = port.access(Op::Take, Access::Load(2 * self.size + lane / 4));
        let head = lane_at(entry, lane % 4) as u32;
        self.pieces.clear();
        self.doing = DeviceStep::Address(word, head, head);
        Told::Moved
    }

    /// The load of a descriptor's address.
    #[inline(always)]
    pub(super) fn address<P: Port>(
        &mut self,
        port: &mut P,
        word: u64,
        head: u32,
        place: u32,
    ) -> Told
        requires now { self.old.doing ≡ DeviceStep.Address word head place }
        requires own { (v : DeviceView) × DeviceStands self.old v × IsOwn P.port device_side port.old v }
        ensures { (v : DeviceView) → DeviceStands self.old v → IsOwn P.port device_side port.old v
            → IsDeviceStep P.port split_device port.old port.new v self.old self.new (act_of result self.new.pieces.items) }
    {
        self.addr = port.access(Op::Take, Access::Load(2 * place));
        self.doing = DeviceStep::Second(word, head, place);
        Told::Moved
    }

    /// The load of its second word, by which a whole chain is taken, or which names the table where the chain stands.
    #[inline(always)]
    pub(super) fn second<P: Port>(&mut self, port: &mut P, word: u64, head: u32, place: u32) -> Told
        requires now { self.old.doing ≡ DeviceStep.Second word head place }
        requires own { (v : DeviceView) × DeviceStands self.old v × IsOwn P.port device_side port.old v }
        ensures did { (v : DeviceView) → DeviceStands self.old v → IsOwn P.port device_side port.old v
            → IsDeviceStep P.port split_device port.old port.new v self.old self.new (act_of result self.new.pieces.items) }
        ensures chain { (k : ℕ) → result ≡ Told.Taken k → IsChain self.new.pieces.items }
    {
        let second = port.access(Op::Take, Access::Load(2 * place + 1));
        if has_table(self.features.indirect, second) {
            self.doing = DeviceStep::TableAddress(word, head, table_pieces(second));
            return Told::Moved;
        }
        self.pieces.push(piece_from(self.addr, second));
        if has_next(second) {
            self.doing = DeviceStep::Address(word, head, following(second));
            return Told::Moved;
        }
        let number = self.taken;
        self.running[head as usize] = Some(number);
        remember(&mut self.guesses, number, head);
        self.taken = number + 1;
        self.entry = next_place(self.entry, self.size);
        self.shown = !shows_count(word, self.taken);
        self.doing = DeviceStep::Idle;
        Told::Taken(number)
    }
}
