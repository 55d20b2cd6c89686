//! What a take does with a word that it has loaded.
ghost use Rattle.std.specs.Prelude.{◌≡◌, ◌<◌, ◌≤◌, ◌+◌, ◌/◌, ◌++◌, ◌∷◌, [], ℕ, true, false, length};
ghost use Rattle.vd_packed_ring.specs.PackedWords.{goes_on, id_of, len_of};
ghost use Rattle.vd_packed_ring.specs.PackedChains.{piece_of};
ghost use Rattle.vd_packed.specs.Loaded.{HasSeen, HasMore, HasPiece, HasCounted, HasTaken, MayTake, names_its_table};
ghost use Rattle.vd_packed.specs.RingPositions.{forward};
ghost use Rattle.vd_packed.specs.Seconds.{shows_available};
ghost use Rattle.vd_packed.specs.Telling.{TakesNone};

use super::running::remember;
use super::{DeviceStep, PackedDevice};
use crate::ring_position::forward;
use crate::tables::{is_indirect, places_of};
use crate::words::{has_next, piece_from, shows_available};
use arrayvec::ArrayVec;
use vd_bits::lane16;
use vd_layout::Told;
use vd_model::Piece;

/// Leaves no pieces. A single one is taken out, which costs less than a clear.
#[inline(always)]
fn empty(pieces: &mut ArrayVec<Piece, 16>)
    ensures { pieces.new.items ≡ [] }
{
    if pieces.len() == 1 {
        let _ = pieces.pop();
        return;
    }
    pieces.clear();
}

impl PackedDevice {
    /// The second word at the available position was loaded.
    #[inline(always)]
    pub(crate) fn saw(&mut self, word: u64) -> Told
        ensures nothing { shows_available self.old.next.wrap word ≡ false
            → (result ≡ Told.Nothing) × (self.new ≡ record self.old { doing = DeviceStep.Idle }) }
        ensures chain { shows_available self.old.next.wrap word ≡ true → (result ≡ Told.Moved) × HasSeen word self.old self.new }
        ensures none { TakesNone result }
    {
        if !shows_available(word, self.next.wrap) {
            self.doing = DeviceStep::Idle;
            return Told::Nothing;
        }
        self.second = word;
        self.at.place = self.next.place;
        self.at.wrap = self.next.wrap;
        self.doing = DeviceStep::Address;
        empty(&mut self.pieces);
        Told::Moved
    }

    /// A further descriptor's second word was loaded.
    #[inline(always)]
    pub(crate) fn loaded_second(&mut self, word: u64) -> Told
        ensures moved { result ≡ Told.Moved }
        ensures second { self.new ≡ record self.old { second = word; doing = DeviceStep.Address } }
    {
        let second = word;
        self.second = second;
        self.doing = DeviceStep::Address;
        Told::Moved
    }

    /// Whether the second word loaded last is that of a descriptor that names the chain's table: only the first may.
    #[inline(always)]
    pub(crate) fn names_its_table(&self) -> bool
        ensures { result ≡ names_its_table self.now }
    {
        self.features.indirect && self.pieces.is_empty() && is_indirect(self.second)
    }

    /// The address of a table was loaded. The table stands at the place of its head.
    #[inline(always)]
    pub(crate) fn loaded_pointer(&mut self) -> Told
        requires { (1 ≤ self.old.size) × (self.old.at.place < self.old.size) × (self.old.size ≤ 32768) }
        ensures moved { result ≡ Told.Moved }
        ensures table { self.new ≡ record self.old { at = forward self.old.at 1 self.old.size; doing = DeviceStep.TableAddress } }
    {
        let ring_position = forward(self.at, 1, self.size);
        self.at.place = ring_position.place;
        self.at.wrap = ring_position.wrap;
        self.doing = DeviceStep::TableAddress;
        Told::Moved
    }

    /// A descriptor's address was loaded. Where its second word doesn't go on the chain is whole, and this second word has its id: it
    /// stands in the last descriptor, and a driver need not write it in the others (VIRTIO 1.2, 2.8).
    #[inline(always)]
    pub(crate) fn loaded_address(&mut self, addr: u64) -> Told
        requires some { (length self.old.pieces.items < 16) × (self.old.at.place < self.old.size) × (self.old.size ≤ 32768) }
        requires may { goes_on self.old.second ≡ false → MayTake self.old (id_of self.old.second) }
        ensures more { goes_on self.old.second ≡ true → (result ≡ Told.Moved) × HasMore addr self.old self.new }
        ensures whole { goes_on self.old.second ≡ false → (result ≡ Told.Taken self.old.taken)
            × HasTaken (piece_of addr self.old.second) (forward self.old.at 1 self.old.size) (length self.old.pieces.items + 1) self.old
            self.new }
    {
        self.pieces.push(piece_from(addr, self.second));
        let ring_position = forward(self.at, 1, self.size);
        self.at.place = ring_position.place;
        self.at.wrap = ring_position.wrap;
        if has_next(self.second) {
            self.doing = DeviceStep::Second;
            return Told::Moved;
        }
        let count = self.pieces.len() as u32;
        self.take_in(count)
    }

    /// A piece's address was loaded from a table.
    #[inline(always)]
    pub(crate) fn loaded_table_address(&mut self, addr: u64) -> Told
        ensures moved { result ≡ Told.Moved }
        ensures address { self.new ≡ record self.old { doing = DeviceStep.TableSecond addr } }
    {
        self.doing = DeviceStep::TableSecond(addr);
        Told::Moved
    }

    /// Its second word was loaded. With the last place of the table the chain is whole; its id is that of the descriptor on the ring.
    #[inline(always)]
    pub(crate) fn loaded_table_second(&mut self, addr: u64, word: u64) -> Told
        requires some { length self.old.pieces.items < 16 }
        requires may { len_of self.old.second / 16 ≤ length self.old.pieces.items + 1 → MayTake self.old (id_of self.old.second) }
        ensures more { length self.old.pieces.items + 1 < len_of self.old.second / 16
            → (result ≡ Told.Moved) × HasPiece (piece_of addr word) self.old self.new }
        ensures whole { len_of self.old.second / 16 ≤ length self.old.pieces.items + 1 → (result ≡ Told.Taken self.old.taken)
            × HasTaken (piece_of addr word) self.old.at 1 self.old self.new }
    {
        self.pieces.push(piece_from(addr, word));
        if self.pieces.len() < places_of(self.second) {
            self.doing = DeviceStep::TableAddress;
            return Told::Moved;
        }
        self.take_in(1)
    }

    /// The chain of the pieces loaded, of so many descriptors on the ring, is taken.
    #[inline(always)]
    fn take_in(&mut self, count: u32) -> Told
        requires may { MayTake self.old (id_of self.old.second) }
        requires few { count ≤ 16 }
        ensures told { result ≡ Told.Taken self.old.taken }
        ensures counted { HasCounted count self.old self.new }
    {
        let number = self.taken;
        let head = lane16(self.second, 2);
        self.running[head as usize] = Some(number);
        self.counts[head as usize] = count;
        remember(&mut self.guesses, number, head as u32);
        self.taken = number + 1;
        self.next.place = self.at.place;
        self.next.wrap = self.at.wrap;
        self.next_position += count as u64;
        self.doing = DeviceStep::Idle;
        Told::Taken(number)
    }
}
