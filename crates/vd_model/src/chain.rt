//! A buffer chain: 1 to 16 pieces, the readable ones first.
ghost use Rattle.std.specs.Prelude.{◌≡◌, ◌<◌, List, [], ◌∷◌, ◌++◌, length, slice_set, IsOk, OnOk, IfErr, OnErr, ◌↔◌, false, true};
ghost use Rattle.vd_model.specs.declared.chain.Piece.{Piece};
ghost use Rattle.vd_model.specs.declared.chain.ChainFault.TheVariants.{Full, Order};
ghost use Rattle.vd_model.specs.Chains.{IsChain, readable, writable, ends_writable};
ghost use Rattle.vd_model.specs.Moved.{at_address};

use arrayvec::ArrayVec;
use std::marker::Model;
use thiserror::Error;

/// One buffer of a chain: `len` bytes from `addr`, which the device writes or reads (VIRTIO 1.2, 2.7.5).
#[derive(Copy, Clone, Debug, Default, PartialEq, Eq)]
pub struct Piece {
    pub addr: u64,
    pub len: u32,
    pub write: bool,
}

/// Why a piece can't be appended.
#[derive(Copy, Clone, Debug, PartialEq, Eq, Drop, Error)]
pub enum ChainFault {
    /// The chain has 16 pieces.
    #[error("the chain has 16 pieces")]
    Full,
    /// A readable piece would follow a writable one.
    #[error("a readable piece would follow a writable one")]
    Order,
}

/// 1 to 16 pieces, no readable piece after a writable one (VIRTIO 1.2, 2.7.4.2).
#[derive(Drop)]
pub struct Chain {
    pieces: ArrayVec<Piece, 16>,
}

impl Model for Chain {
    ghost Value = { List Piece };

    ghost view = { λ c. c.pieces.items };

    ghost invariant = { λ c. IsChain c.pieces.items };
}

impl Chain {
    /// The chain of one piece.
    pub fn new(first: Piece) -> Chain
        ensures { result ≡ first ∷ [] }
    {
        let mut pieces = ArrayVec::new();
        pieces.push(first);
        Chain { pieces }
    }

    /// The chain of these pieces.
    pub fn of(pieces: ArrayVec<Piece, 16>) -> Chain
        requires { IsChain pieces.items }
        ensures { result ≡ pieces.items }
    {
        Chain { pieces }
    }

    /// The same chain again. It takes no memory.
    pub fn copy(&self) -> Chain
        ensures { result ≡ self.now }
    {
        let mut pieces = ArrayVec::new();
        for p in self.pieces.as_slice() {
            pieces.push(*p);
        }
        Chain { pieces }
    }

    /// Appends a piece, or refuses and leaves the chain as it was.
    pub fn push(&mut self, p: Piece) -> Result<(), ChainFault>
        ensures ok { OnOk result (self.new ≡ self.old ++ p ∷ []) }
        ensures same { OnErr result (self.new ≡ self.old) }
        ensures full { (result ≡ Err Full) ↔ (length self.old ≡ 16) }
        ensures order { (result ≡ Err Order) ↔ ((length self.old < 16) × (p.write ≡ false) × (ends_writable self.old ≡ true)) }
    {
        if self.pieces.is_full() {
            return Err(ChainFault::Full);
        }
        let misplaced = !p.write & self.ends_writable();
        if misplaced {
            return Err(ChainFault::Order);
        }
        self.pieces.push(p);
        Ok(())
    }

    /// Sets the address of piece `i`, and nothing else.
    pub fn set_addr(&mut self, i: usize, addr: u64)
        requires { i < length self.old }
        ensures { self.new ≡ slice_set self.old i (at_address self.old i addr) }
    {
        self.pieces[i].addr = addr;
    }

    /// Whether the last piece is writable.
    fn ends_writable(&self) -> bool
        ensures { result ≡ ends_writable self.now }
    {
        self.pieces[self.pieces.len() - 1].write
    }

    pub fn pieces(&self) -> &[Piece]
        ensures value { result.now ≡ self.now }
        ensures lawful { IsChain self.now }
    {
        self.pieces.as_slice()
    }

    /// How many bytes the device may read.
    pub fn readable(&self) -> u64
        ensures { result ≡ readable self.now }
    {
        let mut sum = 0u64;
        for p in self.pieces.as_slice() {
            if !p.write {
                sum += p.len as u64;
            }
        }
        sum
    }

    /// How many bytes the device may write.
    pub fn writable(&self) -> u64
        ensures { result ≡ writable self.now }
    {
        let mut sum = 0u64;
        for p in self.pieces.as_slice() {
            if p.write {
                sum += p.len as u64;
            }
        }
        sum
    }
}
