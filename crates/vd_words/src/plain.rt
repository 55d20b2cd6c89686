//! A ring's words in plain memory, for one thread.
ghost use Rattle.std.specs.Prelude.{◌≡◌, ◌<◌, ◌^◌, length, slice_index, IfOk, replicate};
ghost use Rattle.vd_words.specs.Step.{place_of, written, answered};

use crate::access::{Access, Op};
use crate::port::Port;
use std::alloc::{AllocError, Global};
use std::marker::Model;

/// A ring's words in plain memory. Contracts see the ring's number and the list of words.
#[derive(Drop)]
pub struct PlainWords {
    ring: u32,
    words: Vec<u64>,
}

impl Model for PlainWords {
    ghost use Rattle.std.specs.Prelude.{length, ◌<◌, ◌^◌};
    ghost use Rattle.vd_words.specs.Plain.{RingWords};

    ghost Value = { RingWords };

    ghost view = { λ w. record { ring = w.ring; words = w.words.items } };

    ghost invariant = { λ w. length w.words.items < 2 ^ 32 };
}

impl PlainWords {
    /// The words of ring number `ring`: `n` words of 0.
    pub fn new(alloc: Global, ring: u32, n: u32) -> Result<PlainWords, AllocError>
        ensures { IfOk result (λ w. (w.ring ≡ ring) × (w.words ≡ replicate n 0)) }
    {
        let words = Vec::from_elem(alloc, 0u64, n as usize)?;
        Ok(PlainWords { ring, words })
    }

    /// A port onto the words.
    pub fn port(&mut self) -> PlainPort<'_>
        ensures same { result.at.ghost_name ≡ self.entry.ghost_name }
        ensures words { result.at.now ≡ self.old }
    {
        PlainPort { at: self }
    }

    /// The word at place `i`.
    pub fn get(&self, i: u32) -> u64
        requires { i < length self.now.words }
        ensures { result ≡ slice_index self.now.words i }
    {
        self.words[i as usize]
    }

    fn ring(&self) -> u32
        ensures { result ≡ self.now.ring }
    {
        self.ring
    }

    fn count(&self) -> u32
        ensures { result ≡ length self.now.words }
    {
        self.words.len() as u32
    }

    #[inline(always)]
    fn access(&mut self, a: Access) -> u64
        requires { place_of a < length self.old.words }
        ensures words { self.new ≡ record { ring = self.old.ring; words = written self.old.words a } }
        ensures answer { result ≡ answered self.old.words a }
    {
        match a {
            Access::Load(place) => self.words[place as usize],
            Access::Store(place, word) => {
                self.words[place as usize] = word;
                0
            }
        }
    }
}

/// A port onto plain words. Either side may make each access of a word that is there.
#[derive(Drop)]
pub struct PlainPort<'a> {
    pub at: &'a mut PlainWords,
}

impl Port for PlainPort<'_> {
    ghost use Rattle.std.specs.Prelude.{◌≡◌, ◌<◌, length, refl};
    ghost use Rattle.std.proofs.Common.{◌∙◌};
    ghost use Rattle.vd_words.specs.Step.{place_of, written, answered, PlainMoves, AreAlike};
    ghost use Rattle.vd_words.specs.laws.Step.{fits_at, words_at, answer_at, stays_plain, count_at, alike_trans, alike_after};

    ghost port = { record {
      ring = λ s. s.at.now.ring;
      count = λ s. length s.at.now.words;
      allows = λ s op a. place_of a < length s.at.now.words;
      moves = λ s op a r t. (t.at.ghost_name ≡ s.at.ghost_name) × PlainMoves s.at.now a r t.at.now;
      plain = λ s ws. s.at.now.words ≡ ws;
      same = λ s t. (t.at.ghost_name ≡ s.at.ghost_name) × AreAlike s.at.now t.at.now;
    } };

    ghost lawful = { record {
      stays = λ s op a r t m. stays_plain s.at.now t.at.now a r m.1;
      counted = λ s ws is. count_at s.at.now.words ws is;
      may = λ s ws op a is fits. fits_at ws s.at.now.words a is fits;
      does = λ s ws op a r t is m. (
        words_at ws s.at.now t.at.now r a is m.1,
        answer_at ws s.at.now t.at.now r a is m.1,
        (m.0, alike_after s.at.now t.at.now a r m.1),
      );
      alike = λ s t p. p.1;
      same_refl = λ s. (refl, (refl, refl));
      same_trans = λ s t u p q. (q.0 ∙ p.0, alike_trans s.at.now t.at.now u.at.now p.1 q.1);
    } };

    fn ring(&self) -> u32 {
        self.at.ring()
    }

    fn words(&self) -> u32 {
        self.at.count()
    }

    #[inline(always)]
    fn access(&mut self, op: Op, a: Access) -> u64 {
        let _ = op;
        self.at.access(a)
    }
}
