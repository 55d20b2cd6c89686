//! What a device has recorded.
ghost use Rattle.std.specs.Prelude.{◌≡◌, ◌+◌, ◌<◌, ◌≤◌, ◌^◌, [], ◌∷◌, ◌++◌, length, OnOk};
ghost use Rattle.vd_bus.specs.Entries.{Reserved};

use crate::event::Event;
use std::alloc::{AllocError, Global};
use std::marker::Model;
use vd_model::Begun;

/// A list of fewer than 2^32 items, with room that was taken before. Contracts see the items, and for how many more there
/// is room.
#[derive(Drop)]
pub struct Entries<T> {
    items: Vec<T>,
}

impl<T> Model for Entries<T> {
    ghost use Rattle.std.specs.Prelude.{◌-◌, ◌<◌, ◌^◌, min, length, vec_len, vec_capacity};
    ghost use Rattle.vd_bus.specs.Entries.{Reserved, reserved_code};

    ghost Value = { Reserved T };

    ghost coded = { reserved_code T.code };

    ghost view = { λ e. record { items = e.items.items; room = min (vec_capacity e.items) (2 ^ 32 - 1) - vec_len e.items } };

    ghost invariant = { λ e. length e.items.items < 2 ^ 32 };
}

impl<T> Entries<T> {
    /// A list without items. It takes no memory.
    pub fn new(alloc: Global) -> Entries<T>
        ensures { result.items ≡ [] }
    {
        Entries {
            items: Vec::new(alloc),
        }
    }

    /// Makes room for at least `more` items more.
    pub fn reserve(&mut self, more: usize) -> Result<(), AllocError>
        ensures items { self.new.items ≡ self.old.items }
        ensures room { self.old.room ≤ self.new.room }
        ensures ok { OnOk result (more ≤ self.new.room) }
    {
        if u32::MAX as usize - self.items.len() < more {
            return Err(AllocError);
        }
        self.items.reserve(more)
    }

    /// Appends an item, into the room that is there.
    pub fn push(&mut self, item: T)
    where
        T: Drop,
        requires { 0 < self.old.room }
        ensures items { self.new.items ≡ self.old.items ++ item ∷ [] }
        ensures room { self.old.room ≤ self.new.room + 1 }
    {
        if self.items.push(item).is_err() {
            unreachable!()
        }
    }

    pub fn len(&self) -> usize
        ensures value { result ≡ length self.now.items }
        ensures few { result < 2 ^ 32 }
    {
        self.items.len()
    }

    pub fn as_slice(&self) -> &[T]
        ensures { result.now ≡ self.now.items }
    {
        self.items.as_slice()
    }
}

/// What a device has recorded: two lists, each in order.
#[derive(Drop)]
pub struct Journal {
    /// Its attaches, suspensions and resets.
    pub events: Entries<Event>,
    /// The chains that it began.
    pub begun: Entries<Begun>,
}

impl Journal {
    /// An empty journal. It takes no memory.
    pub fn new(alloc: Global) -> Journal
        ensures events { result.events.items ≡ [] }
        ensures begun { result.begun.items ≡ [] }
    {
        Journal {
            events: Entries::new(alloc),
            begun: Entries::new(alloc),
        }
    }
}
