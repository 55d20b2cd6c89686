//! A table by heads.
ghost use Rattle.std.specs.Prelude.{◌≡◌, ◌<◌, Some, None, IfOk, IsSome, length, replicate, slice_set};
ghost use Rattle.vd_table.specs.Rows.{row, stored};

use std::alloc::{AllocError, Global};
use std::marker::Model;

/// A map from heads below a size to what is stored there. Contracts see the list of what is stored at each head.
#[derive(Drop)]
pub struct Rows<T> {
    rows: Vec<Option<T>>,
    count: u32,
}

impl<T> Model for Rows<T> {
    ghost use Rattle.std.specs.Prelude.{◌≡◌, ◌<◌, ◌^◌, List, Option, length};
    ghost use Rattle.vd_table.specs.Rows.{stored};

    ghost Value = { List (Option T) };

    ghost view = { λ t. t.rows.items };

    ghost invariant = { λ t. (t.count ≡ stored t.rows.items) × (length t.rows.items < 2 ^ 32) };
}

impl<T: Copy> Rows<T> {
    /// An empty table for heads below a size, with all the memory that it will need.
    pub fn new(alloc: Global, size: u32) -> Result<Rows<T>, AllocError>
        ensures { IfOk result (λ t. t ≡ replicate size None) }
    {
        let rows = Vec::from_elem(alloc, None, size as usize)?;
        Ok(Rows { rows, count: 0 })
    }

    /// Stores something at a head, where nothing is stored. It takes no memory.
    pub fn put(&mut self, head: u32, item: T)
        requires inside { head < length self.old }
        requires free { row self.old head ≡ None }
        ensures { self.new ≡ slice_set self.old head (Some item) }
    {
        self.rows[head as usize] = Some(item);
        self.count += 1;
    }

    /// Takes out what is stored at a head, where something is.
    pub fn take(&mut self, head: u32) -> T
        requires inside { head < length self.old }
        requires there { IsSome (row self.old head) }
        ensures rows { self.new ≡ slice_set self.old head None }
        ensures item { row self.old head ≡ Some result }
    {
        self.count -= 1;
        match self.rows[head as usize].take() {
            Some(item) => item,
            None => unreachable!(),
        }
    }

    /// What is stored at a head, if something is.
    pub fn get(&self, head: u32) -> Option<T>
        requires inside { head < length self.now }
        ensures { result ≡ row self.now head }
    {
        self.rows[head as usize]
    }

    /// Stores something else at a head, where something is stored.
    pub fn replace(&mut self, head: u32, item: T)
        requires inside { head < length self.old }
        requires there { IsSome (row self.old head) }
        ensures { self.new ≡ slice_set self.old head (Some item) }
    {
        self.rows[head as usize] = Some(item);
    }

    /// The size below which its heads are.
    pub fn size(&self) -> u32
        ensures { result ≡ length self.now }
    {
        self.rows.len() as u32
    }

    /// At how many heads something is stored.
    pub fn len(&self) -> u32
        ensures { result ≡ stored self.now }
    {
        self.count
    }
}
