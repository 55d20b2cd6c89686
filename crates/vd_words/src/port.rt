//! A way to one ring's words.
ghost use Rattle.std.specs.Prelude.{◌≡◌};
ghost use Rattle.vd_words.specs.Model.{PortModel, IsLawfulPort};

use crate::access::{Access, Op};

/// A way to one ring's words, for one of its two sides.
pub trait Port {
    /// Which accesses are allowed now, and what they do and answer.
    ghost port: { PortModel Self };

    /// The ring's number.
    fn ring(&self) -> u32
        ensures { result ≡ port.ring self.now };

    /// How many words the ring has.
    fn words(&self) -> u32
        ensures { result ≡ port.count self.now };

    /// Makes one access: a load answers the word, a store sets that word alone and answers 0.
    fn access(&mut self, op: Op, a: Access) -> u64
        requires { port.allows self.old op a }
        ensures { port.moves self.old op a result self.new };

    ghost lawful: { IsLawfulPort port };
}
