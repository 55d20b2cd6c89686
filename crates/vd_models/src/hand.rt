//! The chain of a control ring that a model device has taken, until its command is executed and its ack stored.
ghost use Rattle.std.specs.Prelude.{◌≡◌, ◌↔◌, ◌<◌, ◌≤◌, ◌+◌, ◌++◌, ◌∷◌, [], length, IsTrue};
ghost use Rattle.vd_commands.specs.Words.{set_by, ack_byte};
ghost use Rattle.vd_models.specs.declared.hand.Hand.TheVariants.{Free, Executed};
ghost use Rattle.vd_models.specs.Hands.{IsCommandChain, command_place, ack_place, command_len, executed_of};

use vd_bus::Entries;
use vd_commands::{Words, ack_for, bytes_of};
use vd_control::{Command, Settings};
use vd_model::{Begun, Chain};

/// What a device of the control queue does next with the chain that it took.
#[derive(Drop)]
pub enum Hand {
    /// Nothing: it took none, or has stored the ack of the one that it took.
    Free,
    /// It loads the first command word.
    Taken(Chain),
    /// It has loaded the first command word, and loads the second.
    Loaded(Chain, u64),
    /// It has executed the command, and stores this ack in the word of this place.
    Executed(u32, u8),
}

impl Hand {
    /// Whether no command is in hand.
    pub(crate) fn is_free(&self) -> bool
        ensures { IsTrue result ↔ (self.now ≡ Free) }
    {
        matches!(self, Hand::Free)
    }
}

/// The place of the chain's first command word.
pub(crate) fn command_place(chain: &Chain) -> u32
    requires { IsCommandChain chain.now }
    ensures place { result ≡ command_place chain.now }
    ensures next { result + 1 < 4294967296 }
{
    (chain.pieces()[0].addr / 8) as u32
}

/// The place of the chain's ack word.
fn ack_place(chain: &Chain) -> u32
    requires { IsCommandChain chain.now }
    ensures { result ≡ ack_place chain.now }
{
    (chain.pieces()[1].addr / 8) as u32
}

/// The command's length in bytes.
fn command_len(chain: &Chain) -> u32
    requires { IsCommandChain chain.now }
    ensures len { result ≡ command_len chain.now }
    ensures most { result ≤ 10 }
{
    chain.pieces()[0].len
}

/// Executes the chain's command by its two words, and records it. Bytes that are no command set nothing, and get the ack ERR.
pub(crate) fn execute(
    chain: Chain,
    words: Words,
    begun: &mut Entries<Begun>,
    settings: &mut Settings,
) -> Hand
    requires chain { IsCommandChain chain }
    requires room { 0 < begun.old.room }
    ensures hand { result ≡ Executed (ack_place chain) (ack_byte (executed_of chain words.first words.second).bytes.items) }
    ensures begun { begun.new.items ≡ begun.old.items ++ executed_of chain words.first words.second ∷ [] }
    ensures room { begun.old.room ≤ begun.new.room + 1 }
    ensures settings { settings.new ≡ set_by settings.old ((executed_of chain words.first words.second).bytes.items ∷ []) }
{
    let place = ack_place(&chain);
    let bytes = bytes_of(command_len(&chain), words);
    let command = Command::read(bytes.as_slice());
    let ack = ack_for(&command);
    if let Some(command) = command {
        settings.apply(&command);
    }
    begun.push(Begun {
        chain,
        len: 1,
        bytes,
    });
    Hand::Executed(place, ack)
}
