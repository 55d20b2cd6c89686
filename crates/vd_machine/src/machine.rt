//! A machine, and why none was read.
ghost use Rattle.std.specs.Prelude.{◌≡◌, true, false, length, is_some};
ghost use Rattle.vd_machine.specs.Commands.{is_lawful_control};
ghost use Rattle.vd_machine.specs.Queues.{most_pieces, are_scripts, all_lie, few};
ghost use Rattle.vd_machine.specs.Iovas.{is_range, are_laid};
ghost use Rattle.vd_machine.specs.Regions.{are_regions};
ghost use Rattle.vd_machine.specs.Rings.{is_lawful_size, is_window};
ghost use Rattle.vd_machine.specs.Switches.{are_switches};
ghost use Rattle.vd_machine.specs.Words.{ring_count, control_count, all_words, are_few_words};

use crate::Region;
use sqlite_items::Items;
use vd_model::{Features, Mode, Script};

/// To what a running machine is switched.
#[derive(Copy, Clone, Debug, PartialEq, Eq)]
pub enum To {
    /// The device works on the guest's own ring.
    Pass,
    /// A relay stands between the guest's ring and a second ring.
    Shadow,
    /// The device is reset and set up anew, in the mode that stands.
    Renew,
}

/// A switch of every queue, made where `after` chains of the queue are begun, or at its end if it has fewer.
#[derive(Copy, Clone, Debug, PartialEq, Eq)]
pub struct Switch {
    pub after: u32,
    pub to: To,
}

/// What a machine file orders.
#[derive(Drop)]
pub struct Machine {
    /// Whether the rings are packed (VIRTIO 1.2, 2.8) or split (2.7).
    pub packed: bool,
    /// How many descriptors a ring has: for a split ring a power of two from 2 to 1,024, for a packed ring any number of
    /// these.
    pub size: u32,
    /// What the driver and the device agreed on.
    pub features: Features,
    /// How many chains a device may hold at once, 1 to 64.
    pub window: u32,
    /// The mode at the start.
    pub start: Mode,
    /// The first iova at which a shadow ring may have a region.
    pub first: u64,
    /// The last iova that a region may have there, below 2^63.
    pub last: u64,
    /// The guest's memory, in file order.
    pub regions: Items<Region>,
    /// What the guest offers on each data queue.
    pub queues: Items<Script>,
    /// The switches, in their order.
    pub switches: Items<Switch>,
    /// What the guest sends on the control queue, where there is one.
    pub control: Option<Script>,
    ghost sized: { is_lawful_size packed size ≡ true },
    ghost windowed: { is_window window ≡ true },
    ghost placed: { are_regions regions ≡ true },
    ghost fitted: { are_scripts (most_pieces features size) queues ≡ true },
    ghost inside: { all_lie regions queues ≡ true },
    ghost counted: { few queues ≡ true },
    ghost ranged: { is_range first last ≡ true },
    ghost laid: { are_laid first last regions ≡ true },
    ghost switched: { are_switches switches ≡ true },
    ghost controlled: { is_lawful_control control ≡ true },
    ghost worded: { are_few_words (all_words packed size features (ring_count start switches (length queues))
        (control_count (is_some control) switches)) ≡ true },
}

/// The rule that a machine file breaks.
#[derive(Copy, Clone, Debug, PartialEq, Eq)]
pub enum MachineFault {
    /// The bytes are not UTF-8, or not a TOML document.
    M1,
    /// A table has a key that it may not have.
    M2,
    /// A required key is missing.
    M3,
    /// A value has another type.
    M4,
    /// The layout, or the mode at the start, is none that there is.
    M5,
    /// The size is not lawful.
    M6,
    /// A feature is none that there is, or stands twice.
    M7,
    /// The window is not 1 to 64.
    M8,
    /// There are more than 64 regions, one is empty, negative or ends past 2^63, or two overlap.
    M9,
    /// A chain text has no meaning, or a readable piece after a writable one.
    M10,
    /// A chain has more than 16 pieces, more than the ring has places, or more than 4,294,967,295 bytes.
    M11,
    /// A piece does not lie in one region.
    M12,
    /// There are no queues, or too many queues, chains or commands.
    M13,
    /// A switch is not lawful, or there are too many.
    M14,
    /// A command text has no meaning.
    M15,
    /// The range of iovas is not lawful, or a region finds no place in it.
    M16,
    /// The rings have too many words.
    M17,
}

/// Why no machine was read.
#[derive(Copy, Clone, Debug, PartialEq, Eq)]
pub enum ReadRefusal {
    /// The first rule that the bytes break.
    Fault(MachineFault),
    /// No memory was left.
    Memory,
}
