//! How a command ended.

use vd_machine::MachineFault;

/// How a command ended.
#[derive(Copy, Clone, Debug, PartialEq, Eq)]
pub enum Status {
    /// The report is written.
    Ok,
    /// The words mean no command. Nothing was read or written.
    Usage,
    /// The first rule that the bytes of the file break. Nothing was written.
    Machine(MachineFault),
    /// A take failed. Nothing was written.
    ReadFault,
    /// A put failed. A front of the report is written.
    WriteFault,
    /// The device of this queue refused an attach. Nothing was written, and each journal is a front of what the file orders.
    DeviceFault(u32),
    /// So many bytes were read, one more than a file may have. Nothing was written.
    TooLarge(u32),
    /// The machine has so many queues, and the bench fewer guests or fewer devices. No party was touched, and nothing was
    /// written.
    TooFewParties {
        need: u64,
        guests: u64,
        devices: u64,
    },
    /// There was no memory. No step of a ring was made, and nothing was written.
    Memory,
}
