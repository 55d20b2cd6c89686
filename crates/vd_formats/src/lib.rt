//! Tests of both layouts: the ends of a ring over plain words beside its format, written anew for these tests alone.
#![tactic(auto)]

#[cfg(test)]
mod drawn;
#[cfg(test)]
mod expected;
#[cfg(test)]
mod format;
#[cfg(test)]
mod operations;
#[cfg(test)]
mod packed;
#[cfg(test)]
mod queue;
#[cfg(test)]
mod sleepers;
#[cfg(test)]
mod split;
#[cfg(test)]
mod table;
#[cfg(test)]
mod wraps;
