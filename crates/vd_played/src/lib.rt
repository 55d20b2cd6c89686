//! Tests of the top call: plays over the model parties, and what they leave.
#![tactic(auto)]

#[cfg(test)]
mod answers_tests;
#[cfg(test)]
mod benches;
#[cfg(test)]
mod bytewise;
#[cfg(test)]
mod commands;
#[cfg(test)]
mod plays_tests;
#[cfg(test)]
mod recording;
#[cfg(test)]
mod recording_tests;
#[cfg(test)]
mod refusals_tests;
#[cfg(test)]
mod renewing_tests;
#[cfg(test)]
mod switching_tests;
#[cfg(test)]
mod told;
