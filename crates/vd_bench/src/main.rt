//! Workloads that are timed from outside. Each prints a checksum of what it computed, and no time.
#![tactic(auto)]

mod addresses;
mod draws;
mod words;

use anyhow::{Context, Result};
use std::env;
use words::Workload;

fn main(rt: HostRuntime) -> Result<()> {
    let workload = words::read(env::args(&rt)?).context("usage: vd_bench translate N TURNS")?;
    match workload {
        Workload::Translate { mappings, turns } => {
            println!(rt; "{}", addresses::checksum(rt.alloc(), mappings, turns)?)?;
        }
    }
    Ok(())
}
