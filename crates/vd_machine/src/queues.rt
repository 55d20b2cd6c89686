//! The queues: their chain texts, and the scripts that these write.
ghost use Rattle.std.specs.Prelude.{◌≡◌, codes, map, option_map, IfOk, IfSome, true};
ghost use Rattle.std.specs.List.{list_all};
ghost use Rattle.toml.specs.View.{view, table_view};
ghost use Rattle.vd_text.specs.Grammar.{all_some, is_lawful};
ghost use Rattle.vd_machine.specs.Lookup.{items_at};
ghost use Rattle.vd_machine.specs.Queues.{writes_chain, queue_writes_chains, all_write_chains, run_of, script, script_of, scripts_of, are_scripts, is_script};

use crate::lookup::{items_at, list_in};
use sqlite_items::Items;
use std::alloc::{AllocError, Global};
use toml::{Table, Value};
use vd_model::{Run, Script};
use vd_text::{is_chain, read_run};

fn writes_chain(value: &Value) -> bool
    ensures { result ≡ writes_chain (view value.now) }
{
    match value.as_str() {
        None => false,
        Some(text) => is_chain(text.as_bytes()),
    }
}

fn each_writes_chain(values: &[Value]) -> bool
    ensures { result ≡ list_all (λ v. writes_chain (view v)) values.now }
{
    values.iter().all(|value| writes_chain(value))
}

fn queue_writes_chains(value: &Value) -> bool
    ensures { result ≡ queue_writes_chains (view value.now) }
{
    match list_in(value) {
        None => false,
        Some(texts) => each_writes_chain(texts),
    }
}

fn each_queue_writes_chains(values: &[Value]) -> bool
    ensures { result ≡ list_all (λ v. queue_writes_chains (view v)) values.now }
{
    values.iter().all(|value| queue_writes_chains(value))
}

/// Whether each chain text has a meaning.
#[tactic(auto, unfolding(crate::specs::Queues::all_write_chains))]
pub fn all_write_chains(file: &Table) -> bool
    ensures { result ≡ all_write_chains (table_view file.now) }
{
    each_queue_writes_chains(items_at(file, "queues"))
}

fn run_of(most: u32, value: &Value) -> Option<Run>
    ensures value { result ≡ run_of most (view value.now) }
    ensures lawful { IfSome result (λ r. is_lawful most r ≡ true) }
{
    match value.as_str() {
        None => None,
        Some(text) => read_run(text.as_bytes(), most),
    }
}

fn all_runs(alloc: Global, most: u32, values: &[Value]) -> Result<Option<Vec<Run>>, AllocError>
    ensures value { IfOk result (λ o. option_map (λ v. v.items) o ≡ all_some (map (run_of most) (map view values.now))) }
    ensures lawful { IfOk result (λ o. IfSome o (λ v. list_all (is_lawful most) v.items ≡ true)) }
{
    let mut found = Vec::with_capacity(alloc, values.len())?;
    for value in values {
        match run_of(most, value) {
            None => return Ok(None),
            Some(run) => found.push(run)?,
        }
    }
    Ok(Some(found))
}

fn script_in(alloc: Global, runs: Vec<Run>) -> Script
    ensures { result ≡ script runs.items }
{
    Script {
        runs: Items::from_vec(runs),
        commands: Items::new(alloc),
    }
}

fn script_of(alloc: Global, most: u32, value: &Value) -> Result<Option<Script>, AllocError>
    ensures value { IfOk result (λ o. o ≡ script_of most (view value.now)) }
    ensures lawful { IfOk result (λ o. IfSome o (λ q. is_script most q ≡ true)) }
{
    match list_in(value) {
        None => Ok(None),
        Some(texts) => match all_runs(alloc, most, texts)? {
            None => Ok(None),
            Some(runs) => Ok(Some(script_in(alloc, runs))),
        },
    }
}

fn all_scripts(
    alloc: Global,
    most: u32,
    values: &[Value],
) -> Result<Option<Vec<Script>>, AllocError>
    ensures value { IfOk result (λ o. option_map (λ v. v.items) o ≡ all_some (map (script_of most) (map view values.now))) }
    ensures lawful { IfOk result (λ o. IfSome o (λ v. are_scripts most v.items ≡ true)) }
{
    let mut found = Vec::new(alloc);
    for value in values {
        match script_of(alloc, most, value)? {
            None => return Ok(None),
            Some(script) => found.push(script)?,
        }
    }
    Ok(Some(found))
}

/// The scripts, where each text writes a chain of at most 16 and at most `most` pieces, and of no more bytes than a chain
/// may have.
#[tactic(auto, unfolding(crate::specs::Queues::scripts_of))]
pub fn scripts_of(
    alloc: Global,
    most: u32,
    file: &Table,
) -> Result<Option<Items<Script>>, AllocError>
    ensures value { IfOk result (λ o. o ≡ scripts_of most (table_view file.now)) }
    ensures lawful { IfOk result (λ o. IfSome o (λ qs. are_scripts most qs ≡ true)) }
{
    match all_scripts(alloc, most, items_at(file, "queues"))? {
        None => Ok(None),
        Some(scripts) => Ok(Some(Items::from_vec(scripts))),
    }
}
