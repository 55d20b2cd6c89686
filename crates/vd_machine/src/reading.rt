//! Reading a machine file: its rules in their order.
ghost use Rattle.std.specs.Prelude.{◌≡◌, IfOk, IfErr, OnOk, Some, None, Err, true, false};
ghost use Rattle.toml.specs.View.{table_view};
ghost use Rattle.vd_machine.specs.File.{document, first, means, plan, view, first_in, Refuses, ReadsTable};
ghost use Rattle.vd_machine.specs.declared.machine.ReadRefusal.TheVariants.{Fault, Memory};

use crate::commands::{control_of, has_few_commands};
use crate::iovas::{are_laid, range_of};
use crate::keys::{complete, known_keys};
use crate::limits::{all_lie, few, most_pieces};
use crate::queues::{all_write_chains, scripts_of};
use crate::regions::regions_of;
use crate::rings::{features_of, layout_of, size_of, window_of};
use crate::switches::{start_of, switches_of};
use crate::types::typed;
use crate::words::{all_words, are_few_words, control_count, ring_count};
use crate::{Machine, MachineFault, ReadRefusal};
use std::alloc::{AllocError, Global};
use toml::Table;

impl From<AllocError> for ReadRefusal {
    ghost from_gives = { λ _ e. e ≡ Memory };

    fn from(_e: AllocError) -> ReadRefusal {
        ReadRefusal::Memory
    }
}

/// The document that the bytes write.
#[tactic(auto, unfolding(crate::specs::File::document))]
fn table_of(alloc: Global, bytes: &[u8]) -> Result<Table, ReadRefusal>
    ensures ok { IfOk result (λ t. document bytes.now ≡ Some (table_view t)) }
    ensures err { IfErr result (ReadsTable (document bytes.now)) }
{
    match std::str::from_utf8(bytes) {
        Err(_) => Err(ReadRefusal::Fault(MachineFault::M1)),
        Ok(text) => match toml::table_from_str(alloc, text) {
            Ok(table) => Ok(table),
            Err(e) => {
                if e.is_memory() {
                    Err(ReadRefusal::Memory)
                } else {
                    Err(ReadRefusal::Fault(MachineFault::M1))
                }
            }
        },
    }
}

/// Ok where the rule is kept.
fn keep(kept: bool, rule: MachineFault) -> Result<(), ReadRefusal>
    ensures ok { OnOk result (kept ≡ true) }
    ensures err { IfErr result (λ e. (kept ≡ false) × (e ≡ Fault rule)) }
{
    if kept {
        Ok(())
    } else {
        Err(ReadRefusal::Fault(rule))
    }
}

/// The value of a rule that is kept.
fn given<T: Drop>(value: Option<T>, rule: MachineFault) -> Result<T, ReadRefusal>
    ensures ok { IfOk result (λ x. value ≡ Some x) }
    ensures err { IfErr result (λ e. (value ≡ None) × (e ≡ Fault rule)) }
{
    match value {
        Some(x) => Ok(x),
        None => Err(ReadRefusal::Fault(rule)),
    }
}

/// The machine that the document means, or the first rule that it breaks.
#[tactic(auto, unfolding(crate::specs::File::first_in, crate::specs::File::plan))]
fn machine_of(alloc: Global, file: &Table) -> Result<Machine, ReadRefusal>
    ensures ok { IfOk result (λ m. (first_in (table_view file.now) ≡ None) × (plan (table_view file.now) ≡ view m)) }
    ensures uncontrolled { IfOk result (λ m. m.control ≡ None) }
    ensures err { IfErr result (Refuses (first_in (table_view file.now))) }
{
    keep(known_keys(file), MachineFault::M2)?;
    keep(complete(file), MachineFault::M3)?;
    keep(typed(file), MachineFault::M4)?;
    let packed = given(layout_of(file), MachineFault::M5)?;
    let start = given(start_of(file), MachineFault::M5)?;
    let size = given(size_of(packed, file), MachineFault::M6)?;
    let features = given(features_of(file), MachineFault::M7)?;
    let window = given(window_of(file), MachineFault::M8)?;
    let regions = given(regions_of(alloc, file)?, MachineFault::M9)?;
    keep(all_write_chains(file), MachineFault::M10)?;
    let most = most_pieces(features, size);
    let queues = given(scripts_of(alloc, most, file)?, MachineFault::M11)?;
    keep(
        all_lie(regions.as_slice(), queues.as_slice()),
        MachineFault::M12,
    )?;
    keep(few(queues.as_slice()), MachineFault::M13)?;
    keep(has_few_commands(file), MachineFault::M13)?;
    let switches = given(switches_of(alloc, file)?, MachineFault::M14)?;
    let control = given(control_of(alloc, file)?, MachineFault::M15)?;
    let iovas = given(range_of(file), MachineFault::M16)?;
    keep(
        are_laid(alloc, iovas, regions.as_slice())?,
        MachineFault::M16,
    )?;
    let rings = ring_count(start, switches.as_slice(), queues.as_slice());
    let controls = control_count(control.is_some(), switches.as_slice());
    let words = all_words(packed, size, features, rings, controls);
    keep(are_few_words(words), MachineFault::M17)?;
    Ok(Machine {
        packed,
        size,
        features,
        window,
        start,
        first: iovas.first,
        last: iovas.last,
        regions,
        queues,
        switches,
        control,
    })
}

impl Machine {
    /// The machine that the bytes mean, or the first rule that they break. Until a play takes commands it has no control
    /// queue.
    #[tactic(auto, unfolding(crate::specs::File::first, crate::specs::File::means, crate::specs::File::first_in))]
    pub fn read(alloc: Global, bytes: &[u8]) -> Result<Machine, ReadRefusal>
        ensures ok { IfOk result (λ m. (first bytes.now ≡ None) × (means bytes.now ≡ Some (view m))) }
        ensures uncontrolled { IfOk result (λ m. m.control ≡ None) }
        ensures err { IfErr result (Refuses (first bytes.now)) }
    {
        let file = table_of(alloc, bytes)?;
        machine_of(alloc, &file)
    }
}
