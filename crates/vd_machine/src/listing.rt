//! Printing the lists of a machine file: features, regions and queues.
ghost use Rattle.std.specs.Prelude.{◌≡◌, ◌++◌, codes, decimal, map, OnOk};
ghost use Rattle.vd_model.specs.declared.record.Run.{Run};
ghost use Rattle.vd_text.specs.Canonical.{run_text};
ghost use Rattle.vd_machine.specs.Canon.{quoted, more_items, items_text, list_text, feature_names, region_text, queue_text};

use crate::Region;
use itoa::Buffer;
use std::alloc::AllocError;
use vd_model::{Features, Run, Script};
use vd_text::print_run;

/// Appends a text as it is.
pub fn push_text(text: &str, out: &mut Vec<u8>) -> Result<(), AllocError>
    ensures { OnOk result (out.new.items ≡ out.old.items ++ text.now) }
{
    out.extend_from_slice(text.as_bytes())
}

/// Appends a number in decimal digits.
pub fn push_number(number: u64, out: &mut Vec<u8>) -> Result<(), AllocError>
    ensures { OnOk result (out.new.items ≡ out.old.items ++ decimal number) }
{
    let mut buffer = Buffer::new();
    out.extend_from_slice(buffer.format(number).as_bytes())
}

/// The names of the features, each in quotes, with `, ` between.
pub fn feature_texts(features: Features) -> &'static str
    ensures { result.now ≡ items_text (map quoted (feature_names features)) }
{
    match (features.indirect, features.event_idx, features.in_order) {
        (false, false, false) => "",
        (true, false, false) => "\"indirect\"",
        (false, true, false) => "\"event_idx\"",
        (false, false, true) => "\"in_order\"",
        (true, true, false) => "\"indirect\", \"event_idx\"",
        (true, false, true) => "\"indirect\", \"in_order\"",
        (false, true, true) => "\"event_idx\", \"in_order\"",
        (true, true, true) => "\"indirect\", \"event_idx\", \"in_order\"",
    }
}

fn print_region(region: &Region, out: &mut Vec<u8>) -> Result<(), AllocError>
    ensures { OnOk result (out.new.items ≡ out.old.items ++ region_text region.now) }
{
    push_text("{ addr = ", out)?;
    push_number(region.addr, out)?;
    push_text(", size = ", out)?;
    push_number(region.size, out)?;
    push_text(" }", out)
}

fn print_more_regions(regions: &[Region], out: &mut Vec<u8>) -> Result<(), AllocError>
    ensures { OnOk result (out.new.items ≡ out.old.items ++ more_items (map region_text regions.now)) }
{
    for region in regions {
        push_text(", ", out)?;
        print_region(region, out)?;
    }
    Ok(())
}

/// Appends the regions with `, ` between.
pub fn print_regions(regions: &[Region], out: &mut Vec<u8>) -> Result<(), AllocError>
    ensures { OnOk result (out.new.items ≡ out.old.items ++ items_text (map region_text regions.now)) }
{
    match regions {
        [] => Ok(()),
        [first, rest @ ..] => {
            print_region(first, out)?;
            print_more_regions(rest, out)
        }
    }
}

fn print_quoted(run: &Run, out: &mut Vec<u8>) -> Result<(), AllocError>
    ensures { OnOk result (out.new.items ≡ out.old.items ++ quoted (run_text run.now)) }
{
    out.push(b'"')?;
    print_run(run, out)?;
    out.push(b'"')?;
    Ok(())
}

fn print_more_runs(runs: &[Run], out: &mut Vec<u8>) -> Result<(), AllocError>
    ensures { OnOk result (out.new.items ≡ out.old.items ++ more_items (map (λ (r : Run). quoted (run_text r)) runs.now)) }
{
    for run in runs {
        push_text(", ", out)?;
        print_quoted(run, out)?;
    }
    Ok(())
}

fn print_runs(runs: &[Run], out: &mut Vec<u8>) -> Result<(), AllocError>
    ensures { OnOk result (out.new.items ≡ out.old.items ++ items_text (map (λ (r : Run). quoted (run_text r)) runs.now)) }
{
    match runs {
        [] => Ok(()),
        [first, rest @ ..] => {
            print_quoted(first, out)?;
            print_more_runs(rest, out)
        }
    }
}

fn print_queue(queue: &Script, out: &mut Vec<u8>) -> Result<(), AllocError>
    ensures { OnOk result (out.new.items ≡ out.old.items ++ queue_text queue.now) }
{
    push_text("[", out)?;
    print_runs(queue.runs.as_slice(), out)?;
    push_text("]", out)
}

fn print_more_queues(queues: &[Script], out: &mut Vec<u8>) -> Result<(), AllocError>
    ensures { OnOk result (out.new.items ≡ out.old.items ++ more_items (map queue_text queues.now)) }
{
    for queue in queues {
        push_text(", ", out)?;
        print_queue(queue, out)?;
    }
    Ok(())
}

/// Appends the queues with `, ` between.
pub fn print_queues(queues: &[Script], out: &mut Vec<u8>) -> Result<(), AllocError>
    ensures { OnOk result (out.new.items ≡ out.old.items ++ items_text (map queue_text queues.now)) }
{
    match queues {
        [] => Ok(()),
        [first, rest @ ..] => {
            print_queue(first, out)?;
            print_more_queues(rest, out)
        }
    }
}
