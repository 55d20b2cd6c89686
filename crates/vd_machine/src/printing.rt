//! Printing a machine as the file that means it.
ghost use Rattle.std.specs.Prelude.{◌≡◌, ◌++◌, codes, decimal, map, OnOk, Some};
ghost use Rattle.vd_machine.specs.Canon.{canon, line, quoted, list_text, layout_name, feature_names, region_text, queue_text};
ghost use Rattle.vd_machine.specs.File.{view, first, means, broken_by_key};

use crate::control_lines::print_control;
use crate::listing::{feature_texts, print_queues, print_regions, push_number, push_text};
use crate::switch_lines::{print_switch_line, start_line};
use crate::{Machine, Region};
use std::alloc::{AllocError, Global};
use vd_model::{Features, Script};

fn layout_line(packed: bool) -> &'static str
    ensures { result.now ≡ line (codes "layout") (quoted (layout_name packed)) }
{
    if packed {
        "layout = \"packed\"\n"
    } else {
        "layout = \"split\"\n"
    }
}

fn print_features(features: Features, out: &mut Vec<u8>) -> Result<(), AllocError>
    ensures { OnOk result (out.new.items ≡ out.old.items ++ line (codes "features") (list_text (map quoted (feature_names features)))) }
{
    push_text("features = [", out)?;
    push_text(feature_texts(features), out)?;
    push_text("]\n", out)
}

fn print_number(key: &str, number: u64, out: &mut Vec<u8>) -> Result<(), AllocError>
    ensures { OnOk result (out.new.items ≡ out.old.items ++ line key.now (decimal number)) }
{
    push_text(key, out)?;
    push_text(" = ", out)?;
    push_number(number, out)?;
    push_text("\n", out)
}

fn print_region_line(regions: &[Region], out: &mut Vec<u8>) -> Result<(), AllocError>
    ensures { OnOk result (out.new.items ≡ out.old.items ++ line (codes "regions") (list_text (map region_text regions.now))) }
{
    push_text("regions = [", out)?;
    print_regions(regions, out)?;
    push_text("]\n", out)
}

fn print_queue_line(queues: &[Script], out: &mut Vec<u8>) -> Result<(), AllocError>
    ensures { OnOk result (out.new.items ≡ out.old.items ++ line (codes "queues") (list_text (map queue_text queues.now))) }
{
    push_text("queues = [", out)?;
    print_queues(queues, out)?;
    push_text("]\n", out)
}

impl Machine {
    /// Appends the canonical text of the machine, which means this machine. It breaks no rule where there is no control
    /// queue; until a play takes commands a file has no key for one. Where memory is wanting a part of it may be appended.
    #[tactic(auto, unfolding(crate::specs::Canon::canon))]
    pub fn print(&self, alloc: Global, out: &mut Vec<u8>) -> Result<(), AllocError>
        ensures text { OnOk result (out.new.items ≡ out.old.items ++ canon (view self.now)) }
        ensures back { OnOk result ((first (canon (view self.now)) ≡ broken_by_key self.now.control)
            × (means (canon (view self.now)) ≡ Some (view self.now))) }
    {
        push_text(layout_line(self.packed), out)?;
        print_number("size", self.size as u64, out)?;
        print_features(self.features, out)?;
        print_number("window", self.window as u64, out)?;
        push_text(start_line(self.start), out)?;
        print_number("iova_first", self.first, out)?;
        print_number("iova_last", self.last, out)?;
        print_region_line(self.regions.as_slice(), out)?;
        print_queue_line(self.queues.as_slice(), out)?;
        print_switch_line(self.switches.as_slice(), out)?;
        print_control(&self.control, out)
    }
}
