//! The command `play`.
ghost use Rattle.std.specs.Prelude.{◌≡◌, ◌⊎◌, ◌+◌, ℕ, List, Some, true, false, length, map};
ghost use Rattle.std.specs.Io.KnownBytes.{Appends};
ghost use Rattle.vd_machine.specs.declared.machine.MachineFault.{MachineFault};
ghost use Rattle.vd_stream.specs.Causes.{Rose};
ghost use Rattle.vd_stream.specs.declared.reading.TheConstants.{MOST_BYTES};
ghost use Rattle.vd_stream.specs.Sinks.{AppendsFront};
ghost use Rattle.vd_packed.specs.DeviceEnd.{packed_device};
ghost use Rattle.vd_packed.specs.DriverEnd.{packed_driver};
ghost use Rattle.vd_packed.specs.laws.PackedLayout.{packed_layout};
ghost use Rattle.vd_split.specs.DeviceEnd.{split_device};
ghost use Rattle.vd_split.specs.DriverEnd.{split_driver};
ghost use Rattle.vd_split.specs.laws.SplitLayout.{split_layout};
ghost use Rattle.vd_play.specs.Prepared.{IsEmptyBench, IsUntouched};
ghost use Rattle.vd_play.specs.Setting.{setting_of};
ghost use Rattle.vd_runner.specs.Answers.{has_written, has_played, has_prepared, expected, IsOrMemory};
ghost use Rattle.vd_runner.specs.Layouts.{OfLayout, guests_for, devices_for};
ghost use Rattle.vd_runner.specs.Outcome.{IsWellPlayed, IsCutOff, IsUnplayed, HasTooFew, SomeRose};
ghost use Rattle.vd_runner.specs.Reading.{BreaksFirst, ReadsTooMuch, OfMachine};
ghost use Rattle.vd_runner.specs.Report.{report, all_lens};

use crate::playing::play_on;
use crate::read::read_machine;
use crate::status::Status;
use std::alloc::Global;
use vd_bus::{Device, Guest};
use vd_packed::Packed;
use vd_play::Bench;
use vd_split::Split;
use vd_stream::{Sink, Source};

/// The whole of `play`: reads a machine file from the source, plays it with the parties of the bench of its layout, by the
/// turns of the seed where there is one, and writes the report to the sink, where it is brief without a line for each chain.
/// All memory is taken before the first step of a ring. It never answers `Usage`.
pub fn play_command<
    S: Source,
    K: Sink,
    GS: Guest<Split>,
    VS: Device<Split>,
    GP: Guest<Packed>,
    VP: Device<Packed>,
>(
    alloc: Global,
    seed: Option<u64>,
    brief: bool,
    source: &mut S,
    sink: &mut K,
    split: &mut Bench<GS, VS>,
    packed: &mut Bench<GP, VP>,
) -> Status
    requires split { IsEmptyBench GS.party VS.party split.old }
    requires packed { IsEmptyBench GP.party VP.party packed.old }
    ensures no_usage { result ≡ Status.Usage → ⊥ }
    // The first rule that the bytes read to the end break.
    ensures machine { (rule : MachineFault) → result ≡ Status.Machine rule → BreaksFirst (S.left source.old) (S.left source.new) rule }
    ensures large { (n : ℕ) → result ≡ Status.TooLarge n → (n ≡ MOST_BYTES + 1) × ReadsTooMuch (S.left source.old) (S.left source.new) }
    // The machine has more queues than the bench of its layout has guests or devices.
    ensures few { (need : ℕ) (guests : ℕ) (devices : ℕ) → result ≡ Status.TooFewParties need guests devices
        → OfMachine (S.left source.old) (S.left source.new) (λ plan. OfLayout plan.packed
        (HasTooFew plan need guests devices split.old)
        (HasTooFew plan need guests devices packed.old)) }
    // Faults come only where the count of the source, the sink or the device rose in this call.
    ensures read_fault { result ≡ Status.ReadFault → Rose (S.faults source.old) (S.faults source.new) }
    ensures write_fault { result ≡ Status.WriteFault → Rose (K.faults sink.old) (K.faults sink.new) }
    ensures device_fault { (q : ℕ) → result ≡ Status.DeviceFault q
        → OfMachine (S.left source.old) (S.left source.new) (λ plan. OfLayout plan.packed
        (IsCutOff (setting_of split_driver split_device split_layout GS.party VS.party) plan q split.old split.new
        × (packed.new ≡ packed.old))
        (IsCutOff (setting_of packed_driver packed_device packed_layout GP.party VP.party) plan q packed.old packed.new
        × (split.new ≡ split.old))) }
    // What was played and written.
    ensures done { result ≡ Status.Ok → OfMachine (S.left source.old) (S.left source.new) (λ plan. OfLayout plan.packed
        (IsWellPlayed (setting_of split_driver split_device split_layout GS.party VS.party) plan split.old split.new
        × (packed.new ≡ packed.old)
        × Appends (K.held sink.old) (K.held sink.new) (report plan brief (all_lens VS.party plan split.new)))
        (IsWellPlayed (setting_of packed_driver packed_device packed_layout GP.party VP.party) plan packed.old packed.new
        × (split.new ≡ split.old)
        × Appends (K.held sink.old) (K.held sink.new) (report plan brief (all_lens VP.party plan packed.new)))) }
    ensures part { result ≡ Status.WriteFault → OfMachine (S.left source.old) (S.left source.new) (λ plan. OfLayout plan.packed
        (IsWellPlayed (setting_of split_driver split_device split_layout GS.party VS.party) plan split.old split.new
        × (packed.new ≡ packed.old)
        × AppendsFront (K.held sink.old) (K.held sink.new) (report plan brief (all_lens VS.party plan split.new)))
        (IsWellPlayed (setting_of packed_driver packed_device packed_layout GP.party VP.party) plan packed.old packed.new
        × (split.new ≡ split.old)
        × AppendsFront (K.held sink.old) (K.held sink.new) (report plan brief (all_lens VP.party plan packed.new)))) }
    // Where memory was wanting, the bench of the machine's layout has its parties still, and the other is as it was.
    ensures memory { result ≡ Status.Memory → ((split.new ≡ split.old) × (packed.new ≡ packed.old))
        ⊎ OfMachine (S.left source.old) (S.left source.new) (λ plan. OfLayout plan.packed
        (IsUnplayed (setting_of split_driver split_device split_layout GS.party VS.party) plan split.old split.new
        × (packed.new ≡ packed.old))
        (IsUnplayed (setting_of packed_driver packed_device packed_layout GP.party VP.party) plan packed.old packed.new
        × (split.new ≡ split.old))) }
    // What every other answer leaves.
    ensures unwritten { has_written result ≡ false → K.held sink.new ≡ K.held sink.old }
    ensures nothing { has_played result ≡ false
        → IsUntouched GS.party VS.party split.old split.new × IsUntouched GP.party VP.party packed.old packed.new }
    ensures same { has_prepared result ≡ false → (split.new ≡ split.old) × (packed.new ≡ packed.old) }
    // Whatever it answers, no party is gone, and each device stands at its place with what it carries.
    ensures kept { (length split.new.guests.items ≡ length split.old.guests.items)
        × (length packed.new.guests.items ≡ length packed.old.guests.items) }
    ensures carried { (map VS.party.carried split.new.devices.items ≡ map VS.party.carried split.old.devices.items)
        × (map VP.party.carried packed.new.devices.items ≡ map VP.party.carried packed.old.devices.items) }
    // Where no count rose, the answer follows from the bytes and the numbers of parties.
    ensures complete { (bytes : List ℕ) → S.left source.old ≡ Some bytes
        → ¬ (Rose (S.faults source.old) (S.faults source.new)) → ¬ (Rose (K.faults sink.old) (K.faults sink.new))
        → ¬ (SomeRose VS.party split.old split.new) → ¬ (SomeRose VP.party packed.old packed.new)
        → IsOrMemory (expected bytes (guests_for bytes split.old packed.old) (devices_for bytes split.old packed.old)) result }
{
    let machine = match read_machine(alloc, source) {
        Ok(machine) => machine,
        Err(status) => return status,
    };
    if machine.packed {
        play_on::<Packed, K, GP, VP>(alloc, &machine, seed, brief, packed, sink)
    } else {
        play_on::<Split, K, GS, VS>(alloc, &machine, seed, brief, split, sink)
    }
}
