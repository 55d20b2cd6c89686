//! The top call.
ghost use Rattle.std.specs.Prelude.{◌≡◌, ◌⊎◌, ◌+◌, ℕ, Bool, List, Option, Some, None, false, length, map};
ghost use Rattle.std.specs.Io.KnownBytes.{Appends};
ghost use Rattle.vd_machine.specs.Canon.{canon};
ghost use Rattle.vd_machine.specs.declared.machine.MachineFault.{MachineFault};
ghost use Rattle.vd_stream.specs.Causes.{Rose};
ghost use Rattle.vd_stream.specs.declared.reading.TheConstants.{MOST_BYTES};
ghost use Rattle.vd_stream.specs.Sinks.{AppendsFront};
ghost use Rattle.vd_packed.specs.DeviceEnd.{packed_device};
ghost use Rattle.vd_packed.specs.DriverEnd.{packed_driver};
ghost use Rattle.vd_packed.specs.laws.PackedLayout.{packed_layout};
ghost use Rattle.vd_split.specs.DeviceEnd.{split_device};
ghost use Rattle.vd_split.specs.DriverEnd.{split_driver};
ghost use Rattle.vd_split.specs.laws.SplitLayout.{split_layout};
ghost use Rattle.vd_play.specs.Prepared.{IsEmptyBench, IsUntouched};
ghost use Rattle.vd_play.specs.Setting.{setting_of};
ghost use Rattle.vd_runner.specs.Answers.{has_written, has_played, has_prepared, expected, need, IsOrMemory};
ghost use Rattle.vd_runner.specs.Command.{command, playing, IsMode};
ghost use Rattle.vd_runner.specs.declared.chosen.ModeWord.TheVariants.{Play, Check};
ghost use Rattle.vd_runner.specs.Layouts.{OfLayout, guests_for, devices_for};
ghost use Rattle.vd_runner.specs.Outcome.{IsWellPlayed, IsCutOff, IsUnplayed, HasTooFew, SomeRose};
ghost use Rattle.vd_runner.specs.Reading.{BreaksFirst, ReadsTooMuch, OfMachine};
ghost use Rattle.vd_runner.specs.Report.{report, all_lens};

use crate::checking::check;
use crate::chosen::ModeWord;
use crate::playing_command::play_command;
use crate::status::Status;
use crate::words::options;
use std::alloc::Global;
use vd_bus::{Device, Guest};
use vd_packed::Packed;
use vd_play::Bench;
use vd_split::Split;
use vd_stream::{Sink, Source};

/// The whole of a command. `play` reads a machine file from the source, plays it with the parties of the bench of its layout,
/// and writes the report to the sink; `check` writes the file's canonical text. All memory is taken before the first step of
/// a ring.
pub fn vdpa<
    S: Source,
    K: Sink,
    GS: Guest<Split>,
    VS: Device<Split>,
    GP: Guest<Packed>,
    VP: Device<Packed>,
>(
    alloc: Global,
    words: &[&str],
    source: &mut S,
    sink: &mut K,
    split: &mut Bench<GS, VS>,
    packed: &mut Bench<GP, VP>,
) -> Status
    requires split { IsEmptyBench GS.party VS.party split.old }
    requires packed { IsEmptyBench GP.party VP.party packed.old }
    // Exactly where the words mean no command, and then nothing is read.
    ensures usage { result ≡ Status.Usage
        → (command (map (λ w. w.now) words.now) ≡ None) × (S.left source.new ≡ S.left source.old) }
    ensures no_command { command (map (λ w. w.now) words.now) ≡ None → result ≡ Status.Usage }
    // The first rule that the bytes read to the end break.
    ensures machine { (rule : MachineFault) → result ≡ Status.Machine rule → BreaksFirst (S.left source.old) (S.left source.new) rule }
    ensures large { (n : ℕ) → result ≡ Status.TooLarge n → (n ≡ MOST_BYTES + 1) × ReadsTooMuch (S.left source.old) (S.left source.new) }
    // The machine has more queues than the bench of its layout has guests or devices.
    ensures few { (need : ℕ) (guests : ℕ) (devices : ℕ) → result ≡ Status.TooFewParties need guests devices
        → IsMode Play (command (map (λ w. w.now) words.now))
        × OfMachine (S.left source.old) (S.left source.new) (λ plan. OfLayout plan.packed
        (HasTooFew plan need guests devices split.old)
        (HasTooFew plan need guests devices packed.old)) }
    // Faults come only where the count of the source, the sink or the device rose in this call.
    ensures read_fault { result ≡ Status.ReadFault → Rose (S.faults source.old) (S.faults source.new) }
    ensures write_fault { result ≡ Status.WriteFault → Rose (K.faults sink.old) (K.faults sink.new) }
    ensures device_fault { (q : ℕ) → result ≡ Status.DeviceFault q
        → IsMode Play (command (map (λ w. w.now) words.now))
        × OfMachine (S.left source.old) (S.left source.new) (λ plan. OfLayout plan.packed
        (IsCutOff (setting_of split_driver split_device split_layout GS.party VS.party) plan q split.old split.new
        × (packed.new ≡ packed.old))
        (IsCutOff (setting_of packed_driver packed_device packed_layout GP.party VP.party) plan q packed.old packed.new
        × (split.new ≡ split.old))) }
    // What was played and written.
    ensures done { (seed : Option ℕ) (brief : Bool) → command (map (λ w. w.now) words.now) ≡ Some (playing seed brief) → result ≡ Status.Ok
        → OfMachine (S.left source.old) (S.left source.new) (λ plan. OfLayout plan.packed
        (IsWellPlayed (setting_of split_driver split_device split_layout GS.party VS.party) plan split.old split.new
        × (packed.new ≡ packed.old)
        × Appends (K.held sink.old) (K.held sink.new) (report plan brief (all_lens VS.party plan split.new)))
        (IsWellPlayed (setting_of packed_driver packed_device packed_layout GP.party VP.party) plan packed.old packed.new
        × (split.new ≡ split.old)
        × Appends (K.held sink.old) (K.held sink.new) (report plan brief (all_lens VP.party plan packed.new)))) }
    ensures part { (seed : Option ℕ) (brief : Bool) → command (map (λ w. w.now) words.now) ≡ Some (playing seed brief)
        → result ≡ Status.WriteFault
        → OfMachine (S.left source.old) (S.left source.new) (λ plan. OfLayout plan.packed
        (IsWellPlayed (setting_of split_driver split_device split_layout GS.party VS.party) plan split.old split.new
        × (packed.new ≡ packed.old)
        × AppendsFront (K.held sink.old) (K.held sink.new) (report plan brief (all_lens VS.party plan split.new)))
        (IsWellPlayed (setting_of packed_driver packed_device packed_layout GP.party VP.party) plan packed.old packed.new
        × (split.new ≡ split.old)
        × AppendsFront (K.held sink.old) (K.held sink.new) (report plan brief (all_lens VP.party plan packed.new)))) }
    // The canonical text, which means the machine that was read; no party is touched.
    ensures checked { IsMode Check (command (map (λ w. w.now) words.now)) → result ≡ Status.Ok
        → OfMachine (S.left source.old) (S.left source.new) (λ plan. Appends (K.held sink.old) (K.held sink.new) (canon plan)) }
    ensures front { IsMode Check (command (map (λ w. w.now) words.now)) → result ≡ Status.WriteFault
        → OfMachine (S.left source.old) (S.left source.new) (λ plan. AppendsFront (K.held sink.old) (K.held sink.new) (canon plan)) }
    ensures aside { IsMode Check (command (map (λ w. w.now) words.now)) → (split.new ≡ split.old) × (packed.new ≡ packed.old) }
    // Where memory was wanting, the bench of the machine's layout has its parties still, and the other is as it was.
    ensures memory { result ≡ Status.Memory → ((split.new ≡ split.old) × (packed.new ≡ packed.old))
        ⊎ OfMachine (S.left source.old) (S.left source.new) (λ plan. OfLayout plan.packed
        (IsUnplayed (setting_of split_driver split_device split_layout GS.party VS.party) plan split.old split.new
        × (packed.new ≡ packed.old))
        (IsUnplayed (setting_of packed_driver packed_device packed_layout GP.party VP.party) plan packed.old packed.new
        × (split.new ≡ split.old))) }
    // What every other answer leaves.
    ensures unwritten { has_written result ≡ false → K.held sink.new ≡ K.held sink.old }
    ensures nothing { has_played result ≡ false
        → IsUntouched GS.party VS.party split.old split.new × IsUntouched GP.party VP.party packed.old packed.new }
    ensures same { has_prepared result ≡ false → (split.new ≡ split.old) × (packed.new ≡ packed.old) }
    // Whatever it answers, no party is gone, and each device stands at its place with what it carries.
    ensures kept { (length split.new.guests.items ≡ length split.old.guests.items)
        × (length packed.new.guests.items ≡ length packed.old.guests.items) }
    ensures carried { (map VS.party.carried split.new.devices.items ≡ map VS.party.carried split.old.devices.items)
        × (map VP.party.carried packed.new.devices.items ≡ map VP.party.carried packed.old.devices.items) }
    // Where the words mean a command and no count rose, the answer follows from the bytes and the numbers of parties, of which
    // `check` needs none.
    ensures complete { (bytes : List ℕ) → S.left source.old ≡ Some bytes → IsMode Play (command (map (λ w. w.now) words.now))
        → ¬ (Rose (S.faults source.old) (S.faults source.new)) → ¬ (Rose (K.faults sink.old) (K.faults sink.new))
        → ¬ (SomeRose VS.party split.old split.new) → ¬ (SomeRose VP.party packed.old packed.new)
        → IsOrMemory (expected bytes (guests_for bytes split.old packed.old) (devices_for bytes split.old packed.old)) result }
    ensures complete_check { (bytes : List ℕ) → S.left source.old ≡ Some bytes → IsMode Check (command (map (λ w. w.now) words.now))
        → ¬ (Rose (S.faults source.old) (S.faults source.new)) → ¬ (Rose (K.faults sink.old) (K.faults sink.new))
        → IsOrMemory (expected bytes (need bytes) (need bytes)) result }
{
    let Some(options) = options(words) else {
        return Status::Usage;
    };
    match options.mode {
        ModeWord::Play => play_command(
            alloc,
            options.seed,
            options.brief,
            source,
            sink,
            split,
            packed,
        ),
        ModeWord::Check => check(alloc, source, sink),
    }
}
