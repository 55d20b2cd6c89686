//! A replay doesn't sleep for ever. The function does nothing: its contract is the law.

ghost use Rattle.std.specs.Prelude.{◌≡◌, ℕ, List, []};
ghost use Rattle.vd_ring.specs.declared.device.DeviceView.{DeviceView};
ghost use Rattle.vd_ring.specs.declared.driver.DriverView.{DriverView};
ghost use Rattle.vd_ring.specs.History.{running};
ghost use Rattle.vd_ring.specs.Sleep.{DriverWaits, DeviceWaits};
ghost use Rattle.vd_relay.specs.declared.replay.Replay.{Replay};
ghost use Rattle.vd_relay.specs.declared.replay.ReplayStage.TheVariants.{Hearing};
ghost use Rattle.vd_relay.specs.Replays.{Replays};

use vd_layout::Layout;

/// A replay that sleeps waits for one command. So the shadow ring's device, which holds no chain where it sleeps, doesn't sleep without a
/// signal while the replay does.
pub fn replay_awake_law<L: Layout>()
    ensures { (k : Replay) (shadow : L.Driver) (shadow_words : List ℕ) (sv : DriverView) (sw : DeviceView)
        → L.layout.ring shadow_words sv sw → Replays L.layout L.Driver.driver k shadow sv → k.stage ≡ Hearing → DriverWaits sv sw
        → DeviceWaits sv sw → running sw.done ≡ [] → ⊥ }
{}
