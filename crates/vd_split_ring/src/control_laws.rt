//! The accesses of command and ack words. These functions do nothing: their contracts are the laws.
ghost use Rattle.std.specs.Prelude.{ℕ, List};
ghost use Rattle.vd_ring.specs.declared.device.DeviceView.{DeviceView};
ghost use Rattle.vd_ring.specs.declared.driver.DriverView.{DriverView};
ghost use Rattle.vd_ring.specs.ControlLaws.{DriverControls, DeviceControls, ControlStands};
ghost use Rattle.vd_split_ring.specs.SplitDevice.{device_side};
ghost use Rattle.vd_split_ring.specs.SplitDriver.{driver_side};
ghost use Rattle.vd_split_ring.specs.SplitRing.{Ring};
ghost use Rattle.vd_split_ring.specs.SplitWords.{command_word, ack_word};

/// From a view alone: when each such access is next, and the view after it.
pub fn control_law()
    ensures driver { DriverControls driver_side command_word ack_word }
    ensures device { DeviceControls device_side command_word ack_word }
{}

/// The command and ack words that stand are those stored for each chain, and what each side loaded is what the other stored.
pub fn control_words_law()
    ensures { (ws : List ℕ) (d : DriverView) (e : DeviceView) → Ring ws d e → ControlStands d.frame command_word ack_word d.done e.done ws }
{}
