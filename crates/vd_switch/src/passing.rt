//! A lane in an epoch of the mode pass.
ghost use Rattle.std.specs.Prelude.{◌≡◌, false};
ghost use Rattle.vd_ring.specs.declared.device.DeviceView.{DeviceView};
ghost use Rattle.vd_bus.specs.Device.{IsSuspend};

use crate::still::Still;
use std::marker::PhantomData;
use vd_bus::Device;
use vd_control::Settings;
use vd_layout::Layout;

/// A lane whose device works on the guest's own ring: the device holds the ring's end.
#[derive(Drop)]
pub struct Passing<L: Layout> {
    pub(crate) settings: Settings,
    layout: PhantomData<L>,
}

impl<L: Layout> Passing<L> {
    pub(crate) fn new(settings: Settings) -> Passing<L>
        ensures { result.settings ≡ settings }
    {
        Passing {
            settings,
            layout: PhantomData,
        }
    }

    /// Takes the ring's end back from the device, which is done and is suspended by it.
    pub fn stop<V: Device<L>>(self, device: &mut V) -> Still<L>
        requires done { V.party.is_done device.old }
        requires held { (w : DeviceView) × V.party.holds device.old w }
        ensures suspended { IsSuspend L.Device.device V.party device.old device.new result.end }
        ensures lane { result.control ≡ false }
        ensures settings { result.settings ≡ self.settings }
    {
        Still {
            end: device.suspend(),
            control: false,
            settings: self.settings,
        }
    }
}
