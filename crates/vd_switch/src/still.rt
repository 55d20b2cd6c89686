//! A lane between two epochs.
ghost use Rattle.std.specs.Prelude.{◌≡◌, ◌↔◌, ℕ, ◌≤◌, ◌<◌, ◌+◌, ◌^◌, None, Some, IsSomeAnd, true, false, length, MatchResult};
ghost use Rattle.std.specs.Option.{option_copied};
ghost use Rattle.vd_control.specs.Settings.{default, HasPairs};
ghost use Rattle.vd_model.specs.declared.features.Features.{Features};
ghost use Rattle.vd_layout.specs.Begun.{DeviceOp};
ghost use Rattle.vd_layout.specs.Device.{IsStill};
ghost use Rattle.vd_ring.specs.declared.device.DeviceView.{DeviceView};
ghost use Rattle.vd_bus.specs.Device.{IsAttach, IsRefused, IsReset};
ghost use Rattle.vd_bus.specs.Orders.{IsData, IsControl};
ghost use Rattle.vd_switch.specs.Kits.{IsKit};
ghost use Rattle.vd_switch.specs.Stills.{is_still, Shadows, Replays, IsNew};

use crate::fault::DeviceFault;
use crate::kit::Kit;
use crate::passing::Passing;
use crate::shadowing::Shadowing;
use vd_bus::{Device, Order};
use vd_control::Settings;
use vd_layout::{DeviceEnd, Layout};
use vd_model::Base;
use vd_relay::Relay;

/// A lane whose guest's ring no device and no relay works on. It owns the device's end of that ring, which rests or is fresh.
#[derive(Drop)]
pub struct Still<L: Layout> {
    pub(crate) end: L::Device,
    pub(crate) control: bool,
    pub(crate) settings: Settings,
    ghost still: { is_still L.Device.device end ≡ true },
}

/// Ends the rest of a still end, at its own base.
fn awake<L: Layout>(end: L::Device) -> L::Device
    requires still { IsStill L.Device.device end }
    ensures idle { L.Device.device.begun result ≡ DeviceOp.idle }
    ensures awake { L.Device.device.resting result ≡ false }
    ensures stands { (w : DeviceView) → L.Device.device.stands end w → L.Device.device.stands result w }
{
    let mut end = end;
    let base = end.base();
    if end.resume(base).is_err() {
        unreachable!()
    }
    end
}

impl<L: Layout> Still<L> {
    /// The lane of the ring that has this end, which is fresh or rests; `control` tells whether it is a control ring. The settings
    /// are the default.
    pub fn new(end: L::Device, control: bool) -> Still<L>
        requires still { IsStill L.Device.device end }
        requires ring { (w : DeviceView) × L.Device.device.stands end w × (control ≡ w.frame.control) }
        ensures end { result.end ≡ end }
        ensures control { result.control ≡ control }
        ensures settings { result.settings ≡ default }
    {
        Still {
            end,
            control,
            settings: Settings::new(),
        }
    }

    /// The base of the guest's ring: the next device of the lane goes on from there.
    pub fn base(&self) -> Base
        ensures { result.0 ≡ L.Device.device.base self.now.end }
    {
        self.end.base()
    }

    /// Of a control lane the settings with every acknowledged command of the guest applied, else the default.
    pub fn settings(&self) -> &Settings
        ensures { result.now ≡ self.now.settings }
    {
        &self.settings
    }

    /// Lets the device work on the guest's own ring. A refusal leaves the lane as it was.
    pub fn to_pass<V: Device<L>>(
        self,
        device: &mut V,
        order: &Order,
        control: Option<&V>,
    ) -> Result<Passing<L>, DeviceFault<L>>
        requires lane { self.control ≡ false }
        requires pass { order.now.ring < 16 }
        requires data { IsData order.now.queue }
        requires base { L.Device.device.base self.end ≡ order.now.base.0 }
        requires free { V.party.attached device.old ≡ None }
        requires events { 2 ≤ V.party.event_room device.old }
        requires chains { order.now.count ≤ V.party.chain_room device.old }
        requires few { length (V.party.begun device.old) + order.now.count < 2 ^ 32 }
        ensures { MatchResult
            result
            (λ lane. (lane.settings ≡ self.settings)
            × IsAttach L.Device.device V.party order.now (option_copied control.entry) self.end device.old device.new)
            (λ fault. (fault.lane.end ≡ self.end) × (fault.lane.control ≡ self.control) × (fault.lane.settings ≡ self.settings)
            × (fault.kit ≡ None) × IsRefused V.party device.old device.new) }
    {
        let Still {
            end,
            control: of_control,
            settings,
        } = self;
        match device.attach(order, end, control) {
            Ok(()) => Ok(Passing::new(settings)),
            Err(refused) => Err(DeviceFault {
                lane: Still {
                    end: refused.end,
                    control: of_control,
                    settings,
                },
                kit: None,
            }),
        }
    }

    /// Lets the device work on a shadow ring, and a relay stand between it and the guest's ring. Of a control lane the relay may first
    /// replay the lane's settings. A refusal leaves the lane and the kit as they were.
    pub fn to_shadow<V: Device<L>>(
        self,
        kit: Kit<L>,
        replay: bool,
        device: &mut V,
        order: &Order,
        control: Option<&V>,
    ) -> Result<Shadowing<L>, DeviceFault<L>>
        requires once { replay ≡ true → self.control ≡ true }
        requires pairs { HasPairs self.settings }
        requires shadow { 16 ≤ order.now.ring }
        requires queue { (self.control ≡ true) ↔ IsControl order.now.queue }
        requires kit { (size : ℕ) × (f : Features)
            × IsKit L.Driver.driver L.Device.device L.layout size f self.control kit.driver kit.device kit.table
            × ((w : DeviceView) → L.Device.device.stands self.end w → (w.frame.size ≡ size) × (w.frame.features ≡ f)) }
        requires stands { (w : DeviceView) × L.Device.device.stands self.end w }
        requires base { L.Device.device.base kit.device ≡ order.now.base.0 }
        requires free { V.party.attached device.old ≡ None }
        requires events { 2 ≤ V.party.event_room device.old }
        requires chains { order.now.count ≤ V.party.chain_room device.old }
        requires few { length (V.party.begun device.old) + order.now.count < 2 ^ 32 }
        ensures { MatchResult
            result
            (λ lane. (self.control ≡ false → (lane.relay.control ≡ None)
            × Shadows L.Device.device L.Driver.driver self.end kit.driver kit.table.origins lane.relay.state lane.relay.counts)
            × (self.control ≡ true → IsSomeAnd lane.relay.control (λ k. Replays L.layout L.Device.device L.Driver.driver replay
            self.settings self.end kit.driver kit.table lane.relay.state k lane.relay.counts))
            × IsNew lane.relay.state lane.relay.counts × (lane.relay.settings ≡ self.settings)
            × IsAttach L.Device.device V.party order.now (option_copied control.entry) kit.device device.old device.new)
            (λ fault. (fault.lane.end ≡ self.end) × (fault.lane.control ≡ self.control) × (fault.lane.settings ≡ self.settings)
            × (fault.kit ≡ Some kit) × IsRefused V.party device.old device.new) }
    {
        let Kit {
            driver,
            device: shadow_end,
            table,
        } = kit;
        let Still {
            end,
            control: of_control,
            settings,
        } = self;
        match device.attach(order, shadow_end, control) {
            Ok(()) => {
                let guest = awake::<L>(end);
                let relay = Relay::new(guest, driver, table, of_control, settings, replay);
                Ok(Shadowing::new(relay))
            }
            Err(refused) => Err(DeviceFault {
                lane: Still {
                    end,
                    control: of_control,
                    settings,
                },
                kit: Some(Kit {
                    driver,
                    device: refused.end,
                    table,
                }),
            }),
        }
    }

    /// Resets the device, which has the default settings then. The lane keeps its end and its own settings.
    pub fn renew<V: Device<L>>(self, device: &mut V) -> Still<L>
        requires free { V.party.attached device.old ≡ None }
        requires room { 1 ≤ V.party.event_room device.old }
        ensures end { result.end ≡ self.end }
        ensures control { result.control ≡ self.control }
        ensures settings { result.settings ≡ self.settings }
        ensures device { IsReset V.party device.old device.new }
    {
        device.reset();
        self
    }

    /// Hands out the end of the guest's ring: the lane is at its end.
    pub fn finish(self) -> L::Device
        ensures { result ≡ self.end }
    {
        self.end
    }
}
