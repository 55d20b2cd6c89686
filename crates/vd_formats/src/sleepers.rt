//! Sides that may sleep, beside their event words and bells.
use crate::expected::Expected;
use crate::format::{Format, Side};

/// Whether a side is armed, the bell that it heard last, and the number of bells that it stored.
#[derive(Copy, Clone)]
pub struct Sleeper {
    pub armed: bool,
    pub heard: u32,
    pub bells: u32,
}

pub const AWAKE: Sleeper = Sleeper {
    armed: false,
    heard: 0,
    bells: 0,
};

impl<F: Format> Expected<F> {
    fn sleeper(&mut self, side: Side) -> &mut Sleeper {
        match side {
            Side::Driver => &mut self.driver,
            Side::Device => &mut self.device,
        }
    }

    /// Arms a side: whether it stays armed, having nothing to collect or to take.
    pub fn arm(&mut self, side: Side) -> bool {
        let armed = match side {
            Side::Driver => self.collected == self.given,
            Side::Device => self.taken == self.offered,
        };
        self.format.want_next(side);
        self.sleeper(side).armed = armed;
        if !armed {
            self.format.want_none(side);
        }
        armed
    }

    /// A side hears the other one's bell: whether it was rung since.
    pub fn hear(&mut self, side: Side) -> bool {
        let bells = match side {
            Side::Driver => self.device.bells,
            Side::Device => self.driver.bells,
        };
        if self.sleeper(side).heard == bells {
            return false;
        }
        self.sleeper(side).heard = bells;
        self.disarm(side);
        true
    }

    pub fn disarm(&mut self, side: Side) {
        self.sleeper(side).armed = false;
        self.format.want_none(side);
    }

    /// A side stores a bell.
    pub fn ring(&mut self, side: Side) {
        let sleeper = self.sleeper(side);
        sleeper.bells = sleeper.bells.wrapping_add(1);
    }

    /// Whether the driver and the device are armed.
    pub fn armed(&self) -> (bool, bool) {
        (self.driver.armed, self.device.armed)
    }

    /// How many bells the driver and the device stored.
    pub fn rung(&self) -> (u32, u32) {
        (self.driver.bells, self.device.bells)
    }
}
