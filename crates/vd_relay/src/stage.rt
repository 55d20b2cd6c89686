//! What a relay does next.
ghost use Rattle.std.specs.Prelude.{◌≡◌};
ghost use Rattle.vd_relay.specs.Stages.{is_rested, is_shadow, is_open, is_hearing};

/// What a relay does next.
#[derive(Copy, Clone, Debug, PartialEq, Eq)]
pub enum Stage {
    /// A take from the guest's ring.
    Taking,
    /// The offer of a chain, of this number on the guest's ring and with this head on the shadow ring.
    Offering { number: u32, head: u32 },
    /// A collect from the shadow ring; whether the take before it showed nothing.
    Collecting { none: bool },
    /// The give of what was collected.
    Giving,
    /// Nothing was there: the guest's end is armed, then the shadow end.
    ArmingGuest,
    ArmingShadow,
    /// Both are armed: their bells are heard in turn.
    HearingGuest,
    HearingShadow,
    /// One woke: the other is disarmed.
    DisarmingGuest,
    DisarmingShadow,
    /// The rest of the guest's end.
    Resting,
    /// Nothing: the guest's end rests.
    Rested,
}

impl Stage {
    /// Whether the guest's end rests.
    pub fn is_rested(&self) -> bool
        ensures { result ≡ is_rested self.now }
    {
        matches!(self, Stage::Rested)
    }

    /// Whether the next access is one of the shadow ring.
    pub fn is_shadow(&self) -> bool
        ensures { result ≡ is_shadow self.now }
    {
        matches!(
            self,
            Stage::Offering { .. }
                | Stage::Collecting { .. }
                | Stage::ArmingShadow
                | Stage::HearingShadow
                | Stage::DisarmingShadow
        )
    }

    /// Whether a wind-up does something else in its place.
    pub fn is_open(&self) -> bool
        ensures { result ≡ is_open self.now }
    {
        matches!(
            self,
            Stage::Taking | Stage::Collecting { .. } | Stage::ArmingGuest | Stage::ArmingShadow
        )
    }

    /// Whether it hears its bells.
    pub fn is_hearing(&self) -> bool
        ensures { result ≡ is_hearing self.now }
    {
        matches!(self, Stage::HearingGuest | Stage::HearingShadow)
    }
}
