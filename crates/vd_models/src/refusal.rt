//! Which attach of a device is refused.
ghost use Rattle.std.specs.Prelude.{◌≡◌};
ghost use Rattle.vd_models.specs.Faulty.{was_refused};

/// Which attach of a device is refused.
#[derive(Copy, Clone, Debug, PartialEq, Eq)]
pub struct Refusal {
    /// The attach's number, counted from 1.
    pub number: u32,
    /// How many events the journal had before attaches were counted.
    pub after: u32,
}

/// How many attaches were refused, where so many are left until the one of that number.
pub(crate) fn was_refused(number: u32, left: u32) -> u64
    ensures { result ≡ was_refused number left }
{
    if 0 < number && left == 0 { 1 } else { 0 }
}
