//! What always holds of a split ring. These functions do nothing: their contracts are the laws.
ghost use Rattle.std.specs.Prelude.{ℕ, ◌≤◌, List};
ghost use Rattle.std.specs.List.{Contains};
ghost use Rattle.vd_words.specs.declared.access.Access.{Access};
ghost use Rattle.vd_words.specs.declared.access.Op.{Op};
ghost use Rattle.vd_words.specs.Step.{answered};
ghost use Rattle.vd_ring.specs.declared.device.DeviceView.{DeviceView};
ghost use Rattle.vd_ring.specs.declared.driver.DriverView.{DriverView};
ghost use Rattle.vd_ring.specs.declared.frame.Frame.{Frame};
ghost use Rattle.vd_ring.specs.Account.{Accounts};
ghost use Rattle.vd_ring.specs.History.{open_at, head, chain};
ghost use Rattle.vd_split_ring.specs.SplitDevice.{DeviceNext, device_after};
ghost use Rattle.vd_split_ring.specs.SplitDriver.{DriverNext, driver_after};
ghost use Rattle.vd_split_ring.specs.SplitLaws.{IsFresh, Agree, LooksShow};
ghost use Rattle.vd_split_ring.specs.SplitRing.{Ring};
ghost use Rattle.vd_split_ring.specs.SplitWords.{IsLawful, Spells};

/// Words of 0 and the views of a fresh ring meet the ring invariant.
pub fn fresh_law()
    ensures { (f : Frame) → IsLawful f → IsFresh f }
{}

/// Each chain offered and not collected is spelled at its head.
pub fn spelling_law()
    ensures { (ws : List ℕ) (d : DriverView) (e : DeviceView) (k : ℕ) → Ring ws d e → Contains (open_at d.done) k
        → Spells d.frame ws (head d.frame d.done k) (chain d.done k) }
{}

/// What was taken is a prefix of what was offered, and collected of given; numbers differ; under IN_ORDER they are in order.
pub fn agreement_law()
    ensures { (ws : List ℕ) (d : DriverView) (e : DeviceView) → Ring ws d e → Agree d.frame d.done e.done }
{}

/// The account of the ring, read from the two sides' acts, is lawful, ordered under IN_ORDER, and whole where as many entries are
/// collected as chains were offered.
pub fn account_law()
    ensures { (ws : List ℕ) (d : DriverView) (e : DeviceView) → Ring ws d e → Accounts d.frame.features.in_order d.done e.done }
{}

/// The index that a look loads shows nothing further exactly where nothing further is.
pub fn looks_law()
    ensures { (ws : List ℕ) (d : DriverView) (e : DeviceView) → Ring ws d e → LooksShow ws d e }
{}

/// The index that a side has seen never goes back.
pub fn seen_law()
    ensures driver { (ws : List ℕ) (d : DriverView) (e : DeviceView) (o : Op) (a : Access) → Ring ws d e → DriverNext d o a
        → d.seen ≤ (driver_after d o a (answered ws a)).seen }
    ensures device { (ws : List ℕ) (d : DriverView) (e : DeviceView) (o : Op) (a : Access) → Ring ws d e → DeviceNext e o a
        → e.seen ≤ (device_after e o a (answered ws a)).seen }
{}
