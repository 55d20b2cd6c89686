//! What always holds of a packed ring. These functions do nothing: their contracts are the laws.
ghost use Rattle.std.specs.Prelude.{◌≡◌, ◌⊎◌, ℕ, ◌+◌, ◌%◌, ◌<◌, ◌≤◌, true, false, List, length};
ghost use Rattle.std.specs.List.{Contains};
ghost use Rattle.vd_words.specs.declared.access.Access.{Access};
ghost use Rattle.vd_words.specs.declared.access.Op.{Op};
ghost use Rattle.vd_ring.specs.declared.device.DeviceView.{DeviceView};
ghost use Rattle.vd_ring.specs.declared.driver.DriverView.{DriverView};
ghost use Rattle.vd_ring.specs.declared.frame.Frame.{Frame};
ghost use Rattle.vd_ring.specs.Account.{Accounts};
ghost use Rattle.vd_ring.specs.History.{offers, takes, open_at, head, chain};
ghost use Rattle.vd_packed_ring.specs.PackedChains.{Spells, is_tabled, described, descriptors};
ghost use Rattle.vd_packed_ring.specs.PackedDevice.{device_after};
ghost use Rattle.vd_packed_ring.specs.PackedDriver.{driver_after};
ghost use Rattle.vd_packed_ring.specs.PackedLaws.{IsFresh, Agree, LooksShow};
ghost use Rattle.vd_packed_ring.specs.PackedPositions.{give_position, start};
ghost use Rattle.vd_packed_ring.specs.PackedRing.{Ring};
ghost use Rattle.vd_packed_ring.specs.PackedWords.{IsLawful, base_at, is_base, Stand};

/// Words of 0 and the views of a fresh ring meet the ring invariant.
pub fn fresh_law()
    ensures { (f : Frame) → IsLawful f → IsFresh f }
{}

/// Each chain offered that is not taken, or whose position is not behind what was given, is spelled there; but for the table of one
/// that is collected, since then its id and so its table are another chain's.
pub fn spelling_law()
    ensures untaken { (ws : List ℕ) (d : DriverView) (e : DeviceView) (k : ℕ) → Ring ws d e → length (takes e.done) ≤ k
        → k < length (offers d.done) → Spells d.frame ws (start d.frame d.done k) (head d.frame d.done k) (chain d.done k) }
    ensures ahead { (ws : List ℕ) (d : DriverView) (e : DeviceView) (k : ℕ) → Ring ws d e → k < length (offers d.done)
        → give_position d.frame e.done ≤ start d.frame d.done k → (Contains (open_at d.done) k ⊎ (is_tabled d.frame
        (chain d.done k) ≡ false))
        → Spells d.frame ws (start d.frame d.done k) (head d.frame d.done k) (chain d.done k) }
    ensures descriptors { (ws : List ℕ) (d : DriverView) (e : DeviceView) (k : ℕ) → Ring ws d e → k < length (offers d.done)
        → give_position d.frame e.done ≤ start d.frame d.done k
        → Stand ws (described d.frame.size (start d.frame d.done k) (descriptors d.frame (head d.frame d.done k) (chain d.done k))) }
{}

/// What was taken is a prefix of what was offered, and collected of given; numbers differ; the four positions follow each other and
/// span the ring at most once; under IN_ORDER the entries are in order.
pub fn agreement_law()
    ensures { (ws : List ℕ) (d : DriverView) (e : DeviceView) → Ring ws d e → Agree d.frame d.done e.done }
{}

/// The account of the ring, read from the two sides' acts, is lawful, ordered under IN_ORDER, and whole where as many entries are
/// collected as chains were offered.
pub fn account_law()
    ensures { (ws : List ℕ) (d : DriverView) (e : DeviceView) → Ring ws d e → Accounts d.frame.features.in_order d.done e.done }
{}

/// The word that a look loads shows something further exactly where something further is.
pub fn looks_law()
    ensures { (ws : List ℕ) (d : DriverView) (e : DeviceView) → Ring ws d e → LooksShow ws d e }
{}

/// Of the positions less than the size past what was collected, none with the place of a position that is not collected is past it.
pub fn position_law()
    ensures { (n collected at other : ℕ) → 0 < n → collected ≤ at → other < collected + n → other % n ≡ at % n → other ≤ at }
{}

/// The base at any position is a lawful one, and that of a fresh ring is 0x80008000.
pub fn base_law()
    ensures lawful { (n q : ℕ) → 2 ≤ n → n ≤ 32768 → is_base n (base_at n q) ≡ true }
    ensures fresh { (n : ℕ) → 2 ≤ n → base_at n 0 ≡ 2147516416 }
{}

/// The position that a side has seen never goes back, whatever an access answers.
pub fn seen_law()
    ensures driver { (v : DriverView) (o : Op) (a : Access) (r : ℕ) → v.seen ≤ (driver_after v o a r).seen }
    ensures device { (v : DeviceView) (o : Op) (a : Access) (r : ℕ) → v.seen ≤ (device_after v o a r).seen }
{}
