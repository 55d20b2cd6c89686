//! What a reader of tables finds on a packed ring. These functions do nothing: their contracts are the laws.
ghost use Rattle.std.specs.Prelude.{◌≡◌, ℕ, ◌≤◌, ◌++◌, ◌∷◌, [], List, true, length};
ghost use Rattle.std.specs.List.{Contains};
ghost use Rattle.vd_words.specs.declared.access.Access.{Access};
ghost use Rattle.vd_words.specs.declared.access.Op.TheVariants.{Take};
ghost use Rattle.vd_words.specs.Step.{answered};
ghost use Rattle.vd_ring.specs.declared.device.DeviceDone.{DeviceDone};
ghost use Rattle.vd_ring.specs.declared.device.DeviceNow.TheVariants.{Taking};
ghost use Rattle.vd_ring.specs.declared.device.DeviceView.{DeviceView};
ghost use Rattle.vd_ring.specs.declared.driver.DriverView.{DriverView};
ghost use Rattle.vd_ring.specs.declared.frame.Frame.{Frame};
ghost use Rattle.vd_ring.specs.History.{open_at, takes, head, chain};
ghost use Rattle.vd_packed_ring.specs.PackedChains.{is_tabled, has_table, is_whole, chain_of};
ghost use Rattle.vd_packed_ring.specs.PackedDevice.{BeginsChain, DeviceNext};
ghost use Rattle.vd_packed_ring.specs.PackedPositions.{give_position, start};
ghost use Rattle.vd_packed_ring.specs.PackedRing.{Ring};
ghost use Rattle.vd_packed_ring.specs.PackedTableLaws.{ReadsHead, ReadsTable, ReadsLoaded};
ghost use Rattle.vd_packed_ring.specs.PackedWords.{IsLawful};

/// A reader of tables finds each chain offered and not collected that stands in a table there, and no fault; as long as its descriptor
/// stands, by the address and the length that this names.
pub fn table_law()
    ensures head { (ws : List ℕ) (d : DriverView) (e : DeviceView) (k : ℕ) → Ring ws d e → Contains (open_at d.done) k
        → is_tabled d.frame (chain d.done k) ≡ true → ReadsHead d.frame ws (head d.frame d.done k) (chain d.done k) }
    ensures named { (ws : List ℕ) (d : DriverView) (e : DeviceView) (k : ℕ) → Ring ws d e → Contains (open_at d.done) k
        → give_position d.frame e.done ≤ start d.frame d.done k → is_tabled d.frame (chain d.done k) ≡ true
        → ReadsTable d.frame.size ws (start d.frame d.done k) (chain d.done k) }
{}

/// With the last load of a take the words loaded are those of the next chain offered; where they have a table, a reader of tables
/// finds the chain there and no fault, by what the answers tell alone.
pub fn loaded_law()
    ensures chain { (ws : List ℕ) (d : DriverView) (e : DeviceView) (w : ℕ) (us : List ℕ) (a : Access) → Ring ws d e
        → e.doing ≡ Taking (w ∷ us) → DeviceNext e Take a → is_whole e.frame (w ∷ us ++ answered ws a ∷ []) ≡ true
        → chain_of e.frame (w ∷ us ++ answered ws a ∷ []) ≡ chain d.done (length (takes e.done)) }
    ensures table { (f : Frame) (s : List DeviceDone) (ws : List ℕ) → IsLawful f → BeginsChain f s ws → is_whole f ws ≡ true
        → has_table f ws ≡ true → ReadsLoaded ws (chain_of f ws) }
{}
