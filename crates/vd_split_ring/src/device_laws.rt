//! What the device's accesses keep and answer. These functions do nothing: their contracts are the laws.
ghost use Rattle.std.specs.Prelude.{◌≡◌, ℕ, ◌<◌, List, ◌∷◌};
ghost use Rattle.vd_model.specs.declared.chain.Piece.{Piece};
ghost use Rattle.vd_words.specs.declared.access.Access.{Access};
ghost use Rattle.vd_words.specs.declared.access.Op.{Op};
ghost use Rattle.vd_words.specs.Step.{place_of, written};
ghost use Rattle.vd_ring.specs.declared.act.DeviceAct.TheVariants.{Taken, Given, Rested};
ghost use Rattle.vd_ring.specs.declared.device.DeviceDone.{DeviceDone};
ghost use Rattle.vd_ring.specs.declared.device.DeviceDone.TheVariants.{Rest};
ghost use Rattle.vd_ring.specs.declared.device.DeviceView.{DeviceView};
ghost use Rattle.vd_ring.specs.declared.driver.DriverView.{DriverView};
ghost use Rattle.vd_ring.specs.Bag.{State};
ghost use Rattle.vd_ring.specs.DeviceSteps.{Did};
ghost use Rattle.vd_ring.specs.Steps.{StandsFor};
ghost use Rattle.vd_split_ring.specs.SplitDevice.{DeviceNext, device_after, device_act};
ghost use Rattle.vd_split_ring.specs.SplitDeviceLaws.{DeviceKeeps, device_answer, device_done, DeviceBags, IsTaken, HasLastUsed, IsGiven, LooksNothing, HasRested};
ghost use Rattle.vd_split_ring.specs.SplitRing.{Ring};
ghost use Rattle.vd_split_ring.specs.SplitWords.{IsLawful, width};

/// Each access of the device that is next keeps the ring invariant, and its answer tells what the view says.
pub fn device_law()
    ensures { (ws : List ℕ) (d : DriverView) (e : DeviceView) (o : Op) (a : Access) → Ring ws d e → DeviceNext e o a
        → DeviceKeeps ws d e o a }
{}

/// From the view alone: an access that is next is to one of the ring's words, none changes the frame, and each answer says what
/// was done.
pub fn device_alone_law()
    ensures inside { (e : DeviceView) (o : Op) (a : Access) → IsLawful e.frame → DeviceNext e o a → place_of a < width e.frame }
    ensures frame { (e : DeviceView) (o : Op) (a : Access) (r : ℕ) → (device_after e o a r).frame ≡ e.frame }
    ensures did { (e : DeviceView) (o : Op) (a : Access) (r : ℕ) → Did (device_act e o a r) e.done (device_after e o a r).done }
{}

/// The answer names the one step of the ring's bag.
pub fn device_bag_law()
    ensures { (ws : List ℕ) (d : DriverView) (e : DeviceView) (o : Op) (a : Access) (b : List State) → Ring ws d e → DeviceNext e o a
        → StandsFor d.done e.done b → DeviceBags ws d e o a b }
{}

/// `Taken` has the next chain offered, with its head.
pub fn device_taken_law()
    ensures { (ws : List ℕ) (d : DriverView) (e : DeviceView) (o : Op) (a : Access) (k : ℕ) (c : List Piece) → Ring ws d e
        → DeviceNext e o a → device_answer ws e o a ≡ Taken k c → IsTaken ws d e o a k c }
{}

/// After `Given` the used entry stands in the words, and it is that of the last act.
pub fn device_given_law()
    ensures given { (ws : List ℕ) (d : DriverView) (e : DeviceView) (o : Op) (a : Access) (k : ℕ) → Ring ws d e → DeviceNext e o a
        → device_answer ws e o a ≡ Given k → IsGiven ws d e o a k }
    ensures last { (ws : List ℕ) (d : DriverView) (e : DeviceView) (o : Op) (a : Access) (k : ℕ) → Ring ws d e → DeviceNext e o a
        → device_answer ws e o a ≡ Given k → HasLastUsed d.frame (written ws a) (device_done ws e o a) }
{}

/// `Nothing` is the answer of a take exactly where the loaded index is the count taken, modulo 65,536. Then all chains offered
/// are taken.
pub fn device_nothing_law()
    ensures { (ws : List ℕ) (d : DriverView) (e : DeviceView) (o : Op) (a : Access) → Ring ws d e → DeviceNext e o a
        → LooksNothing ws d e o a }
{}

/// A device whose last act is a rest, and so one whose step answers `Rested`, has taken as many chains as it gave.
pub fn device_rest_law()
    ensures resting { (ws : List ℕ) (d : DriverView) (e : DeviceView) (older : List DeviceDone) → Ring ws d e → e.done ≡ Rest ∷ older
        → HasRested e.done }
    ensures rests { (ws : List ℕ) (d : DriverView) (e : DeviceView) (o : Op) (a : Access) → Ring ws d e → DeviceNext e o a
        → device_answer ws e o a ≡ Rested → HasRested (device_done ws e o a) }
{}
