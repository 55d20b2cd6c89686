//! What the driver's accesses keep and answer. These functions do nothing: their contracts are the laws.
ghost use Rattle.std.specs.Prelude.{◌≡◌, ℕ, ◌*◌, ◌<◌, List};
ghost use Rattle.vd_words.specs.declared.access.Access.{Access};
ghost use Rattle.vd_words.specs.declared.access.Access.TheVariants.{Store};
ghost use Rattle.vd_words.specs.declared.access.Op.{Op};
ghost use Rattle.vd_words.specs.declared.access.Op.TheVariants.{Offer};
ghost use Rattle.vd_words.specs.Step.{answered};
ghost use Rattle.vd_ring.specs.declared.act.DriverAct.TheVariants.{Offered, Collected};
ghost use Rattle.vd_ring.specs.declared.device.DeviceView.{DeviceView};
ghost use Rattle.vd_ring.specs.declared.driver.DriverView.{DriverView};
ghost use Rattle.vd_ring.specs.Bag.{State};
ghost use Rattle.vd_ring.specs.DriverSteps.{DriverDid};
ghost use Rattle.vd_ring.specs.Steps.{StandsFor};
ghost use Rattle.vd_packed_ring.specs.PackedDriver.{DriverNext, driver_after, driver_act};
ghost use Rattle.vd_packed_ring.specs.PackedDriverLaws.{DriverKeeps, DriverAlone, DriverBags, IsOffered, IsCollected, StoresAhead, CollectsNothing};
ghost use Rattle.vd_packed_ring.specs.PackedRing.{Ring};
ghost use Rattle.vd_packed_ring.specs.PackedWords.{IsLawful};

/// Each access of the driver that is next keeps the ring invariant, and its answer tells what the view says.
pub fn driver_law()
    ensures { (ws : List ℕ) (d : DriverView) (e : DeviceView) (o : Op) (a : Access) → Ring ws d e → DriverNext d o a
        → DriverKeeps ws d e o a }
{}

/// From the view alone: an access that is next is to one of the ring's words, none changes the frame, and each answer says what was
/// done; a descriptor's word is stored at a position from the driver's own on, less than the ring's size past what it collected.
pub fn driver_alone_law()
    ensures inside { (d : DriverView) (o : Op) (a : Access) → IsLawful d.frame → DriverNext d o a → DriverAlone d o a }
    ensures frame { (d : DriverView) (o : Op) (a : Access) (r : ℕ) → (driver_after d o a r).frame ≡ d.frame }
    ensures did { (d : DriverView) (o : Op) (a : Access) (r : ℕ) → DriverDid (driver_act d o a r) d.done (driver_after d o a r).done }
    ensures ahead { (d : DriverView) (p x : ℕ) → IsLawful d.frame → DriverNext d Offer (Store p x) → p < 2 * d.frame.size
        → StoresAhead d.frame d.done p }
{}

/// The answer names the one step of the ring's bag.
pub fn driver_bag_law()
    ensures { (ws : List ℕ) (d : DriverView) (e : DeviceView) (o : Op) (a : Access) (b : List State) → Ring ws d e → DriverNext d o a
        → StandsFor d.done e.done b → DriverBags ws d e o a b }
{}

/// After `Offered` the words spell the chain.
pub fn driver_offered_law()
    ensures { (ws : List ℕ) (d : DriverView) (e : DeviceView) (o : Op) (a : Access) (k : ℕ) → Ring ws d e → DriverNext d o a
        → driver_act d o a (answered ws a) ≡ Offered k → IsOffered ws d o a k }
{}

/// `Collected` has the next entry given.
pub fn driver_collected_law()
    ensures { (ws : List ℕ) (d : DriverView) (e : DeviceView) (o : Op) (a : Access) (k l h : ℕ) → Ring ws d e → DriverNext d o a
        → driver_act d o a (answered ws a) ≡ Collected k l h → IsCollected ws d e o a k l h }
{}

/// `Nothing` is the answer of a collect exactly where the loaded word isn't used for that wrap. Then all that was given is collected.
pub fn driver_nothing_law()
    ensures { (ws : List ℕ) (d : DriverView) (e : DeviceView) (o : Op) (a : Access) → Ring ws d e → DriverNext d o a
        → CollectsNothing ws d e o a }
{}
