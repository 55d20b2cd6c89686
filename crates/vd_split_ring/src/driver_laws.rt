//! What the driver's accesses keep and answer. These functions do nothing: their contracts are the laws.
ghost use Rattle.std.specs.Prelude.{◌≡◌, ℕ, List};
ghost use Rattle.vd_words.specs.declared.access.Access.{Access};
ghost use Rattle.vd_words.specs.declared.access.Op.{Op};
ghost use Rattle.vd_words.specs.Step.{answered};
ghost use Rattle.vd_ring.specs.declared.act.DriverAct.TheVariants.{Offered, Collected};
ghost use Rattle.vd_ring.specs.declared.device.DeviceView.{DeviceView};
ghost use Rattle.vd_ring.specs.declared.driver.DriverView.{DriverView};
ghost use Rattle.vd_ring.specs.Bag.{State};
ghost use Rattle.vd_ring.specs.DriverSteps.{DriverDid};
ghost use Rattle.vd_ring.specs.Steps.{StandsFor};
ghost use Rattle.vd_split_ring.specs.SplitDriver.{DriverNext, driver_after, driver_act};
ghost use Rattle.vd_split_ring.specs.SplitDriverLaws.{DriverKeeps, DriverAlone, DriverBags, IsOffered, IsCollected, CollectsNothing};
ghost use Rattle.vd_split_ring.specs.SplitRing.{Ring};
ghost use Rattle.vd_split_ring.specs.SplitWords.{IsLawful};

/// Each access of the driver that is next keeps the ring invariant, and its answer tells what the view says.
pub fn driver_law()
    ensures { (ws : List ℕ) (d : DriverView) (e : DeviceView) (op : Op) (a : Access) → Ring ws d e → DriverNext d op a
        → DriverKeeps ws d e op a }
{}

/// From the view alone: an access that is next is to one of the ring's words, none changes the frame, and each answer says what
/// was done.
pub fn driver_alone_law()
    ensures inside { (d : DriverView) (op : Op) (a : Access) → IsLawful d.frame → DriverNext d op a → DriverAlone d op a }
    ensures frame { (d : DriverView) (op : Op) (a : Access) (r : ℕ) → (driver_after d op a r).frame ≡ d.frame }
    ensures did { (d : DriverView) (op : Op) (a : Access) (r : ℕ) → DriverDid (driver_act d op a r) d.done (driver_after d op a r).done }
{}

/// The answer names the one step of the ring's bag.
pub fn driver_bag_law()
    ensures { (ws : List ℕ) (d : DriverView) (e : DeviceView) (op : Op) (a : Access) (b : List State) → Ring ws d e → DriverNext d op a
        → StandsFor d.done e.done b → DriverBags ws d e op a b }
{}

/// After `Offered` the words spell the chain.
pub fn driver_offered_law()
    ensures { (ws : List ℕ) (d : DriverView) (e : DeviceView) (op : Op) (a : Access) (k : ℕ) → Ring ws d e → DriverNext d op a
        → driver_act d op a (answered ws a) ≡ Offered k → IsOffered ws d op a k }
{}

/// `Collected` has the next entry given.
pub fn driver_collected_law()
    ensures { (ws : List ℕ) (d : DriverView) (e : DeviceView) (op : Op) (a : Access) (k l h : ℕ) → Ring ws d e → DriverNext d op a
        → driver_act d op a (answered ws a) ≡ Collected k l h → IsCollected ws d e op a k l h }
{}

/// `Nothing` is the answer of a collect exactly where the loaded index is the count collected, modulo 65,536. Then all entries
/// given are collected.
pub fn driver_nothing_law()
    ensures { (ws : List ℕ) (d : DriverView) (e : DeviceView) (op : Op) (a : Access) → Ring ws d e → DriverNext d op a
        → CollectsNothing ws d e op a }
{}
