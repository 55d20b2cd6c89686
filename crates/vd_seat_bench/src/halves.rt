//! An idle end and the seat's port on which it works. An operation that isn't possible isn't made.
ghost use Rattle.std.specs.Prelude.{◌≡◌, ◌≤◌, IfOk, [], ◌∷◌};
ghost use Rattle.vd_model.specs.declared.chain.Piece.{Piece};
ghost use Rattle.vd_layout.specs.Layout.{CanMake};

use std::alloc::{AllocError, Global};
use std::marker::Model;
use vd_layout::{DeviceAct, DeviceEnd, DriverAct, DriverEnd, Layout, finish_device, finish_driver};
use vd_model::{Chain, Features};
use vd_seats::{Counts, RingTable, SeatPort};

#[derive(Drop)]
pub struct DriverHalf<L: Layout> {
    end: L::Driver,
    port: SeatPort<L>,
}

impl<L: Layout> Model for DriverHalf<L> {
    ghost use Rattle.atomic_table.specs.Seated.{TableId};
    ghost use Rattle.vd_seat_bench.specs.Halves.{IsDriverHalf};

    ghost Value = { TableId };

    ghost view = { λ h. h.port.table };

    ghost invariant = { λ h. IsDriverHalf L.Driver.driver L.Device.device L.layout h.end h.port };
}

#[derive(Drop)]
pub struct DeviceHalf<L: Layout> {
    end: L::Device,
    port: SeatPort<L>,
}

impl<L: Layout> Model for DeviceHalf<L> {
    ghost use Rattle.atomic_table.specs.Seated.{TableId};
    ghost use Rattle.vd_seat_bench.specs.Halves.{IsDeviceHalf};

    ghost Value = { TableId };

    ghost view = { λ h. h.port.table };

    ghost invariant = { λ h. IsDeviceHalf L.Driver.driver L.Device.device L.layout h.end h.port };
}

/// A fresh ring in a table, with both halves.
pub fn ring<L: Layout>(
    alloc: Global,
    size: u32,
    f: Features,
) -> Result<(RingTable<L>, DriverHalf<L>, DeviceHalf<L>), AllocError>
    requires { CanMake L.layout size f }
    ensures { IfOk result (λ r. (r.1 ≡ r.0) × (r.2 ≡ r.0)) }
{
    let (driver, device) = L::make(alloc, size, f, false)?;
    let (table, first, second) = RingTable::<L>::make(alloc, 0, size, f, false, None)?;
    let driver = DriverHalf {
        end: driver,
        port: first,
    };
    let device = DeviceHalf {
        end: device,
        port: second,
    };
    Ok((table, driver, device))
}

/// Closes the table of both halves.
pub fn close<L: Layout>(table: RingTable<L>, driver: DriverHalf<L>, device: DeviceHalf<L>) -> Counts
    requires { (driver ≡ table) × (device ≡ table) }
{
    let DriverHalf {
        end: first,
        port: driver,
    } = driver;
    let DeviceHalf {
        end: second,
        port: device,
    } = device;
    table.close(driver, device, &first, &second)
}

impl<L: Layout> DriverHalf<L> {
    /// Offers a chain of one piece where there is room for it and the driver isn't armed.
    pub fn offer(&mut self, chain: &Chain) -> Option<DriverAct>
        requires { (p : Piece) × (chain.now ≡ p ∷ []) × (p.len ≤ 4294967295) }
        ensures { self.new ≡ self.old }
    {
        if self.end.armed() {
            return None;
        }
        let _ = chain.pieces();
        if self.end.offered() >= 1_000_000_000 {
            return None;
        }
        if !self.end.room(chain) {
            return None;
        }
        self.end.begin_offer(chain);
        Some(finish_driver(&mut self.end, &mut self.port))
    }

    /// Collects where the end isn't armed.
    pub fn collect(&mut self) -> Option<DriverAct>
        ensures { self.new ≡ self.old }
    {
        if self.end.armed() {
            return None;
        }
        self.end.begin_collect();
        Some(finish_driver(&mut self.end, &mut self.port))
    }

    pub fn offered(&self) -> u32 {
        self.end.offered()
    }

    pub fn collected(&self) -> u32 {
        self.end.collected()
    }
}

impl<L: Layout> DeviceHalf<L> {
    /// Takes where the end isn't armed.
    pub fn take(&mut self) -> Option<DeviceAct>
        ensures { self.new ≡ self.old }
    {
        if self.end.armed() {
            return None;
        }
        self.end.begin_take();
        Some(finish_device(&mut self.end, &mut self.port))
    }

    /// Gives chain number `k` where the device may.
    pub fn give(&mut self, k: u32, len: u32) -> Option<DeviceAct>
        ensures { self.new ≡ self.old }
    {
        if self.end.armed() || !self.end.holds(k) {
            return None;
        }
        if self.end.features().in_order {
            if k != self.end.given() {
                return None;
            }
        }
        self.end.begin_give(k, len);
        Some(finish_device(&mut self.end, &mut self.port))
    }

    pub fn given(&self) -> u32 {
        self.end.given()
    }
}
