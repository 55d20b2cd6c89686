//! What a lane needs for one epoch of the mode shadow.
ghost use Rattle.std.specs.Prelude.{◌≡◌, IfOk};
ghost use Rattle.vd_layout.specs.Layout.{CanMake};
ghost use Rattle.vd_switch.specs.Kits.{IsKit};

use std::alloc::{AllocError, Global};
use vd_layout::Layout;
use vd_model::Features;
use vd_table::ShadowTable;

/// The two ends of a fresh shadow ring, and the table of the chains on it. It is made before a play, so that a switch takes no memory.
#[derive(Drop)]
pub struct Kit<L: Layout> {
    pub(crate) driver: L::Driver,
    pub(crate) device: L::Device,
    pub(crate) table: ShadowTable,
}

impl<L: Layout> Kit<L> {
    /// Makes the ends of a ring of `size` places with these features, and an empty table. The ring's words are made beside it.
    pub fn make(alloc: Global, size: u32, f: Features, control: bool) -> Result<Kit<L>, AllocError>
        requires { CanMake L.layout size f }
        ensures { IfOk result (λ kit. IsKit L.Driver.driver L.Device.device L.layout size f control kit.driver kit.device kit.table) }
    {
        let (driver, device) = L::make(alloc, size, f, control)?;
        let table = ShadowTable::new(alloc, size)?;
        Ok(Kit {
            driver,
            device,
            table,
        })
    }
}
