//! Makes the shadow rings of the control queue, one for every epoch.
ghost use Rattle.std.specs.Prelude.{◌<◌, IfOk};
ghost use Rattle.vd_machine.specs.File.{view};
ghost use Rattle.vd_play.specs.ControlRings.{IsControlRing, HasControlKits};
ghost use Rattle.vd_play.specs.Prepared.{IsOfLayout};

use crate::floor::ShadowRing;
use std::alloc::{AllocError, Global};
use vd_layout::Layout;
use vd_machine::Machine;
use vd_switch::Kit;
use vd_words::PlainWords;

/// Makes the shadow ring of the control queue for an epoch.
fn make_command_ring<L: Layout>(
    alloc: Global,
    m: &Machine,
    epoch: u32,
) -> Result<ShadowRing<L>, AllocError>
    requires layout { IsOfLayout L.layout (view m.now) }
    requires epoch { epoch < 18 }
    ensures { IfOk result (λ ring. IsControlRing L.Driver.driver L.Device.device L.layout (view m.now) epoch ring) }
{
    let words = L::words(m.size, m.features, true);
    let words = PlainWords::new(alloc, 16 * (epoch + 1) + 15, words)?;
    let kit = Kit::make(alloc, m.size, m.features, true)?;
    Ok(ShadowRing { words, kit })
}

/// Makes the shadow rings of the control queue, whatever the modes of the epochs are, the first one last.
pub(crate) fn make_command_kits<L: Layout>(
    alloc: Global,
    m: &Machine,
) -> Result<Vec<ShadowRing<L>>, AllocError>
    requires layout { IsOfLayout L.layout (view m.now) }
    ensures { IfOk result (λ kits. HasControlKits L.Driver.driver L.Device.device L.layout (view m.now) 0 kits.items) }
{
    let mut kits = Vec::new(alloc);
    let epochs = m.switches.len() + 2;
    for i in 0..epochs {
        let epoch = epochs - 1 - i;
        kits.push(make_command_ring::<L>(alloc, m, epoch as u32)?)?;
    }
    Ok(kits)
}
