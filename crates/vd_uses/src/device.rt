//! A device of one's own.
ghost use Rattle.std.specs.Prelude.{◌≡◌, ◌<◌, false};
ghost use Rattle.vd_layout.specs.PlainRing.{IsDeviceMove};
ghost use Rattle.vd_uses.specs.Filling.{filled, count_of, IsReady, IsServed};

use vd_layout::{DeviceAct, Layout, PlainRing};
use vd_model::Chain;

/// A device that gives each chain back at once, with the bytes that it may write as the length, up to `most`.
#[derive(Copy, Clone)]
pub struct Filler {
    pub most: u32,
}

impl Filler {
    /// The length with which it gives a chain, in bytes.
    fn len_of(&self, chain: &Chain) -> u32
        ensures { result ≡ filled self.now.most chain.now }
    {
        chain.writable().min(self.most as u64) as u32
    }

    /// Serves the next chain: whether one lay there.
    fn serve_next<L: Layout>(&self, ring: &mut PlainRing<L>) -> bool
        requires { IsReady ring.old }
        ensures ready { IsReady ring.new }
        ensures served { IsServed self.now.most ring.old.lists ring.new.lists (count_of result) }
        ensures none { result ≡ false → ring.new.lists.taken ≡ ring.new.lists.offered }
        ensures same { IsDeviceMove ring.old ring.new }
    {
        let Some(DeviceAct::Taken(number, chain)) = ring.take() else {
            return false;
        };
        let len = self.len_of(&chain);
        if ring.give(number, len).is_none() {
            unreachable!()
        }
        true
    }

    /// Serves the chains that lie on the ring, at most `count` of them: how many it served.
    pub fn serve<L: Layout>(&self, ring: &mut PlainRing<L>, count: u32) -> u32
        requires { IsReady ring.old }
        ensures ready { IsReady ring.new }
        ensures served { IsServed self.now.most ring.old.lists ring.new.lists result }
        ensures all { result < count → ring.new.lists.taken ≡ ring.new.lists.offered }
        ensures same { IsDeviceMove ring.old ring.new }
    {
        for served in 0..count {
            if !self.serve_next(ring) {
                return served;
            }
        }
        count
    }
}
