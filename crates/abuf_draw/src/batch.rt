// Items that wait for their claim.
ghost use Rattle.std.specs.Prelude.{◌≡◌, ℕ, ◌+◌, ◌*◌, ◌<◌, ◌≤◌, ◌↔◌, IsTrue, List, [], ◌∷◌, ◌++◌, length, take, map, All};
ghost use Rattle.abuf_raster.specs.Hits.{IsHitIn, placed};

use abuf_raster::{Hit, Region, pack};
use std::marker::Model;

/// Up to 64 items, each a pixel and a payload.
#[derive(Drop)]
pub(crate) struct Batch {
    items: [(u32, u64); 64],
    count: usize,
}

impl Model for Batch {
    ghost Value = { List (ℕ × ℕ) };

    ghost view = { λ b. take b.count b.items };

    ghost invariant = { λ b. (b.count ≤ 64) × (length b.items ≡ 64) };
}

/// The place of a hit in the region, and its packed fragment.
#[inline(always)]
fn item(region: Region, hit: Hit) -> (u32, u64)
    requires within { IsHitIn region hit }
    ensures item { result ≡ placed region hit }
    ensures place { result.0 < region.w * region.h }
{
    let row = hit.y - region.y0();
    let column = hit.x - region.x0();
    (row * region.w() + column, pack(hit.fragment))
}

impl Batch {
    pub(crate) fn new() -> Batch
        ensures { result ≡ [] }
    {
        Batch {
            items: [(0, 0); 64],
            count: 0,
        }
    }

    /// Puts the item last.
    #[inline(always)]
    fn push(&mut self, item: (u32, u64))
        requires { length self.old < 64 }
        ensures { self.new ≡ self.old ++ item ∷ [] }
    {
        self.items[self.count] = item;
        self.count += 1;
    }

    pub(crate) fn clear(&mut self)
        ensures { self.new ≡ [] }
    {
        self.count = 0;
    }

    /// Whether so many more find room.
    #[inline(always)]
    pub(crate) fn has_room(&self, count: usize) -> bool
        requires { count ≤ 64 }
        ensures { IsTrue result ↔ (length self.now + count ≤ 64) }
    {
        self.count + count <= 64
    }

    /// Puts the items of these hits last.
    #[inline(always)]
    pub(crate) fn add(&mut self, region: Region, hits: &[Hit])
        requires within { All (IsHitIn region) hits.now }
        requires room { length self.old + length hits.now ≤ 64 }
        requires places { All (λ x. x.0 < region.w * region.h) self.old }
        ensures items { self.new ≡ self.old ++ map (placed region) hits.now }
        ensures places { All (λ x. x.0 < region.w * region.h) self.new }
    {
        for hit in hits {
            self.push(item(region, *hit));
        }
    }

    pub(crate) fn as_slice(&self) -> &[(u32, u64)]
        ensures items { result.now ≡ self.now }
        ensures few { length result.now ≤ 64 }
    {
        &self.items[..self.count]
    }
}
