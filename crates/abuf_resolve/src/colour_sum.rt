// The sums over a pixel's samples, where sets of them have one colour.
ghost use Rattle.std.specs.Prelude.{◌≡◌, ℕ, List as Items, ◌+◌, ◌-◌, ◌*◌, ◌≤◌, bit_and};
ghost use Rattle.std.specs.Int.{bit_not, w32};
ghost use Rattle.abuf_resolve.specs.Sums.{plus_times, summed, IsSmall};
ghost use Rattle.abuf_resolve.specs.ColourSum.{HaveColour, Holds, IsFair};

use abuf_num::PixelSum;

/// The sums of the colours of some of so many samples, and the others, which are left, as a mask.
#[derive(Clone, Copy)]
pub(crate) struct ColourSum {
    pub(crate) samples: u32,
    pub(crate) sums: PixelSum,
    pub(crate) rest: u32,
}

/// A channel's sum with so many samples more of this value.
fn channel_with(sum: u32, count: u32, value: u16) -> u32
    requires few { count ≤ 16 }
    requires small { sum ≤ 65535 * (16 - count) }
    ensures value { result ≡ sum + count * value }
    ensures small { (n : ℕ) → sum ≤ 65535 * n → result ≤ 65535 * (n + count) }
{
    sum + count * u32::from(value)
}

/// The sums with so many samples more of this colour.
fn sums_with(sums: PixelSum, count: u32, colour: [u16; 3]) -> PixelSum
    requires few { count ≤ 16 }
    requires small { IsSmall (16 - count) sums }
    ensures value { result ≡ plus_times sums count colour }
    ensures small { (n : ℕ) → IsSmall n sums → IsSmall (n + count) result }
{
    PixelSum {
        channels: [
            channel_with(sums.channels[0], count, colour[0]),
            channel_with(sums.channels[1], count, colour[1]),
            channel_with(sums.channels[2], count, colour[2]),
        ],
    }
}

impl ColourSum {
    /// No sample is added yet.
    #[inline(always)]
    pub(crate) fn new(samples: u32) -> ColourSum
        requires { samples ≤ 16 }
        ensures samples { result.samples ≡ samples }
        ensures fair { IsFair result }
        ensures holds { (colours : ℕ → Items ℕ) → Holds colours result }
    {
        ColourSum {
            samples,
            sums: PixelSum { channels: [0; 3] },
            rest: (1 << samples) - 1,
        }
    }

    /// Adds the samples of a set that are left, all of which have this colour.
    #[inline(always)]
    pub(crate) fn with(self, set: u32, colour: [u16; 3]) -> ColourSum
        requires { IsFair self }
        ensures samples { result.samples ≡ self.samples }
        ensures left { result.rest ≡ bit_and self.rest (bit_not w32 set) }
        ensures fair { IsFair result }
        ensures holds { (colours : ℕ → Items ℕ) → Holds colours self → HaveColour colours self set colour → Holds colours result }
    {
        let count = (self.rest & set).count_ones();
        ColourSum {
            samples: self.samples,
            sums: sums_with(self.sums, count, colour),
            rest: self.rest & !set,
        }
    }

    /// The sums, where no sample is left.
    #[inline(always)]
    pub(crate) fn all(self) -> PixelSum
        requires fair { IsFair self }
        requires all { self.rest ≡ 0 }
        ensures value { (colours : ℕ → Items ℕ) → Holds colours self → result ≡ summed colours self.samples }
        ensures small { IsSmall self.samples result }
    {
        self.sums
    }

    /// The sums, where all that are left have this colour.
    #[inline(always)]
    pub(crate) fn all_with(self, colour: [u16; 3]) -> PixelSum
        requires { IsFair self }
        ensures value { (colours : ℕ → Items ℕ) → Holds colours self → HaveColour colours self self.rest colour →
            result ≡ summed colours self.samples }
        ensures small { IsSmall self.samples result }
    {
        self.with(self.rest, colour).all()
    }
}
