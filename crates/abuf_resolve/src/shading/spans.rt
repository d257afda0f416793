// The sums of pixels that follow each other.
ghost use Rattle.std.specs.Prelude.{◌≡◌, ℕ, List as Items, ◌+◌, ◌*◌, ◌^◌, ◌++◌, ◌∷◌, [], ◌<◌, ◌≤◌, max, length, IfOk, OnOk};
ghost use Rattle.std.specs.List.{range_with_len, All};
ghost use Rattle.abuf_num.specs.declared.limits.TheConstants.{MAX_PIXELS};
ghost use Rattle.abuf_raster.specs.Samples.{offsets_of};
ghost use Rattle.abuf_resolve.specs.Laws.{x_at, y_at};
ghost use Rattle.abuf_resolve.specs.Spans.{IsOffset, AreSpanSums, CanRead};
ghost use Rattle.abuf_resolve.specs.Shading.{sum_of_list};
ghost use Rattle.abuf_resolve.specs.Sums.{IsSmall};
ghost use Rattle.abuf_resolve.specs.Words.{AreFragmentLists, IsFragmentAt};

use crate::shading::pixels::Buffers;
use crate::shading::{Pixel, Shading};
use abuf_frame::{Closed, ListReader};
use abuf_num::{List, NoMemory, PixelSum};
use abuf_raster::{Region, region_law};
use std::alloc::Global;
use std::marker::Model;

/// What resolving gives.
#[derive(Drop)]
pub struct Resolved {
    /// For each pixel the sums over its samples.
    pub sums: List<PixelSum>,
    /// The length of the longest list of a pixel.
    pub longest: usize,
}

/// What there is of it so far. Clauses see what it becomes.
#[derive(Drop)]
struct Collected {
    sums: Vec<PixelSum>,
    longest: usize,
}

impl Model for Collected {
    ghost use Rattle.abuf_resolve.specs.declared.shading.spans.Resolved.{Resolved};

    ghost Value = { Resolved };

    ghost view = { λ c. record { sums = c.sums.items; longest = c.longest } };
}

impl Collected {
    /// No pixels, with memory for so many.
    fn with_capacity(alloc: Global, count: u32) -> Result<Collected, NoMemory>
        ensures sums { IfOk result (λ c. c.sums ≡ []) }
        ensures longest { IfOk result (λ c. c.longest ≡ 0) }
    {
        Ok(Collected {
            sums: Vec::with_capacity(alloc, count as usize)?,
            longest: 0,
        })
    }

    /// One pixel more, whose list has this length.
    fn push(&mut self, sum: PixelSum, length: usize) -> Result<(), NoMemory>
        ensures sums { OnOk result (self.new.sums ≡ self.old.sums ++ sum ∷ []) }
        ensures longest { OnOk result (self.new.longest ≡ max self.old.longest length) }
    {
        self.sums.push(sum)?;
        self.longest = self.longest.max(length);
        Ok(())
    }

    /// The pixels of the other more, which has none then, and keeps its memory.
    fn append(&mut self, other: &mut Collected) -> Result<(), NoMemory>
        ensures sums { OnOk result (self.new.sums ≡ self.old.sums ++ other.old.sums) }
        ensures longest { OnOk result (self.new.longest ≡ max self.old.longest other.old.longest) }
        ensures none { OnOk result ((other.new.sums ≡ []) × (other.new.longest ≡ 0)) }
    {
        self.sums.append(&mut other.sums)?;
        self.longest = self.longest.max(other.longest);
        other.longest = 0;
        Ok(())
    }

    fn into_resolved(self) -> Resolved
        ensures { result ≡ self }
    {
        let Collected { sums, longest } = self;
        Resolved {
            sums: List::from_vec(sums),
            longest,
        }
    }
}

/// Pixels that follow each other: so many from this place on.
#[derive(Clone, Copy)]
pub(crate) struct Span {
    pub(crate) from: u32,
    pub(crate) count: u32,
}

/// How far a pixel lies from the corner of its region.
#[derive(Clone, Copy)]
pub(crate) struct Offset {
    pub(crate) column: u32,
    pub(crate) row: u32,
}

impl Offset {
    /// That of the pixel at this place of a region of this width.
    fn of(width: u32, place: u32) -> Offset
        requires { 0 < width }
        ensures { IsOffset width place result }
    {
        Offset {
            column: place % width,
            row: place / width,
        }
    }

    /// That of the next pixel, which takes no division.
    #[inline(always)]
    fn next(self, width: u32) -> Offset
        requires column { self.column < width }
        requires row { self.row + 1 < 2 ^ 32 }
        ensures { (place : ℕ) → IsOffset width place self → IsOffset width (place + 1) result }
    {
        if self.column + 1 < width {
            Offset {
                column: self.column + 1,
                row: self.row,
            }
        } else {
            Offset {
                column: 0,
                row: self.row + 1,
            }
        }
    }
}

/// What a worker reads lists with and sums pixels with.
#[derive(Drop)]
struct Reading<'a> {
    reader: ListReader<'a>,
    buffers: Buffers,
}

/// The sums of two lines of pixels while they are read side by side: those of the lower one stay apart until the upper one is done.
#[derive(Drop)]
struct Lines {
    all: Collected,
    lower: Collected,
}

impl<'a, 'b> Shading<'a, 'b> {
    /// The sums of the pixel at one place of a region, from its list.
    fn place_sum(
        &self,
        buffers: &mut Buffers,
        region: Region,
        place: u32,
        offset: Offset,
        list: &[u64],
    ) -> Result<PixelSum, NoMemory>
        requires place { place < region.w * region.h }
        requires offset { IsOffset region.w place offset }
        requires words { All (IsFragmentAt (offsets_of self.now.pattern) self.now.planes (x_at region place) (y_at region place)) list.now }
        ensures value { IfOk result (λ sum. sum ≡ sum_of_list self.now region place list.now) }
        ensures small { IfOk result (λ sum. IsSmall (length (offsets_of self.now.pattern)) sum) }
    {
        let at = Pixel {
            x: region.x0() + offset.column,
            y: region.y0() + offset.row,
        };
        self.pixel_sum(buffers, list, at)
    }

    /// The sums of these pixels more.
    fn add_places(
        &self,
        reading: &mut Reading,
        region: Region,
        span: Span,
        to: &mut Collected,
    ) -> Result<(), NoMemory>
        requires reads { CanRead self.now region reading.old.reader.frame }
        requires span { span.from + span.count ≤ region.w * region.h }
        ensures reads { reading.new.reader.frame ≡ reading.old.reader.frame }
        ensures sums { IfOk result (λ _. (places : Items ℕ) → AreSpanSums self.now region reading.old.reader.frame.lists places to.old
            → AreSpanSums self.now region reading.old.reader.frame.lists (places ++ range_with_len span.from span.count) to.new) }
    {
        region_law(region);
        let mut offset = Offset::of(region.w(), span.from);
        for i in 0..span.count {
            let place = span.from + i;
            reading.reader.read(place)?;
            let list = reading.reader.list();
            let sum = self.place_sum(&mut reading.buffers, region, place, offset, list)?;
            to.push(sum, list.len())?;
            let next = offset.next(region.w());
            offset = next;
        }
        Ok(())
    }

    /// The sums of the pixels of two lines more. The second follows the first, and may be shorter. Eight pixels of each are read in turn.
    fn add_lines(
        &self,
        reading: &mut Reading,
        region: Region,
        span: Span,
        line: u32,
        lines: &mut Lines,
    ) -> Result<(), NoMemory>
        requires reads { CanRead self.now region reading.old.reader.frame }
        requires span { span.from + span.count ≤ region.w * region.h }
        requires two { span.count ≤ 2 * line }
        requires none { (lines.old.lower.sums ≡ []) × (lines.old.lower.longest ≡ 0) }
        ensures reads { reading.new.reader.frame ≡ reading.old.reader.frame }
        ensures none { IfOk result (λ _. (lines.new.lower.sums ≡ []) × (lines.new.lower.longest ≡ 0)) }
        ensures sums { IfOk result (λ _. (places : Items ℕ) → AreSpanSums self.now region reading.old.reader.frame.lists places lines.old.all
            → AreSpanSums self.now region reading.old.reader.frame.lists (places ++ range_with_len span.from span.count) lines.new.all) }
    {
        let upper = span.count.min(line);
        let lower = span.count - upper;
        let mut done = 0;
        while done < upper {
            let here = Span {
                from: span.from + done,
                count: (upper - done).min(8),
            };
            self.add_places(reading, region, here, &mut lines.all)?;
            if done < lower {
                let below = Span {
                    from: span.from + upper + done,
                    count: (lower - done).min(8),
                };
                self.add_places(reading, region, below, &mut lines.lower)?;
            }
            done += here.count;
        }
        lines.all.append(&mut lines.lower)?;
        Ok(())
    }

    /// The sums of these pixels, and the length of the longest of their lists. They are read by pairs of lines of so many pixels.
    pub(crate) fn span_sums(
        &self,
        alloc: Global,
        closed: &Closed,
        region: Region,
        span: Span,
        line: u32,
    ) -> Result<Resolved, NoMemory>
        requires reads { CanRead self.now region closed.now }
        requires span { span.from + span.count ≤ region.w * region.h }
        requires line { (1 ≤ line) × (line ≤ MAX_PIXELS) }
        ensures { IfOk result (λ span_sums. AreSpanSums self.now region closed.now.lists (range_with_len span.from span.count) span_sums) }
    {
        let mut lines = Lines {
            all: Collected::with_capacity(alloc, span.count)?,
            lower: Collected::with_capacity(alloc, 0)?,
        };
        let mut reading = Reading {
            reader: closed.row_reader(alloc, line),
            buffers: Buffers::new(alloc),
        };
        let mut done = 0;
        while done < span.count {
            let two = Span {
                from: span.from + done,
                count: (span.count - done).min(2 * line),
            };
            self.add_lines(&mut reading, region, two, line, &mut lines)?;
            done += two.count;
        }
        let Lines { all, lower: _ } = lines;
        Ok(all.into_resolved())
    }
}
