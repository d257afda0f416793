// The frame, its start and its end.
ghost use Rattle.std.specs.Prelude.{◌≡◌, ℕ, ◌-◌, ◌<◌, ◌≤◌, IfOk, IsPermutation, List, length};
ghost use Rattle.abuf_frame.specs.Chains.{IsListAt};
ghost use Rattle.abuf_frame.specs.Closing.{AllSeen, list_at};
ghost use Rattle.abuf_frame.specs.Draws.{pairs, payloads_at};
ghost use Rattle.abuf_frame.specs.Views.{IsSettled, IsWhole, lost, whole_view};
ghost use Rattle.abuf_frame.specs.Words.{IsInitial, Sized};

use crate::closed::Closed;
use crate::frozen_words::FrozenWords;
use crate::initial_words::InitialWords;
use crate::pass::Pass;
use crate::rule::FrameRule;
use crate::view::{FrameSize, View};
use abuf_num::NoMemory;
use atomic_table::Table;
use std::alloc::Global;
use std::marker::Model;

/// The credit that all passes share.
pub(crate) const WHOLE: u64 = 1 << 60;

/// A list of fragments for each pixel, in one table of words that many threads change by atomic steps. A `&Frame` may be shared
/// between threads.
pub struct Frame {
    pub(crate) table: Table<(), View, FrameSize, FrameRule, Global>,
    pub(crate) pixels: u32,
    pub(crate) nodes: u32,
}

impl Model for Frame {
    ghost use Rattle.abuf_frame.specs.Frame.{Fits, Shape};

    ghost Value = { Shape };

    ghost view = { λ f. record { table = f.table.shared.table_id; pixels = f.pixels; nodes = f.nodes } };

    ghost invariant = { λ f. Fits f.table.shared.table_id f.table.shared.key f.pixels f.nodes };
}

impl Frame {
    /// A frame with these words, and its whole pass.
    fn of_words(
        alloc: Global,
        words: &[u64],
        pixels: u32,
        nodes: u32,
    ) -> Result<(Frame, Pass), NoMemory>
        requires sized { Sized pixels nodes }
        requires initial_words { IsInitial pixels nodes words.now }
        ensures { IfOk result (λ r. (r.0.pixels ≡ pixels) × (r.0.nodes ≡ nodes) × (r.1.frame ≡ r.0) × (r.1.view ≡ whole_view)) }
    {
        let size = FrameSize { pixels, nodes };
        let (table, seat) = Table::of_words(alloc, words, &size)?;
        let frame = Frame {
            table,
            pixels,
            nodes,
        };
        let pass = Pass {
            seat,
            credit: WHOLE,
            own: 0,
            loose: 0,
            pixels,
            nodes,
        };
        Ok((frame, pass))
    }

    /// A frame of 1 to 4194304 pixels, whose lists are empty, and of 1 to 8388608 nodes, with its whole pass, which has no
    /// entries. It keeps one block of 8 bytes a pixel and 16 a node, and takes a second one while it lays out the first; no call on
    /// the frame or a pass takes memory after it.
    pub fn start(alloc: Global, pixels: u32, nodes: u32) -> Result<(Frame, Pass), NoMemory>
        requires { Sized pixels nodes }
        ensures { IfOk result (λ r. (r.0.pixels ≡ pixels) × (r.0.nodes ≡ nodes) × (r.1.frame ≡ r.0) × (r.1.view ≡ whole_view)) }
    {
        let initial_words = InitialWords::new(alloc, pixels, nodes)?;
        Frame::start_from(alloc, &initial_words)
    }

    /// Like [`start`](Frame::start), from words that were laid out before. They are copied, so that no second block is taken.
    pub fn start_from(
        alloc: Global,
        initial_words: &InitialWords,
    ) -> Result<(Frame, Pass), NoMemory>
        ensures { IfOk result (λ r. (r.0.pixels ≡ initial_words.now.pixels) × (r.0.nodes ≡ initial_words.now.nodes)
            × (r.1.frame ≡ r.0) × (r.1.view ≡ whole_view)) }
    {
        Frame::of_words(
            alloc,
            initial_words.words(),
            initial_words.pixels,
            initial_words.nodes,
        )
    }
    /// Ends the drawing. The pass has to be whole, so that every other was joined into it, and settled. Each list is the walk
    /// from its head, along the old heads that the entries keep. Closing takes constant time: the words stay where they are.
    pub fn close(self, pass: Pass) -> Closed
        requires frame { pass.frame ≡ self }
        requires whole { IsWhole pass.view }
        requires settled { IsSettled pass.view }
        ensures sizes { (result.pixels ≡ self.pixels) × (result.nodes ≡ self.nodes) × (length result.lists ≡ self.pixels) }
        ensures fragments { result.fragments ≡ length pass.view.entries }
        ensures lists { (p : ℕ) → p < self.pixels → IsPermutation (list_at result p) (payloads_at p (pairs pass.view.entries)) }
        ensures kept { length pass.view.entries ≤ self.nodes → lost pass.view.entries ≡ 0 }
        ensures lost { lost pass.view.entries ≡ length pass.view.entries - self.nodes }
        ensures walks { AllSeen result.lists pass.view.walks }
        ensures chains { (p : ℕ) → p < self.pixels → IsListAt p pass.view.entries (list_at result p) }
        ensures only { (p : ℕ) → p < self.pixels → (l : List ℕ) → IsListAt p pass.view.entries l → l ≡ list_at result p }
    {
        let Frame {
            table,
            pixels,
            nodes,
        } = self;
        let Pass {
            seat,
            credit: _,
            own: fragments,
            loose: _,
            pixels: _,
            nodes: _,
        } = pass;
        Closed {
            words: FrozenWords::new(table.close_with(seat)),
            pixels,
            table_nodes: nodes,
            nodes,
            fragments,
        }
    }
}
