// A frame that is drawn.
ghost use Rattle.std.specs.Prelude.{◌≡◌, ◌<◌, ◌≤◌, IfOk, IfSome, IfNone, length, []};
ghost use Rattle.abuf_num.specs.declared.limits.TheConstants.{MAX_NODES};
ghost use Rattle.abuf_frame.specs.Views.{whole_view};

pub(crate) mod lanes;

use crate::frame::Frame;
use crate::frozen_words::FrozenWords;
use crate::pass::Pass;
use crate::reader::ListReader;
use abuf_num::NoMemory;
use std::alloc::Global;
use std::marker::Model;

/// A frame that is drawn: its lists don't change any more. A `&Closed` may be shared between threads.
#[derive(Drop)]
pub struct Closed {
    pub(crate) words: FrozenWords,
    pub(crate) pixels: u32,
    /// How many nodes the words have, which is the most that a walk can pass.
    pub(crate) table_nodes: u32,
    /// How many the pool has: `full` compares with these.
    pub(crate) nodes: u32,
    pub(crate) fragments: u64,
}

impl Model for Closed {
    ghost use Rattle.abuf_frame.specs.Closing.{Ended, Kept, lists_from};
    ghost use Rattle.abuf_frame.specs.Words.{Sized};

    ghost Value = { Ended };

    ghost view = { λ c. record { lists = lists_from c.words c.pixels c.table_nodes 0 c.pixels; pixels = c.pixels; nodes = c.nodes; fragments = c.fragments } };

    ghost invariant = { λ c. Kept c.words c.pixels c.table_nodes × Sized c.pixels c.nodes };
}

/// More fragments were drawn than the frame has nodes, so some were lost.
#[derive(Drop)]
pub struct Full {
    /// How many nodes would have held them all.
    pub fragments: u64,
    /// How many nodes it has.
    pub nodes: u32,
}

impl Closed {
    /// The number of pixels, each of which has a list.
    pub fn pixels(&self) -> u32
        ensures value { result ≡ self.now.pixels }
        ensures lists { length self.now.lists ≡ result }
    {
        self.pixels
    }

    /// The number of nodes of its pool.
    pub fn nodes(&self) -> u32
        ensures { result ≡ self.now.nodes }
    {
        self.nodes
    }

    /// How many entries there were, Linked and Lost.
    pub fn fragments(&self) -> u64
        ensures { result ≡ self.now.fragments }
    {
        self.fragments
    }

    /// Returns `Some` exactly if there were more fragments than nodes.
    pub fn full(&self) -> Option<Full>
        ensures some { IfSome result (λ f. (self.now.nodes < self.now.fragments) × (f.fragments ≡ self.now.fragments) × (f.nodes ≡ self.now.nodes)) }
        ensures none { IfNone result (self.now.fragments ≤ self.now.nodes) }
    {
        if self.fragments > self.nodes as u64 {
            Some(Full {
                fragments: self.fragments,
                nodes: self.nodes,
            })
        } else {
            None
        }
    }

    /// The closed frame of a pool of more nodes into which the same entries were drawn. A node that was never claimed is in no
    /// list, so a frame needn't be made with more nodes than can be claimed.
    pub fn in_larger_pool(self, nodes: u32) -> Closed
        requires not_full { self.fragments ≤ self.nodes }
        requires more { (self.nodes ≤ nodes) × (nodes ≤ MAX_NODES) }
        ensures same { (result.lists ≡ self.lists) × (result.pixels ≡ self.pixels) × (result.fragments ≡ self.fragments) }
        ensures nodes { result.nodes ≡ nodes }
    {
        Closed { nodes, ..self }
    }

    /// A frame of as many pixels and nodes, whose lists are empty, with its whole pass, as `Frame::start` gives them. The words of
    /// this one are freed first, so that their memory serves for it. After `NoMemory` there is no frame.
    pub fn reopen(self, alloc: Global) -> Result<(Frame, Pass), NoMemory>
        ensures { IfOk result (λ r. (r.0.pixels ≡ self.pixels) × (r.0.nodes ≡ self.nodes) × (r.1.frame ≡ r.0) × (r.1.view ≡ whole_view)) }
    {
        let Closed {
            words,
            pixels,
            table_nodes: _,
            nodes,
            fragments: _,
        } = self;
        drop(words);
        Frame::start(alloc, pixels, nodes)
    }

    /// A reader of the lists, which has read none yet. It copies those of sixteen pixels that follow each other at a time.
    pub fn reader<'a>(&'a self, alloc: Global) -> ListReader<'a>
        ensures frame { result.frame ≡ self.now }
        ensures list { result.list ≡ [] }
    {
        ListReader::new(self, alloc, 8)
    }

    /// A reader for pixels that are read by pairs of rows of this width, eight pixels of the upper row and then the eight below
    /// them. It copies the lists of these sixteen at a time.
    pub fn row_reader<'a>(&'a self, alloc: Global, width: u32) -> ListReader<'a>
        ensures frame { result.frame ≡ self.now }
        ensures list { result.list ≡ [] }
    {
        ListReader::new(self, alloc, width)
    }
}
