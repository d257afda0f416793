// The words of a frame at its start.
ghost use Rattle.std.specs.Prelude.{◌≡◌, ◌+◌, ◌*◌, IfOk};
ghost use Rattle.abuf_frame.specs.Words.{AreInitial, IsInitial, Sized};

use abuf_num::NoMemory;
use std::alloc::Global;
use std::marker::Model;

/// The words of a frame of so many pixels and nodes at its start. They may be laid out by a thread of their own.
#[derive(Drop)]
pub struct InitialWords {
    words: Vec<u64>,
    pub(crate) pixels: u32,
    pub(crate) nodes: u32,
}

impl Model for InitialWords {
    ghost use Rattle.std.specs.Prelude.{◌≡◌};
    ghost use Rattle.abuf_frame.specs.Words.{IsInitial, Sized};
    ghost use Rattle.abuf_frame.specs.declared.view.FrameSize.{FrameSize};

    ghost Value = { FrameSize };

    ghost view = { λ b. record { pixels = b.pixels; nodes = b.nodes } };

    ghost invariant = { λ b. Sized b.pixels b.nodes × IsInitial b.pixels b.nodes b.words.items };
}

/// 64 nodes as they are at the start.
fn initial_row() -> [u64; 128]
    ensures { AreInitial 64 result }
{
    let mut row = [0; 128];
    for n in 0..64 {
        row[2 * n + 1] = u64::MAX;
    }
    row
}

/// The words at the start. Each is written once, since a pool takes tens of megabytes, and by wide stores, a row of nodes at a
/// time.
fn initial_vec(alloc: Global, pixels: u32, nodes: u32) -> Result<Vec<u64>, NoMemory>
    requires { Sized pixels nodes }
    ensures { IfOk result (λ v. IsInitial pixels nodes v.items) }
{
    let payloads = 1 + pixels as usize;
    let nodes = nodes as usize;
    let mut words = Vec::with_capacity(alloc, payloads + 2 * nodes)?;
    words.resize(payloads, 0)?;
    let row = initial_row();
    for _ in 0..nodes / 64 {
        words.extend_from_slice(&row)?;
    }
    words.extend_from_slice(&row[..2 * (nodes % 64)])?;
    Ok(words)
}

impl InitialWords {
    /// For a frame of 1 to 4194304 pixels and of 1 to 8388608 nodes. It takes 8 bytes a pixel and 16 a node.
    pub fn new(alloc: Global, pixels: u32, nodes: u32) -> Result<InitialWords, NoMemory>
        requires { Sized pixels nodes }
        ensures { IfOk result (λ b. (b.pixels ≡ pixels) × (b.nodes ≡ nodes)) }
    {
        Ok(InitialWords {
            words: initial_vec(alloc, pixels, nodes)?,
            pixels,
            nodes,
        })
    }

    pub(crate) fn words(&self) -> &[u64]
        ensures words { IsInitial self.now.pixels self.now.nodes result.now }
        ensures sized { Sized self.now.pixels self.now.nodes }
    {
        &self.words
    }
}
