//! The block that each frame holds, and chains by which the frame of a block is found.
ghost use Rattle.std.specs.Prelude.{◌≡◌, ◌+◌, ◌*◌, ◌<◌, ◌≤◌, ◌^◌, ℕ, None, Some, IfOk, IfSome, length, replicate, slice_set, true};
ghost use Rattle.cola_cache.specs.Index.{block_in, chain_of, AreChained, IsAbove};

use std::alloc::{AllocError, Global};
use std::boxed::BoxedSlice;
use std::marker::Model;

/// The block that each frame holds, by the frames' numbers. Each block belongs to one of a fixed number of chains; the
/// frames of a chain are linked, from the highest number down.
#[derive(Drop)]
pub(crate) struct BlockIndex {
    blocks: BoxedSlice<Option<u64>>,
    /// A link for each frame, and behind them one for each chain, to its first frame. A link is one more than a frame's
    /// number, or 0 where the chain ends.
    links: BoxedSlice<u32>,
}

impl Model for BlockIndex {
    ghost use Rattle.std.specs.Box.{boxed_slice_items};
    ghost use Rattle.cola_cache.specs.Index.{Blocks, AreChained};

    ghost Value = { Blocks };

    ghost view = { λ i. boxed_slice_items i.blocks };

    ghost invariant = { λ i. AreChained (boxed_slice_items i.blocks) (boxed_slice_items i.links) };
}

/// The chain that a block belongs to, where there are so many frames.
fn chain_of_block(block: u64, count: usize) -> usize
    requires { count < 2 ^ 32 }
    ensures is { result ≡ chain_of count block }
    ensures within { result < 2 * count + 1 }
{
    (block % (2 * count as u64 + 1)) as usize
}

/// Where the block's chain passes this frame.
fn place_above(blocks: &[Option<u64>], links: &[u32], block: u64, frame: u32) -> usize
    requires chained { AreChained blocks.now links.now }
    requires inside { frame < length blocks.now }
    ensures above { IsAbove blocks.now links.now block frame result }
    ensures within { result < length links.now }
{
    let mut place = blocks.len() + chain_of_block(block, blocks.len());
    while links[place] > frame + 1 {
        place = links[place] as usize - 1;
    }
    place
}

/// The frame that holds a block.
fn frame_of(blocks: &[Option<u64>], links: &[u32], block: u64) -> Option<u32>
    requires { AreChained blocks.now links.now }
    ensures some { IfSome result (λ frame. block_in blocks.now frame ≡ Some block) }
    ensures none { result ≡ None → (frame : ℕ) → block_in blocks.now frame ≡ Some block → ⊥ }
{
    let mut link = links[blocks.len() + chain_of_block(block, blocks.len())];
    while link > 0 {
        let frame = link - 1;
        let held = blocks[frame as usize];
        if held == Some(block) {
            return Some(frame);
        }
        link = links[frame as usize];
    }
    None
}

impl BlockIndex {
    /// So many frames that hold no block. All memory is taken here.
    pub(crate) fn new(alloc: Global, count: u32) -> Result<BlockIndex, AllocError>
        ensures { IfOk result (λ index. index ≡ replicate count None) }
    {
        let blocks = vec![in alloc; None; count as usize]?.into_boxed_slice();
        let links = vec![in alloc; 0u32; 3 * count as usize + 1]?.into_boxed_slice();
        Ok(BlockIndex { blocks, links })
    }

    /// The frame that holds a block.
    pub(crate) fn find(&self, block: u64) -> Option<u32>
        ensures some { IfSome result (λ frame. block_in self.now frame ≡ Some block) }
        ensures none { result ≡ None → (frame : ℕ) → block_in self.now frame ≡ Some block → ⊥ }
    {
        frame_of(&self.blocks, &self.links, block)
    }

    /// Whether this frame holds a block.
    pub(crate) fn has(&self, block: u64, frame: u32) -> bool
        ensures { result ≡ true → block_in self.now frame ≡ Some block }
    {
        if frame as usize >= self.blocks.len() {
            return false;
        }
        let held = self.blocks[frame as usize];
        held == Some(block)
    }

    /// Lists a block with a frame that holds none.
    pub(crate) fn insert(&mut self, block: u64, frame: u32)
        requires inside { frame < length self.old }
        requires free { block_in self.old frame ≡ None }
        ensures { self.new ≡ slice_set self.old frame (Some block) }
    {
        let place = place_above(&self.blocks, &self.links, block, frame);
        self.links[frame as usize] = self.links[place];
        self.links[place] = frame + 1;
        self.blocks[frame as usize] = Some(block);
    }

    /// Lists the block of a frame no longer.
    pub(crate) fn remove(&mut self, block: u64, frame: u32)
        requires inside { frame < length self.old }
        requires held { block_in self.old frame ≡ Some block }
        ensures { self.new ≡ slice_set self.old frame None }
    {
        let place = place_above(&self.blocks, &self.links, block, frame);
        self.links[place] = self.links[frame as usize];
        self.blocks[frame as usize] = None;
    }
}
