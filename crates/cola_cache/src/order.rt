//! The frames of a cache in the order of their last use, and the blocks that they hold.
ghost use Rattle.std.specs.Prelude.{◌≡◌, ℕ, ◌+◌, ◌^◌, false, ◌≤◌, ◌<◌, ◌≢◌, [], ◌∷◌, None, Some, option_map, IfOk, IfSome, OnOk, length, nat_eq, IsSome};
ghost use Rattle.std.specs.Map.{lookup, remove_entry};
ghost use Rattle.lru.specs.LruCache.{lru_cache, last_entry};
ghost use Rattle.std.specs.NonZero.{non_zero_usize_get};
ghost use Rattle.cola_cache.specs.Order.{blocks_of, Holds, IsAbsent, IsOrder, AreBelow, is_within, outside, without, unheld};
ghost use Rattle.cola_cache.specs.Cache.{used};

use crate::index::BlockIndex;
use lru::LruCache;
use std::alloc::{AllocError, Global};
use std::marker::Model;
use std::num::NonZeroUsize;

/// The frames of a cache, by number. Each holds a block, by number, or none, and those that hold none come last.
#[derive(Drop)]
pub(crate) struct Order {
    slots: LruCache<u32, Option<u64>>,
    /// The blocks that the slots hold, to be found by.
    index: BlockIndex,
    count: u32,
}

impl Model for Order {
    ghost use Rattle.std.specs.Prelude.{◌≡◌, ◌≤◌, length};
    ghost use Rattle.cola_cache.specs.Order.{Frames, IsOrder, AreBelow};
    ghost use Rattle.cola_cache.specs.Index.{IsIndexOf};

    ghost Value = { Frames };

    ghost view = { λ o. o.slots.entries };

    ghost invariant = { λ o. IsOrder o.slots.entries × AreBelow o.count o.slots.entries × (length o.slots.entries ≡ o.count)
        × IsIndexOf o.index o.slots.entries × (length o.index ≡ o.count) };
}

/// Gives a frame that is there another block, or none. It comes to the front.
fn place(slots: &mut LruCache<u32, Option<u64>>, frame: u32, held: Option<u64>)
    requires { IsSome (lookup (nat_eq frame) slots.old.entries) }
    ensures { slots.new ≡ lru_cache ((frame, held) ∷ remove_entry (nat_eq frame) slots.old.entries) slots.old.cap }
{
    // A frame that is there is replaced in place, which takes no memory.
    let _ = slots.put(frame, held);
}

/// As many frames as there are, and room for one where there is none.
fn at_least_one(count: u32) -> NonZeroUsize
    ensures { count ≤ non_zero_usize_get result }
{
    match NonZeroUsize::new(count as usize) {
        Some(count) => count,
        None => NonZeroUsize::MIN,
    }
}

/// The frame that was not used for longest.
fn last_of(slots: &LruCache<u32, Option<u64>>) -> u32
    requires { 0 < length slots.now.entries }
    ensures { option_map (λ entry. entry.0) (last_entry slots.now.entries) ≡ Some result }
{
    match slots.peek_lru() {
        Some((frame, _)) => *frame,
        None => 0,
    }
}

impl Order {
    /// So many frames that hold no block. All memory is taken here.
    pub(crate) fn new(alloc: Global, count: u32) -> Result<Order, AllocError>
        ensures { IfOk result (λ order. order ≡ unheld count) }
    {
        let mut slots = LruCache::new(alloc, at_least_one(count))?;
        for frame in 0..count {
            slots.put(frame, None)?;
        }
        let index = BlockIndex::new(alloc, count)?;
        Ok(Order {
            slots,
            index,
            count,
        })
    }

    /// How many frames there are.
    pub(crate) fn count(&self) -> u32
        ensures is { result ≡ length self.now }
        ensures below { (frame : ℕ) (block : ℕ) → Holds self.now frame block → frame < length self.now }
        ensures none { ((frame : ℕ) (block : ℕ) → Holds self.now frame block → ⊥) → blocks_of self.now ≡ [] }
        ensures few { length (blocks_of self.now) ≤ length self.now }
    {
        self.count
    }

    /// The frame that holds this block.
    pub(crate) fn find(&self, block: u64) -> Option<u32>
        ensures some { IfSome result (λ frame. Holds self.now frame block × (frame < length self.now)) }
        ensures one { IfSome result (λ frame. (other : ℕ) → Holds self.now other block → other ≡ frame) }
        ensures none { result ≡ None → IsAbsent block (blocks_of self.now) }
    {
        self.index.find(block)
    }

    /// The frame that holds this block, which one does. It is found at once where it is the likely one.
    pub(crate) fn frame_of(&self, block: u64, likely: u32) -> u32
        requires { IsAbsent block (blocks_of self.now) → ⊥ }
        ensures holds { Holds self.now result block }
        ensures within { result < length self.now }
    {
        if self.index.has(block, likely) {
            return likely;
        }
        match self.find(block) {
            Some(frame) => frame,
            None => 0,
        }
    }

    /// The block that is given up where another is admitted.
    pub(crate) fn leaving(&self) -> Option<u64>
        ensures { (block other : ℕ) → IsAbsent block (blocks_of self.now) → result ≢ Some other → IsAbsent other (used (length self.now) block (blocks_of self.now)) → IsAbsent other (blocks_of self.now) }
    {
        if self.count == 0 {
            return None;
        }
        self.block_in(last_of(&self.slots))
    }

    /// Brings the frame that holds this block to the front.
    pub(crate) fn touch(&mut self, frame: u32, block: u64)
        requires { Holds self.old frame block }
        ensures blocks { blocks_of self.new ≡ used (length self.old) block (blocks_of self.old) }
        ensures count { length self.new ≡ length self.old }
        ensures as_many { length (blocks_of self.new) ≡ length (blocks_of self.old) }
        ensures same { (other : ℕ) (held : ℕ) → Holds self.new other held → Holds self.old other held }
        ensures stay { (other : ℕ) → IsAbsent other (blocks_of self.new) → IsAbsent other (blocks_of self.old) }
    {
        place(&mut self.slots, frame, Some(block));
    }

    /// Gives this block, which none holds, to the frame that is last, and brings it to the front.
    pub(crate) fn admit(&mut self, block: u64) -> u32
        requires some { 0 < length self.old }
        requires absent { IsAbsent block (blocks_of self.old) }
        ensures blocks { blocks_of self.new ≡ used (length self.old) block (blocks_of self.old) }
        ensures count { length self.new ≡ length self.old }
        ensures below { result < length self.old }
        ensures here { (held : ℕ) → Holds self.new result held → held ≡ block }
        ensures same { (other : ℕ) (held : ℕ) → Holds self.new other held → other ≢ result → Holds self.old other held }
    {
        let last = last_of(&self.slots);
        self.release(last);
        self.hold(last, block);
        last
    }

    /// Gives this block, which none holds, to a frame that holds none, and brings it to the front.
    fn hold(&mut self, frame: u32, block: u64)
        requires free { lookup (nat_eq frame) self.old ≡ Some None }
        requires absent { IsAbsent block (blocks_of self.old) }
        ensures blocks { blocks_of self.new ≡ block ∷ blocks_of self.old }
        ensures count { length self.new ≡ length self.old }
        ensures here { (held : ℕ) → Holds self.new frame held → held ≡ block }
        ensures same { (other : ℕ) (held : ℕ) → Holds self.new other held → other ≢ frame → Holds self.old other held }
    {
        place(&mut self.slots, frame, Some(block));
        self.index.insert(block, frame);
    }

    /// Gives this block up, where it is held.
    pub(crate) fn give_up(&mut self, block: u64)
        ensures blocks { blocks_of self.new ≡ without block (blocks_of self.old) }
        ensures count { length self.new ≡ length self.old }
        ensures same { (other : ℕ) (held : ℕ) → Holds self.new other held → Holds self.old other held × (held ≢ block) }
    {
        match self.find(block) {
            Some(frame) => self.empty(frame, block),
            None => {}
        }
    }

    /// Gives up the blocks from `first` on, so many by their numbers.
    pub(crate) fn give_up_range(&mut self, first: u64, count: u64)
        requires { first + count < 2 ^ 64 }
        ensures blocks { blocks_of self.new ≡ outside first (first + count) (blocks_of self.old) }
        ensures count { length self.new ≡ length self.old }
        ensures same { (other : ℕ) (held : ℕ) → Holds self.new other held → Holds self.old other held × (is_within first (first + count) held ≡ false) }
    {
        for block in first..first + count {
            self.give_up(block);
        }
    }

    /// Gives up every block.
    pub(crate) fn give_up_all(&mut self)
        ensures blocks { blocks_of self.new ≡ [] }
        ensures count { length self.new ≡ length self.old }
        ensures none { (other : ℕ) (held : ℕ) → Holds self.new other held → ⊥ }
    {
        for frame in 0..self.count() {
            self.release(frame);
        }
        // What `count` says of the frames is wanted once more, of those that are left.
        let _ = self.count();
    }

    /// Gives up the block of this frame, where it holds one.
    fn release(&mut self, frame: u32)
        ensures count { length self.new ≡ length self.old }
        ensures blocks { blocks_of self.new ≡ blocks_of (remove_entry (nat_eq frame) self.old) }
        ensures gone { (other : ℕ) (held : ℕ) → Holds self.new other held → Holds self.old other held × (other ≢ frame) }
        ensures free { IsSome (lookup (nat_eq frame) self.old) → lookup (nat_eq frame) self.new ≡ Some None }
    {
        match self.block_in(frame) {
            Some(block) => self.empty(frame, block),
            None => {}
        }
    }

    /// The block that this frame holds.
    fn block_in(&self, frame: u32) -> Option<u64>
        ensures some { IfSome result (λ block. Holds self.now frame block) }
        ensures none { result ≡ None → (block : ℕ) → Holds self.now frame block → ⊥ }
    {
        match self.slots.peek(&frame) {
            Some(held) => *held,
            None => None,
        }
    }

    /// Gives up the block of this frame, which goes last.
    fn empty(&mut self, frame: u32, block: u64)
        requires { Holds self.old frame block }
        ensures blocks { blocks_of self.new ≡ without block (blocks_of self.old) }
        ensures count { length self.new ≡ length self.old }
        ensures same { (other : ℕ) (held : ℕ) → Holds self.new other held → Holds self.old other held × (held ≢ block) }
        ensures others { blocks_of self.new ≡ blocks_of (remove_entry (nat_eq frame) self.old) }
        ensures free { lookup (nat_eq frame) self.new ≡ Some None }
    {
        place(&mut self.slots, frame, None);
        self.slots.demote(&frame);
        self.index.remove(block, frame);
    }
}
