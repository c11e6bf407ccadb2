//! A device over a device, which keeps whole blocks of it in memory.
ghost use Rattle.std.specs.Prelude.{◌≡◌, ◌≢◌, ◌==◌, true, false, Option, ℕ, ◌+◌, ◌-◌, ◌*◌, ◌^◌, ◌/◌, ◌%◌, ◌≤◌, ◌<◌, [], List, Contains, OnOk, OnErr, IfOk, IfErr, IfSome, MatchResult, IsOk, None, Some, is_some, length, min, take};
ghost use Rattle.std.specs.Box.{boxed_slice_items};
ghost use Rattle.cola_device.specs.Bytes.{IsEmpty, HasSize, HasRange, Gives, LaidOut, Wrote, part, splice};
ghost use Rattle.cola_device.specs.Counts.{Called};
ghost use Rattle.cola_cache.specs.Order.{IsAbsent, Holds, blocks_of, unheld};
ghost use Rattle.cola_cache.specs.Cache.{Agree, IsBlock, IsWritten, blocks_touched, used, untouched};

use crate::order::Order;
use cola_device::{Device, DeviceFault, MAX_TRANSFER};
use std::alloc::{AllocError, Global};
use std::boxed::BoxedSlice;
use std::marker::Model;

/// A device over the device `D`, which keeps up to so many whole blocks of it in memory. It holds the bytes of `D`,
/// and its counts are those of `D`.
#[derive(Drop)]
pub struct Cached<D: Device> {
    device: D,
    order: Order,
    copies: BoxedSlice<u8>,
    size: u32,
}

impl<D: Device> Model for Cached<D> {
    ghost use Rattle.std.specs.Prelude.{◌≡◌, ◌≤◌, ◌*◌, length};
    ghost use Rattle.std.specs.Box.{boxed_slice_items};
    ghost use Rattle.cola_cache.specs.Order.{blocks_of};
    ghost use Rattle.cola_cache.specs.Cache.{Cache, Agree};

    ghost Value = { Cache D };

    ghost view = { λ c. record {
      device = c.device;
      held = blocks_of c.order;
      blocks = length c.order;
      size = c.size;
    } };

    ghost invariant = { λ c. Agree (D.bytes c.device) c.order (boxed_slice_items c.copies) c.size
        × (length (boxed_slice_items c.copies) ≡ length c.order * c.size) × (512 ≤ c.size) × (c.size ≤ 65536) };
}

/// The bytes of a block.
pub(crate) fn size_of_block(block_exp: u8) -> u32
    requires least { 3 ≤ block_exp }
    requires most { block_exp ≤ 10 }
    ensures is { result ≡ 64 * 2 ^ block_exp }
    ensures least { 512 ≤ result }
    ensures most { result ≤ 65536 }
{
    64 << block_exp
}

/// Frames for so many blocks, and what says which block each holds: none.
fn frames(alloc: Global, blocks: u32, size: u32) -> Result<(Order, BoxedSlice<u8>), AllocError>
    requires blocks { blocks ≤ 4096 }
    requires size { size ≤ 65536 }
    ensures order { IfOk result (λ made. made.0 ≡ unheld blocks) }
    ensures copies { IfOk result (λ made. length (boxed_slice_items made.1) ≡ blocks * size) }
{
    let order = Order::new(alloc, blocks)?;
    let copies = vec![in alloc; 0u8; blocks as usize * size as usize]?.into_boxed_slice();
    Ok((order, copies))
}

/// The one block that a range is, where it is exactly one and there are frames.
fn one_block(size: u32, frames: u32, at: u64, count: usize) -> Option<u64>
    requires { 512 ≤ size }
    ensures some { IfSome result (λ block. IsBlock size at count block × (0 < frames)) }
    ensures none { result ≡ None → 0 < frames → (block : ℕ) → IsBlock size at count block → ⊥ }
{
    if frames == 0 || count != size as usize || at % size as u64 != 0 {
        return None;
    }
    Some(at / size as u64)
}

/// Copies a frame to where it is asked for.
fn copy_out(copies: &[u8], at: usize, into: &mut [u8])
    requires { at + length into.old ≤ length copies.now }
    ensures { into.new ≡ part copies.now at (length into.old) }
{
    into.copy_from_slice(&copies[at..at + into.len()]);
}

/// Copies bytes into a frame, or a part of one.
fn copy_in(copies: &mut [u8], at: usize, from: &[u8])
    requires { at + length from.now ≤ length copies.old }
    ensures { copies.new ≡ splice copies.old at from.now }
{
    copies[at..at + from.len()].copy_from_slice(from);
}

/// Reads one block, from the frame that holds it or from the device. On success its frame comes to the front.
fn read_block<D: Device>(
    device: &mut D,
    order: &mut Order,
    copies: &mut [u8],
    block: u64,
    at: u64,
    into: &mut [u8],
) -> Result<(), DeviceFault>
    requires some { 0 < length order.old }
    requires whole { at ≡ block * length into.old }
    requires size { length into.old ≤ MAX_TRANSFER }
    requires room { length copies.old ≡ length order.old * length into.old }
    requires agree { Agree (D.bytes device.old) order.old copies.old (length into.old) }
    requires inside { HasRange (D.bytes device.old) at (length into.old) }
    ensures given { OnOk result (Gives (D.bytes device.old) at into.new) }
    ensures bytes_stay { D.bytes device.new ≡ D.bytes device.old }
    ensures kept { D.kept device.new ≡ D.kept device.old }
    ensures counts { Called (D.counts device.old) (D.counts device.new) 1 0 0 result }
    ensures agree { Agree (D.bytes device.new) order.new copies.new (length into.old) }
    ensures room { length copies.new ≡ length copies.old }
    ensures count { length order.new ≡ length order.old }
    ensures ok { OnOk result (blocks_of order.new ≡ used (length order.old) block (blocks_of order.old)) }
    ensures err { OnErr result (blocks_of order.new ≡ blocks_of order.old) }
    ensures hit { (IsAbsent block (blocks_of order.old) → ⊥) → (D.counts device.new ≡ D.counts device.old) × IsOk result }
    ensures reads { (IsAbsent block (blocks_of order.old) → length (blocks_of order.old) < length order.old) → OnOk result ((D.counts device.new).reads + length (blocks_of order.old) ≤ (D.counts device.old).reads + length (blocks_of order.new)) }
{
    let size = into.len();
    if let Some(frame) = order.find(block) {
        copy_out(copies, frame as usize * size, into);
        order.touch(frame, block);
        return Ok(());
    }
    match device.read(at, into) {
        Ok(()) => {
            let frame = order.admit(block);
            copy_in(copies, frame as usize * size, into);
            Ok(())
        }
        Err(fault) => Err(fault),
    }
}

/// How many blocks a range lies in, whole or in part, from the block of its first byte on.
fn touched_blocks(size: u32, at: u64, count: usize) -> u64
    requires size { 512 ≤ size }
    requires most { size ≤ 65536 }
    requires count { count ≤ 65536 }
    ensures is { result ≡ blocks_touched size at count }
    ensures fits { at / size + result < 2 ^ 64 }
{
    if count == 0 {
        return 0;
    }
    (at % size as u64 + count as u64 - 1) / size as u64 + 1
}

impl<D: Device> Cached<D> {
    /// A device over `device`, which keeps up to `blocks` blocks of `64 * 2^block_exp` bytes in memory. All memory is
    /// taken here. With 0 blocks every call passes through. An error gives `device` back.
    pub fn new(
        alloc: Global,
        device: D,
        blocks: u32,
        block_exp: u8,
    ) -> Result<Cached<D>, (D, AllocError)>
        requires blocks { blocks ≤ 4096 }
        requires least { 3 ≤ block_exp }
        requires most { block_exp ≤ 10 }
        ensures made { IfOk result (λ cached. cached ≡ record { device = device; held = []; blocks = blocks; size = 64 * 2 ^ block_exp }) }
        ensures back { IfErr result (λ error. error.0 ≡ device) }
    {
        let size = size_of_block(block_exp);
        match frames(alloc, blocks, size) {
            Ok((order, copies)) => Ok(Cached {
                device,
                order,
                copies,
                size,
            }),
            Err(error) => Err((device, error)),
        }
    }

    /// Whether this block is held. Blocks are counted from 0.
    pub fn holds(&self, block: u64) -> bool
        ensures held { result ≡ true → IsAbsent block self.now.held → ⊥ }
        ensures absent { result ≡ false → IsAbsent block self.now.held }
    {
        self.find(block).is_some()
    }

    /// The frame that holds a block, where the block is held.
    pub(crate) fn find(&self, block: u64) -> Option<u32>
        ensures some { IfSome result (λ _. IsAbsent block self.now.held → ⊥) }
        ensures none { result ≡ None → IsAbsent block self.now.held }
    {
        self.order.find(block)
    }

    /// Brings a block that is held to the front, by the frame that is likely to hold it. No call of the device is made.
    pub(crate) fn touch(&mut self, block: u64, likely: u32)
        requires { IsAbsent block self.old.held → ⊥ }
        ensures device { self.new.device ≡ self.old.device }
        ensures settings { (self.new.blocks ≡ self.old.blocks) × (self.new.size ≡ self.old.size) }
        ensures held { self.new.held ≡ used self.old.blocks block self.old.held }
        ensures stay { (other : ℕ) → IsAbsent other self.new.held → IsAbsent other self.old.held }
        ensures as_many { length self.new.held ≡ length self.old.held }
    {
        let frame = self.order.frame_of(block, likely);
        self.order.touch(frame, block);
    }

    /// The block that is given up where this one, which is not held, is read.
    pub(crate) fn leaving(&self, block: u64) -> Option<u64>
        requires { IsAbsent block self.now.held }
        ensures { (other : ℕ) → result ≢ Some other → IsAbsent other (used self.now.blocks block self.now.held) → IsAbsent other self.now.held }
    {
        self.order.leaving()
    }

    /// The bytes of a block that is held, by the frame that is likely to hold it.
    pub(crate) fn bytes_of(&self, block: u64, likely: u32) -> &[u8]
        requires { IsAbsent block self.now.held → ⊥ }
        ensures size { length result.now ≡ self.now.size }
        ensures given { Gives (D.bytes self.now.device) (block * self.now.size) result.now }
    {
        let at = self.order.frame_of(block, likely) as usize * self.size as usize;
        &self.copies[at..at + self.size as usize]
    }

    /// Whether it keeps no block at all.
    #[inline(always)]
    pub(crate) fn keeps_none(&self) -> bool
        ensures is { result ≡ (self.now.blocks == 0) }
        ensures held { result ≡ true → self.now.held ≡ [] }
    {
        self.order.count() == 0
    }

    /// The bytes of a block where they lie, at a device that lends them. They are no block that is held.
    #[inline(always)]
    pub(crate) fn shown(&self, block: u64) -> Option<&[u8]>
        requires fits { block * self.now.size < 2 ^ 64 }
        requires inside { HasRange (D.bytes self.now.device) (block * self.now.size) self.now.size }
        ensures lent { is_some result ≡ D.lends }
        ensures given { IfSome result (λ shown. Gives (D.bytes self.now.device) (block * self.now.size) shown.now) }
        ensures size { IfSome result (λ shown. length shown.now ≡ self.now.size) }
    {
        self.shown_at(block * self.size as u64, self.size as usize)
    }

    /// So many bytes from a place on where they lie, at a device that lends them. They are no block that is held.
    #[inline(always)]
    pub(crate) fn shown_at(&self, at: u64, count: usize) -> Option<&[u8]>
        requires inside { HasRange (D.bytes self.now.device) at count }
        ensures lent { is_some result ≡ D.lends }
        ensures given { IfSome result (λ shown. Gives (D.bytes self.now.device) at shown.now) }
        ensures size { IfSome result (λ shown. length shown.now ≡ count) }
    {
        self.device.view(at, count)
    }

    /// The device below.
    pub fn inner(&self) -> &D
        ensures { result.now ≡ self.now.device }
    {
        &self.device
    }

    /// The device below.
    pub fn into_inner(self) -> D
        ensures { result ≡ self.device }
    {
        let Cached { device, .. } = self;
        device
    }
}

impl<D: Device> Device for Cached<D> {
    ghost use Rattle.cola_cache.specs.Cache.{Settings};

    ghost bytes = { λ c. D.bytes c.device };

    ghost tells = { D.tells };

    ghost lends = { D.lends };

    ghost counts = { λ c. D.counts c.device };

    ghost Kept = { Settings D.Kept };

    ghost kept = { λ c. record { blocks = c.blocks; size = c.size; device = D.kept c.device } };

    ghost settles = { λ old result new. D.settles old.device result new.device };

    ghost told = { λ c. D.told c.device };

    fn size(&mut self) -> Result<u64, DeviceFault>
        ensures value { IfOk result (HasSize (D.bytes self.old.device)) }
        ensures bytes_stay { D.bytes self.new.device ≡ D.bytes self.old.device }
        ensures kept { D.kept self.new.device ≡ D.kept self.old.device }
        ensures counts { Called (D.counts self.old.device) (D.counts self.new.device) 0 0 1 result }
        ensures settings { (self.new.blocks ≡ self.old.blocks) × (self.new.size ≡ self.old.size) }
        ensures held { self.new.held ≡ self.old.held }
    {
        self.device.size()
    }

    /// Every block is given up, also where the device refuses.
    fn lay_out(&mut self, size: u64) -> Result<(), DeviceFault>
        requires { IsEmpty (D.bytes self.old.device) }
        ensures laid { LaidOut result size (D.bytes self.old.device) (D.bytes self.new.device) }
        ensures kept { D.kept self.new.device ≡ D.kept self.old.device }
        ensures counts { Called (D.counts self.old.device) (D.counts self.new.device) 0 0 1 result }
        ensures settings { (self.new.blocks ≡ self.old.blocks) × (self.new.size ≡ self.old.size) }
        ensures held { self.new.held ≡ [] }
    {
        self.order.give_up_all();
        self.device.lay_out(size)
    }

    /// A block that is held is read from memory, and no call of the device is made. Where blocks are only read, each whole,
    /// and there is room for all of them, no more reads are made than blocks are held.
    fn read(&mut self, at: u64, into: &mut [u8]) -> Result<(), DeviceFault>
        requires block { length into.old ≤ MAX_TRANSFER }
        requires inside { HasRange (D.bytes self.old.device) at (length into.old) }
        ensures given { OnOk result (Gives (D.bytes self.old.device) at into.new) }
        ensures bytes_stay { D.bytes self.new.device ≡ D.bytes self.old.device }
        ensures kept { D.kept self.new.device ≡ D.kept self.old.device }
        ensures counts { Called (D.counts self.old.device) (D.counts self.new.device) 1 0 0 result }
        ensures settings { (self.new.blocks ≡ self.old.blocks) × (self.new.size ≡ self.old.size) }
        ensures block { (block : ℕ) → IsBlock self.old.size at (length into.old) block → OnOk result (self.new.held ≡ used self.old.blocks block self.old.held) }
        ensures other { ((block : ℕ) → IsBlock self.old.size at (length into.old) block → ⊥) → self.new.held ≡ self.old.held }
        ensures err { OnErr result (self.new.held ≡ self.old.held) }
        ensures hit { (block : ℕ) → IsBlock self.old.size at (length into.old) block → (IsAbsent block self.old.held → ⊥) → (D.counts self.new.device ≡ D.counts self.old.device) × IsOk result }
        ensures reads { (block : ℕ) → IsBlock self.old.size at (length into.old) block → (IsAbsent block self.old.held → length self.old.held < self.old.blocks)
            → OnOk result ((D.counts self.new.device).reads + length self.old.held ≤ (D.counts self.old.device).reads + length self.new.held) }
    {
        match one_block(self.size, self.order.count(), at, into.len()) {
            Some(block) => read_block(
                &mut self.device,
                &mut self.order,
                &mut self.copies,
                block,
                at,
                into,
            ),
            None => self.device.read(at, into),
        }
    }

    /// The held blocks of the range have the new bytes. Where the device refuses they are given up, and no others.
    fn write(&mut self, at: u64, from: &[u8]) -> Result<(), DeviceFault>
        requires block { length from.now ≤ MAX_TRANSFER }
        requires inside { HasRange (D.bytes self.old.device) at (length from.now) }
        ensures wrote { Wrote result at from.now (D.bytes self.old.device) (D.bytes self.new.device) }
        ensures kept { D.kept self.new.device ≡ D.kept self.old.device }
        ensures counts { Called (D.counts self.old.device) (D.counts self.new.device) 0 1 0 result }
        ensures settings { (self.new.blocks ≡ self.old.blocks) × (self.new.size ≡ self.old.size) }
        ensures ok { OnOk result (self.new.held ≡ self.old.held) }
        ensures err { OnErr result (self.new.held ≡ untouched self.old.size at (length from.now) self.old.held) }
    {
        match self.device.write(at, from) {
            Ok(()) => {
                renew(&self.order, &mut self.copies, self.size, at, from);
                Ok(())
            }
            Err(fault) => {
                let touched = touched_blocks(self.size, at, from.len());
                self.order.give_up_range(at / self.size as u64, touched);
                Err(fault)
            }
        }
    }

    fn settle(&mut self) -> Result<(), DeviceFault>
        ensures settled { D.settles self.old.device result self.new.device }
        ensures bytes_stay { D.bytes self.new.device ≡ D.bytes self.old.device }
        ensures kept { D.kept self.new.device ≡ D.kept self.old.device }
        ensures counts { Called (D.counts self.old.device) (D.counts self.new.device) 0 0 1 result }
        ensures settings { (self.new.blocks ≡ self.old.blocks) × (self.new.size ≡ self.old.size) }
        ensures held { self.new.held ≡ self.old.held }
    {
        self.device.settle()
    }

    /// The bytes that the device below lends, past the blocks that are held.
    #[inline(always)]
    fn view(&self, at: u64, count: usize) -> Option<&[u8]> {
        self.device.view(at, count)
    }

    fn reads(&self) -> u64 {
        self.device.reads()
    }

    fn writes(&self) -> u64 {
        self.device.writes()
    }

    fn faults(&self) -> u64 {
        self.device.faults()
    }
}

/// Of a block that begins so many bytes behind the block of a range's first byte, the part that the range covers: where
/// it begins in the block, where in the range, and how long it is.
fn piece(size: usize, before: usize, done: usize, len: usize) -> (usize, usize, usize)
    requires begins { before < size }
    requires reaches { done < before + len }
    ensures place { before + result.1 ≡ done + result.0 }
    ensures fits { result.0 + result.2 ≤ size }
    ensures enough { result.1 + result.2 ≤ len }
    ensures head { 0 < result.0 → result.1 ≡ 0 }
    ensures tail { result.0 + result.2 < size → result.1 + result.2 ≡ len }
{
    let into = before.saturating_sub(done);
    let gone = done.saturating_sub(before);
    (into, gone, (len - gone).min(size - into))
}

/// Copies what was written into the frame of one block of its range, where the block is held.
fn renew_block(order: &Order, copies: &mut [u8], size: u32, at: u64, from: &[u8], step: u64)
    requires size { 512 ≤ size }
    requires most { size ≤ 65536 }
    requires count { length from.now ≤ 65536 }
    requires room { length copies.old ≡ length order.now * size }
    requires step { step < blocks_touched size at (length from.now) }
    requires fits { at / size + step < 2 ^ 64 }
    ensures room { length copies.new ≡ length copies.old }
    ensures here { (told now : Option (List ℕ)) (frame : ℕ) → IsWritten at from.now told now → HasRange told at (length from.now) → Holds order.now frame (at / size + step)
        → Gives told ((at / size + step) * size) (part copies.old (frame * size) size) → Gives now ((at / size + step) * size) (part copies.new (frame * size) size) }
    ensures others { (frame block : ℕ) → Holds order.now frame block → block ≢ at / size + step → part copies.new (frame * size) size ≡ part copies.old (frame * size) size }
{
    let wide = size as usize;
    let (into, gone, count) = piece(
        wide,
        (at % size as u64) as usize,
        step as usize * wide,
        from.len(),
    );
    match order.find(at / size as u64 + step) {
        Some(frame) => copy_in(
            copies,
            frame as usize * wide + into,
            &from[gone..gone + count],
        ),
        None => {}
    }
}

/// Copies what was written into the frames of the held blocks of its range.
fn renew(order: &Order, copies: &mut [u8], size: u32, at: u64, from: &[u8])
    requires size { 512 ≤ size }
    requires most { size ≤ 65536 }
    requires count { length from.now ≤ 65536 }
    requires room { length copies.old ≡ length order.now * size }
    ensures room { length copies.new ≡ length copies.old }
    ensures agree { (told now : Option (List ℕ)) → IsWritten at from.now told now → HasRange told at (length from.now)
        → Agree told order.now copies.old size → Agree now order.now copies.new size }
{
    for step in 0..touched_blocks(size, at, from.len()) {
        renew_block(order, copies, size, at, from, step);
    }
}
