//! Whole blocks of a device behind a cache, and numbered buffers, each of which keeps the block that was read last by
//! way of it.
ghost use Rattle.std.specs.Prelude.{◌≡◌, ◌≢◌, ◌==◌, ℕ, ◌+◌, ◌*◌, ◌^◌, ◌≤◌, ◌<◌, ◌&&◌, true, false, [], ◌∷◌, length, map, replicate, Option, None, Some, is_some, IfOk, IfErr, IfSome, OnOk, OnErr, IsOk, slice_set};
ghost use Rattle.std.specs.Box.{boxed_slice_items};
ghost use Rattle.cola_device.specs.Bytes.{HasRange, Gives, Wrote, part};
ghost use Rattle.cola_device.specs.Counts.{Called};
ghost use Rattle.cola_cache.specs.Order.{IsAbsent};
ghost use Rattle.cola_cache.specs.Cache.{used};
ghost use Rattle.cola_cache.specs.Blocks.{IsSound, AreFew, AreCopies, AreShared, CanTurn, IsTurned, to_copy, IsInFile, IsRead, HeldRead, HeldWritten, Made, Since, Stays, forgotten, last_in, new_blocks};

use crate::cached::{Cached, size_of_block};
use cola_device::{Device, DeviceFault};
use std::alloc::{AllocError, Global};
use std::boxed::BoxedSlice;
use std::marker::Model;

/// The blocks of a file on the device `D`, behind a cache, and buffers that each keep one block. Blocks and buffers are
/// counted from 0. The device holds the whole file, and may hold more behind it, which no call here touches.
#[derive(Drop)]
pub struct Buffers<D: Device> {
    device: Cached<D>,
    copies: BoxedSlice<u8>,
    lasts: BoxedSlice<Option<u64>>,
    /// For each buffer that borrows its block from the cache, the frame where that was found.
    shares: BoxedSlice<Option<u32>>,
    size: u32,
    many: u64,
    made_reads: u64,
    made_faults: u64,
}

impl<D: Device> Model for Buffers<D> {
    ghost use Rattle.std.specs.Prelude.{◌≡◌};
    ghost use Rattle.std.specs.Box.{boxed_slice_items};
    ghost use Rattle.cola_cache.specs.Blocks.{Blocks, IsSound, AreCopies, AreShared, to_copy};

    ghost Value = { Blocks D };

    ghost view = { λ b. record {
      cache = b.device;
      lasts = boxed_slice_items b.lasts;
      many = b.many;
      made = record { reads = b.made_reads; faults = b.made_faults };
    } };

    ghost invariant = { λ b. (b.size ≡ b.device.size) × IsSound (D.bytes b.device.device) (D.counts b.device.device) (record {
      cache = b.device;
      lasts = boxed_slice_items b.lasts;
      many = b.many;
      made = record { reads = b.made_reads; faults = b.made_faults };
    }) × AreCopies (to_copy D.lends (D.bytes b.device.device)) (boxed_slice_items b.copies) (boxed_slice_items b.lasts) (boxed_slice_items b.shares) b.size
        × AreShared b.device.held (boxed_slice_items b.lasts) (boxed_slice_items b.shares) };
}

/// Room for the copies of so many buffers, and what says which block each holds, and which it borrows: none.
fn room(
    alloc: Global,
    buffers: u32,
    size: u32,
) -> Result<
    (
        BoxedSlice<u8>,
        BoxedSlice<Option<u64>>,
        BoxedSlice<Option<u32>>,
    ),
    AllocError,
>
    requires size { size ≤ 65536 }
    ensures copies { IfOk result (λ made. length (boxed_slice_items made.0) ≡ buffers * size) }
    ensures lasts { IfOk result (λ made. boxed_slice_items made.1 ≡ replicate buffers None) }
    ensures shares { IfOk result (λ made. boxed_slice_items made.2 ≡ replicate buffers None) }
{
    let copies = vec![in alloc; 0u8; buffers as usize * size as usize]?.into_boxed_slice();
    let lasts = vec![in alloc; None; buffers as usize]?.into_boxed_slice();
    let shares = vec![in alloc; None; buffers as usize]?.into_boxed_slice();
    Ok((copies, lasts, shares))
}

/// Makes a buffer that holds this block hold none.
#[inline(always)]
fn forget_in(last: &mut Option<u64>, block: u64)
    ensures { last.new ≡ forgotten block last.old }
{
    if *last == Some(block) {
        *last = None;
    }
}

/// Makes every buffer that holds this block hold none.
fn forget(lasts: &mut [Option<u64>], block: u64)
    ensures { lasts.new ≡ map (forgotten block) lasts.old }
{
    for last in lasts.iter_mut() {
        forget_in(last, block);
    }
}

/// Reads one whole block by way of the cache.
fn read_whole<D: Device>(
    device: &mut Cached<D>,
    block: u64,
    into: &mut [u8],
) -> Result<(), DeviceFault>
    requires size { length into.old ≡ device.old.size }
    requires most { device.old.size ≤ 65536 }
    requires fits { block * device.old.size < 2 ^ 64 }
    requires inside { HasRange (D.bytes device.old.device) (block * device.old.size) device.old.size }
    ensures given { OnOk result (Gives (D.bytes device.old.device) (block * device.old.size) into.new) }
    ensures read { IsRead D.Device block result device.old device.new }
    ensures since { (many : ℕ) (made : Made) → block < many → Since many device.old.blocks device.old.held made (D.counts device.old.device)
        → Since many device.new.blocks device.new.held made (D.counts device.new.device) }
{
    device.read(block * into.len() as u64, into)
}

/// The block that a buffer borrows, with the frame where it was found.
fn borrowed(lasts: &[Option<u64>], shares: &[Option<u32>], buffer: usize) -> Option<(u64, u32)>
    requires lasts { buffer < length lasts.now }
    requires shares { buffer < length shares.now }
    ensures some { IfSome result (λ it. (last_in lasts.now buffer ≡ Some it.0) × (last_in shares.now buffer ≡ Some it.1)) }
    ensures none { result ≡ None → (block : ℕ) → last_in lasts.now buffer ≡ Some block → last_in shares.now buffer ≡ None }
{
    let block = lasts[buffer]?;
    let frame = shares[buffer]?;
    Some((block, frame))
}

/// The copy of its own that a buffer has.
fn own_copy(copies: &[u8], buffer: usize, size: usize) -> &[u8]
    requires { buffer * size + size ≤ length copies.now }
    ensures { result.now ≡ part copies.now (buffer * size) size }
{
    let at = buffer * size;
    &copies[at..at + size]
}

/// Copies this block for a buffer that borrows it, and leaves any other buffer.
fn copy_one<D: Device>(
    device: &Cached<D>,
    lasts: &[Option<u64>],
    shares: &mut [Option<u32>],
    copies: &mut [u8],
    buffer: usize,
    block: u64,
    size: usize,
)
    requires size { size ≡ device.now.size }
    requires buffer { buffer < length lasts.now }
    requires copies { AreCopies (to_copy D.lends (D.bytes device.now.device)) copies.old lasts.now shares.old size }
    requires shared { AreShared device.now.held lasts.now shares.old }
    ensures copies { AreCopies (to_copy D.lends (D.bytes device.now.device)) copies.new lasts.now shares.new size }
    ensures here { last_in lasts.now buffer ≡ Some block → last_in shares.new buffer ≡ None }
    ensures others { (other : ℕ) → last_in shares.old other ≡ None → last_in shares.new other ≡ None }
{
    let last = lasts[buffer];
    if last == Some(block) {
        if let Some(frame) = shares[buffer] {
            let at = buffer * size;
            copies[at..at + size].copy_from_slice(device.bytes_of(block, frame));
            shares[buffer] = None;
        }
    }
}

/// Copies the block that a read of this block gives up, for each buffer that borrows it.
fn copy_late<D: Device>(
    device: &Cached<D>,
    lasts: &[Option<u64>],
    shares: &mut [Option<u32>],
    copies: &mut [u8],
    block: u64,
    size: usize,
)
    requires size { size ≡ device.now.size }
    requires absent { IsAbsent block device.now.held }
    requires copies { AreCopies (to_copy D.lends (D.bytes device.now.device)) copies.old lasts.now shares.old size }
    requires shared { AreShared device.now.held lasts.now shares.old }
    ensures copies { AreCopies (to_copy D.lends (D.bytes device.now.device)) copies.new lasts.now shares.new size }
    ensures shared { AreShared device.now.held lasts.now shares.new }
    ensures after { AreShared (used device.now.blocks block device.now.held) lasts.now shares.new }
{
    if let Some(leaving) = device.leaving(block) {
        for buffer in 0..lasts.len() {
            copy_one(device, lasts, shares, copies, buffer, leaving, size);
        }
    }
}

/// Makes a buffer hold a block that the cache does not hold, with a copy of its own. Before the read it holds none.
fn fetch<D: Device>(
    device: &mut Cached<D>,
    lasts: &mut [Option<u64>],
    shares: &mut [Option<u32>],
    copies: &mut [u8],
    buffer: usize,
    block: u64,
    size: usize,
) -> Result<(), DeviceFault>
    requires can { CanTurn D.lends (D.bytes device.old.device) device.old copies.old lasts.old shares.old buffer block size }
    requires after { AreShared (used device.old.blocks block device.old.held) lasts.old shares.old }
    ensures { IsTurned D.Device result buffer block size device.old device.new lasts.old lasts.new shares.new copies.new }
{
    lasts[buffer] = None;
    shares[buffer] = None;
    let at = buffer * size;
    match read_whole(device, block, &mut copies[at..at + size]) {
        Ok(()) => {
            lasts[buffer] = Some(block);
            Ok(())
        }
        Err(fault) => Err(fault),
    }
}

/// Whether the device lends the bytes of its blocks, and the cache may keep none of them.
#[inline(always)]
fn is_lent<D: Device>(device: &Cached<D>, block: u64) -> bool
    requires { IsInFile (D.bytes device.now.device) block device.now.size }
    ensures is { result ≡ (D.lends && (device.now.blocks == 0)) }
    ensures held { result ≡ true → device.now.held ≡ [] }
{
    device.keeps_none() && device.shown(block).is_some()
}

/// The bytes of the block that a buffer holds where they lie, at a device that lends them.
#[inline(always)]
fn lent_to<'a, D: Device>(
    device: &'a Cached<D>,
    lasts: &[Option<u64>],
    buffer: usize,
) -> Option<&'a [u8]>
    requires buffer { buffer < length lasts.now }
    requires inside { (block : ℕ) → last_in lasts.now buffer ≡ Some block → IsInFile (D.bytes device.now.device) block device.now.size }
    ensures size { IfSome result (λ shown. length shown.now ≡ device.now.size) }
    ensures given { IfSome result (λ shown. (block : ℕ) → last_in lasts.now buffer ≡ Some block → Gives (D.bytes device.now.device) (block * device.now.size) shown.now) }
    ensures none { result ≡ None → (block : ℕ) → last_in lasts.now buffer ≡ Some block → D.lends ≡ false }
{
    let block = lasts[buffer]?;
    device.shown(block)
}

/// Makes a buffer hold a block that it does not hold. Where the device lends its bytes and the cache may keep no block,
/// nothing is read. Where the cache holds the block the buffer borrows it, and else it has a copy of its own.
#[inline(never)]
fn turn<D: Device>(
    device: &mut Cached<D>,
    lasts: &mut [Option<u64>],
    shares: &mut [Option<u32>],
    copies: &mut [u8],
    buffer: usize,
    block: u64,
    size: usize,
) -> Result<(), DeviceFault>
    requires { CanTurn D.lends (D.bytes device.old.device) device.old copies.old lasts.old shares.old buffer block size }
    ensures turned { IsTurned D.Device result buffer block size device.old device.new lasts.old lasts.new shares.new copies.new }
    ensures lent { D.lends ≡ true → device.old.blocks ≡ 0 → (D.counts device.new.device ≡ D.counts device.old.device) × IsOk result }
{
    if is_lent(device, block) {
        lasts[buffer] = Some(block);
        shares[buffer] = None;
        return Ok(());
    }
    if let Some(frame) = device.find(block) {
        device.touch(block, frame);
        lasts[buffer] = Some(block);
        shares[buffer] = Some(frame);
        return Ok(());
    }
    copy_late(device, lasts, shares, copies, block, size);
    fetch(device, lasts, shares, copies, buffer, block, size)
}

impl<D: Device> Buffers<D> {
    /// The first `many` blocks of `64 * 2^block_exp` bytes of `device`, behind a cache that keeps up to `cache` of them,
    /// and `buffers` buffers, which hold none. All memory is taken here, and no call of the device is made. An error
    /// gives `device` back.
    pub fn new(
        alloc: Global,
        device: D,
        cache: u32,
        block_exp: u8,
        many: u64,
        buffers: u32,
    ) -> Result<Buffers<D>, (D, AllocError)>
        requires cache { cache ≤ 4096 }
        requires least { 3 ≤ block_exp }
        requires most { block_exp ≤ 10 }
        requires fits { many * (64 * 2 ^ block_exp) < 2 ^ 64 }
        requires inside { HasRange (D.bytes device) 0 (many * (64 * 2 ^ block_exp)) }
        ensures made { IfOk result (λ made. made ≡ new_blocks device (D.counts device) cache (64 * 2 ^ block_exp) many buffers) }
        ensures back { IfErr result (λ error. error.0 ≡ device) }
    {
        let size = size_of_block(block_exp);
        let made_reads = device.reads();
        let made_faults = device.faults();
        let (copies, lasts, shares) = match room(alloc, buffers, size) {
            Ok(made) => made,
            Err(error) => return Err((device, error)),
        };
        match Cached::new(alloc, device, cache, block_exp) {
            Ok(device) => Ok(Buffers {
                device,
                copies,
                lasts,
                shares,
                size,
                many,
                made_reads,
                made_faults,
            }),
            Err(error) => Err(error),
        }
    }

    /// Makes a buffer hold a block. Where it does already, nothing changes and no call of the device is made. Else the
    /// block is read by way of the cache, by at most one read of the device, of exactly this block. It is not read where
    /// the device lends its bytes and the cache may keep no block. After an error the buffer holds none.
    #[inline(always)]
    pub fn turn_to(&mut self, buffer: usize, block: u64) -> Result<(), DeviceFault>
        requires buffer { buffer < length self.old.lasts }
        requires block { block < self.old.many }
        ensures ok { OnOk result (self.new.lasts ≡ slice_set self.old.lasts buffer (Some block)) }
        ensures err { OnErr result (self.new.lasts ≡ slice_set self.old.lasts buffer None) }
        ensures same { last_in self.old.lasts buffer ≡ Some block → (self.new ≡ self.old) × IsOk result }
        ensures held { last_in self.old.lasts buffer ≢ Some block → HeldRead result block self.old.cache self.new.cache }
        ensures hit { (IsAbsent block self.old.cache.held → ⊥) → (D.counts self.new.cache.device ≡ D.counts self.old.cache.device) × IsOk result }
        ensures lent { D.lends ≡ true → self.old.cache.blocks ≡ 0 → (D.counts self.new.cache.device ≡ D.counts self.old.cache.device) × IsOk result }
        ensures bytes_stay { D.bytes self.new.cache.device ≡ D.bytes self.old.cache.device }
        ensures kept { D.kept self.new.cache.device ≡ D.kept self.old.cache.device }
        ensures counts { Called (D.counts self.old.cache.device) (D.counts self.new.cache.device) 1 0 0 result }
        ensures stays { Stays self.old self.new }
    {
        if self.lasts[buffer] == Some(block) {
            return Ok(());
        }
        turn(
            &mut self.device,
            &mut self.lasts,
            &mut self.shares,
            &mut self.copies,
            buffer,
            block,
            self.size as usize,
        )
    }

    /// Whether a buffer holds this block.
    #[inline(always)]
    pub fn holds(&self, buffer: usize, block: u64) -> bool
        requires { buffer < length self.now.lasts }
        ensures yes { result ≡ true → last_in self.now.lasts buffer ≡ Some block }
        ensures no { last_in self.now.lasts buffer ≡ Some block → result ≡ true }
    {
        self.lasts[buffer] == Some(block)
    }

    /// The bytes of the block that a buffer holds, as the device lends them, or where the cache has them, or else from the
    /// buffer's own copy; any bytes where it holds none.
    #[inline(always)]
    pub fn copy(&self, buffer: usize) -> &[u8]
        requires buffer { buffer < length self.now.lasts }
        ensures size { length result.now ≡ self.now.cache.size }
        ensures given { (block : ℕ) → last_in self.now.lasts buffer ≡ Some block → Gives (D.bytes self.now.cache.device) (block * self.now.cache.size) result.now }
    {
        if let Some(shown) = lent_to(&self.device, &self.lasts, buffer) {
            return shown;
        }
        match borrowed(&self.lasts, &self.shares, buffer) {
            Some((block, frame)) => self.device.bytes_of(block, frame),
            None => own_copy(&self.copies, buffer, self.size as usize),
        }
    }

    /// So many bytes of the file from a place on, where they lie: none exactly where the device lends none. It is no call
    /// of the device that is counted.
    #[inline(always)]
    pub fn lent(&self, at: u64, count: usize) -> Option<&[u8]>
        requires inside { at + count ≤ self.now.many * self.now.cache.size }
        ensures lent { is_some result ≡ D.lends }
        ensures given { IfSome result (λ shown. Gives (D.bytes self.now.cache.device) at shown.now) }
        ensures size { IfSome result (λ shown. length shown.now ≡ count) }
    {
        self.device.shown_at(at, count)
    }

    /// Writes bytes inside one block, which no buffer holds afterwards.
    fn write_in(&mut self, block: u64, at: u64, from: &[u8]) -> Result<(), DeviceFault>
        requires block { block < self.old.many }
        requires some { 0 < length from.now }
        requires begins { block * self.old.cache.size ≤ at }
        requires ends { at + length from.now ≤ block * self.old.cache.size + self.old.cache.size }
        ensures wrote { Wrote result at from.now (D.bytes self.old.cache.device) (D.bytes self.new.cache.device) }
        ensures kept { D.kept self.new.cache.device ≡ D.kept self.old.cache.device }
        ensures counts { Called (D.counts self.old.cache.device) (D.counts self.new.cache.device) 0 1 0 result }
        ensures lasts { self.new.lasts ≡ map (forgotten block) self.old.lasts }
        ensures held { HeldWritten result block self.old.cache self.new.cache }
        ensures stays { Stays self.old self.new }
    {
        forget(&mut self.lasts, block);
        self.device.write(at, from)
    }

    /// Writes one whole block. No buffer holds it afterwards, whatever the answer. After an error the block may have any
    /// bytes on the device.
    pub fn write_block(&mut self, block: u64, from: &[u8]) -> Result<(), DeviceFault>
        requires block { block < self.old.many }
        requires size { length from.now ≡ self.old.cache.size }
        ensures wrote { Wrote result (block * self.old.cache.size) from.now (D.bytes self.old.cache.device) (D.bytes self.new.cache.device) }
        ensures kept { D.kept self.new.cache.device ≡ D.kept self.old.cache.device }
        ensures counts { Called (D.counts self.old.cache.device) (D.counts self.new.cache.device) 0 1 0 result }
        ensures lasts { self.new.lasts ≡ map (forgotten block) self.old.lasts }
        ensures held { HeldWritten result block self.old.cache self.new.cache }
        ensures stays { Stays self.old self.new }
    {
        self.write_in(block, block * self.size as u64, from)
    }

    /// Writes one byte of block 0. No buffer holds that block afterwards, whatever the answer. After an error the byte may
    /// be any on the device.
    pub fn write_byte(&mut self, at: u64, byte: u8) -> Result<(), DeviceFault>
        requires some { 0 < self.old.many }
        requires inside { at < self.old.cache.size }
        ensures wrote { Wrote result at (byte ∷ []) (D.bytes self.old.cache.device) (D.bytes self.new.cache.device) }
        ensures kept { D.kept self.new.cache.device ≡ D.kept self.old.cache.device }
        ensures counts { Called (D.counts self.old.cache.device) (D.counts self.new.cache.device) 0 1 0 result }
        ensures lasts { self.new.lasts ≡ map (forgotten 0) self.old.lasts }
        ensures held { HeldWritten result 0 self.old.cache self.new.cache }
        ensures stays { Stays self.old self.new }
    {
        self.write_in(0, at, &[byte])
    }

    /// Asks that all that was written be finished.
    pub fn settle(&mut self) -> Result<(), DeviceFault>
        ensures settled { D.settles self.old.cache.device result self.new.cache.device }
        ensures bytes_stay { D.bytes self.new.cache.device ≡ D.bytes self.old.cache.device }
        ensures kept { D.kept self.new.cache.device ≡ D.kept self.old.cache.device }
        ensures counts { Called (D.counts self.old.cache.device) (D.counts self.new.cache.device) 0 0 1 result }
        ensures lasts { self.new.lasts ≡ self.old.lasts }
        ensures held { self.new.cache.held ≡ self.old.cache.held }
        ensures stays { Stays self.old self.new }
    {
        self.device.settle()
    }

    /// The bytes of a block.
    pub fn block_size(&self) -> usize
        ensures is { result ≡ self.now.cache.size }
        ensures sound { IsSound (D.bytes self.now.cache.device) (D.counts self.now.cache.device) self.now }
    {
        self.size as usize
    }

    /// How many blocks the file has.
    pub fn many(&self) -> u64
        ensures { result ≡ self.now.many }
    {
        self.many
    }

    /// How many reads the device made.
    pub fn reads(&self) -> u64
        ensures is { result ≡ (D.counts self.now.cache.device).reads }
        ensures few { AreFew self.now (D.counts self.now.cache.device) }
    {
        self.device.reads()
    }

    /// How many writes the device made.
    pub fn writes(&self) -> u64
        ensures { result ≡ (D.counts self.now.cache.device).writes }
    {
        self.device.writes()
    }

    /// How many faults the device met.
    pub fn faults(&self) -> u64
        ensures { result ≡ (D.counts self.now.cache.device).faults }
    {
        self.device.faults()
    }

    /// The device, as it is. No call of it is made.
    pub fn into_device(self) -> D
        ensures { result ≡ self.cache.device }
    {
        let Buffers { device, .. } = self;
        device.into_inner()
    }
}
