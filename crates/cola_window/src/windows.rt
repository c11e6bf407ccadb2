//! A merge of cells where their bytes lie: as many steps as three windows of cells and a room for more allow.
ghost use Rattle.std.specs.Prelude.{◌≡◌, ◌≤◌, ◌<◌, ◌+◌, ◌*◌, ◌^◌, ℕ, ◌&&◌, true, false, length, take, drop, nat_le, Option, Some, None, is_some};
ghost use Rattle.std.specs.Option.{option_map};
ghost use Rattle.cola_runs.specs.Steps.{Take, skips_own, skips_incoming, item_or_look, least, flag_of, emitted};
ghost use Rattle.cola_cell.specs.declared.cell.Cell.{Cell};
ghost use Rattle.cola_cell.specs.Cell.{key_of};
ghost use Rattle.cola_cell.specs.Held.{as_cell};
ghost use Rattle.cola_cell.specs.Order.{key_cmp};
ghost use Rattle.cola_cell.specs.Format.{width};
ghost use Rattle.cola_cell.specs.Decoded.{standing};
ghost use Rattle.cola_cell.specs.Packed.{is_tombstone, is_look, passed, MayPass};
ghost use Rattle.cola_cell.specs.Spelling.{IsSpelling, part};
ghost use Rattle.cola_window.specs.Windows.{Known, Spells, part_of, front_cell, above_front, as_head, as_action, asked, pick, Suits, ActSuits};
ghost use Rattle.cola_window.specs.Windows.{IfPicked, PassesOn, ActsLook, ActsItemOrLook, ActsLeast, pass_of, act_pass, window_of, moved, last_of};
ghost use Rattle.cola_window.specs.Windows.{Puts, emitted_of, consumed, taken_with, bytes_of, bytes_in, lasts_in, Merged};
ghost use Rattle.cola_window.specs.Stopping.{IsUnknown, AreKnown, IsOneUnknown, MergeStops, CanStep};
ghost use Rattle.cola_window.specs.declared.windows.Rules.{Rules};
ghost use Rattle.cola_cell.specs.declared.cell.Reader.{Reader};

use cola_cell::{
    Format, Pass, Reader, Window, cmp_keys_in, is_cell, is_look_in, is_tombstone_in, is_young_in,
    look_in, renew_in,
};
use std::cmp::Ordering;

/// Which items a merge takes, and how it marks them.
#[derive(Clone, Copy, Debug)]
pub struct Rules {
    /// Of its own run only the young items are taken.
    pub only_young: bool,
    /// Items of the incoming run are marked young.
    pub marks_young: bool,
    /// Tombstones are left out.
    pub drops_tombstones: bool,
}

/// How many cells of each source were consumed, and how many were emitted.
#[derive(Clone, Copy, Debug)]
pub struct Taken {
    pub own: u32,
    pub incoming: u32,
    pub sample: u32,
    pub pushed: u32,
}

/// What a step does: it consumes the front of this window, and passes its cell on, or emits nothing.
#[derive(Clone, Copy, Debug)]
struct Act {
    head: Reader,
    does: Does,
}

/// What becomes of the cell at the front: nothing, its item, or a lookahead cell of its key.
#[derive(Clone, Copy, Debug)]
enum Does {
    Skips,
    Emits,
    Looks,
}

/// Whether a window has a cell.
#[inline(always)]
pub(crate) fn has_front(format: Format, window: &[u8]) -> bool
    ensures { result ≡ nat_le (width format) (length window.now) }
{
    format.width() <= window.len()
}

/// The bytes of the first cell of a window.
#[inline(always)]
pub(crate) fn front(format: Format, window: &[u8]) -> &[u8]
    requires { width format ≤ length window.now }
    ensures { result.now ≡ take (width format) window.now }
{
    &window[..format.width()]
}

/// Whether what stands at the front of a window is known: a cell, or that the source ends there.
#[inline(always)]
fn is_known(format: Format, window: &[u8], is_last: bool) -> bool
    ensures known { result ≡ true → Known format is_last window.now }
    ensures unknown { result ≡ false → IsUnknown format is_last window.now }
{
    if has_front(format, window) {
        is_cell(format, front(format, window))
    } else {
        is_last
    }
}

/// What is behind the first cell of a window, where the next one begins so many bytes on.
#[inline(always)]
pub(crate) fn rest(window: &[u8], step: usize) -> &[u8]
    ensures { result.now ≡ drop step window.now }
{
    if step < window.len() {
        &window[step..]
    } else {
        &[]
    }
}

/// What becomes of an item at a front: none for a tombstone that is left out.
#[inline(always)]
fn emit(format: Format, rules: Rules, head: Reader, cell: &[u8]) -> Does
    requires { Spells format cell.now }
    ensures emitted { (link : ℕ) → PassesOn rules link head (standing format cell.now) result }
    ensures suits { (link : ℕ) → Suits (pass_of rules link head result) (Some (standing format cell.now)) }
{
    if is_look_in(format, cell) || is_left_out(format, rules, cell) {
        return Does::Skips;
    }
    Does::Emits
}

/// The youth of an item that is emitted for a front.
#[inline(always)]
fn flag(rules: Rules, head: Reader) -> bool
    ensures { result ≡ flag_of (part_of rules) (as_head head) }
{
    match head {
        Reader::Incoming => rules.marks_young,
        Reader::Own | Reader::Sample => false,
    }
}

/// Whether a cell is a tombstone that is left out.
#[inline(always)]
fn is_left_out(format: Format, rules: Rules, cell: &[u8]) -> bool
    requires { Spells format cell.now }
    ensures { result ≡ rules.drops_tombstones && is_tombstone (standing format cell.now) }
{
    rules.drops_tombstones && is_tombstone_in(format, cell)
}

/// Consumes a front and emits nothing.
#[inline(always)]
fn pass(head: Reader) -> Option<Act>
    ensures act { (rules : Rules) (link : ℕ) (x y z : Option Cell) → as_action rules link x y z result ≡ Take (as_head head) None }
    ensures suits { (rules : Rules) (link : ℕ) (x y z : Option Cell) (c : Cell) → pick head x y z ≡ Some c → ActSuits rules link x y z result }
{
    Some(Act {
        head,
        does: Does::Skips,
    })
}

/// Emits a lookahead cell of the key of the sample's front.
#[inline(always)]
fn look() -> Option<Act>
    ensures act { (rules : Rules) (link : ℕ) → ActsLook rules link result }
    ensures suits { (rules : Rules) (link : ℕ) (x y : Option Cell) (next : Cell) → ActSuits rules link x y (Some next) result }
{
    Some(Act {
        head: Reader::Sample,
        does: Does::Looks,
    })
}

/// Whether the key of a cell is above that of the front of the sample.
#[inline(always)]
fn is_above(format: Format, cell: &[u8], sample: &[u8]) -> bool
    requires cell { Spells format cell.now }
    requires sample { width format ≤ length sample.now → Spells format (take (width format) sample.now) }
    ensures { result ≡ above_front (standing format cell.now) (front_cell format sample.now) }
{
    has_front(format, sample) && cmp_keys_in(format, cell, front(format, sample)).is_gt()
}

/// The item at a front against the front of the sample: the item goes first where its key is at most the sample's key.
#[inline(always)]
fn emit_item_or_look(
    format: Format,
    rules: Rules,
    head: Reader,
    cell: &[u8],
    sample: &[u8],
) -> Option<Act>
    requires cell { Spells format cell.now }
    requires sample { width format ≤ length sample.now → Spells format (take (width format) sample.now) }
    ensures act { (link : ℕ) → ActsItemOrLook rules link head (standing format cell.now) (front_cell format sample.now) result }
    ensures suits { IfPicked head (standing format cell.now) (front_cell format sample.now) (λ x y z. (link : ℕ) → ActSuits rules link x y z result) }
{
    if is_above(format, cell, sample) {
        return look();
    }
    Some(Act {
        head,
        does: emit(format, rules, head, cell),
    })
}

/// Whether the own front is passed over: it is a lookahead cell, or an item that is not wanted.
#[inline(always)]
fn passes_own(format: Format, rules: Rules, own: &[u8]) -> bool
    requires { Spells format own.now }
    ensures { result ≡ skips_own (part_of rules) (Some (as_cell (standing format own.now))) }
{
    is_look_in(format, own) || rules.only_young && !is_young_in(format, own)
}

/// Whether the own window has a front that is passed over.
#[inline(always)]
fn skips(format: Format, rules: Rules, own: &[u8]) -> bool
    requires { width format ≤ length own.now → Spells format (take (width format) own.now) }
    ensures { result ≡ skips_own (part_of rules) (option_map as_cell (front_cell format own.now)) }
{
    has_front(format, own) && passes_own(format, rules, front(format, own))
}

/// Whether the incoming front is passed over: it is a lookahead cell.
#[inline(always)]
fn passes_incoming(format: Format, incoming: &[u8]) -> bool
    requires { Spells format incoming.now }
    ensures { result ≡ skips_incoming (Some (as_cell (standing format incoming.now))) }
{
    is_look_in(format, incoming)
}

/// Whether the incoming window has a front that is passed over.
#[inline(always)]
fn skips_new(format: Format, incoming: &[u8]) -> bool
    requires { width format ≤ length incoming.now → Spells format (take (width format) incoming.now) }
    ensures { result ≡ skips_incoming (option_map as_cell (front_cell format incoming.now)) }
{
    has_front(format, incoming) && passes_incoming(format, front(format, incoming))
}

/// The rule that fits where no front is passed over: of two equal keys the own item is dropped, else the smaller key
/// goes first.
#[inline(always)]
fn emit_least(
    format: Format,
    rules: Rules,
    own: &[u8],
    incoming: &[u8],
    sample: &[u8],
) -> Option<Act>
    requires own { width format ≤ length own.now → Spells format (take (width format) own.now) }
    requires incoming { width format ≤ length incoming.now → Spells format (take (width format) incoming.now) }
    requires sample { width format ≤ length sample.now → Spells format (take (width format) sample.now) }
    ensures act { (link : ℕ) → ActsLeast rules link (front_cell format own.now) (front_cell format incoming.now) (front_cell format sample.now) result }
    ensures suits { (link : ℕ) → ActSuits rules link (front_cell format own.now) (front_cell format incoming.now) (front_cell format sample.now) result }
{
    if !has_front(format, own) {
        if !has_front(format, incoming) {
            return if has_front(format, sample) {
                look()
            } else {
                None
            };
        }
        return emit_item_or_look(
            format,
            rules,
            Reader::Incoming,
            front(format, incoming),
            sample,
        );
    }
    let cell = front(format, own);
    if !has_front(format, incoming) {
        return emit_item_or_look(format, rules, Reader::Own, cell, sample);
    }
    let newer = front(format, incoming);
    match cmp_keys_in(format, cell, newer) {
        Ordering::Less => emit_item_or_look(format, rules, Reader::Own, cell, sample),
        Ordering::Equal => pass(Reader::Own),
        Ordering::Greater => emit_item_or_look(format, rules, Reader::Incoming, newer, sample),
    }
}

/// The first of the five rules that fits the three fronts, where emitted cells get this link.
#[inline(always)]
fn first_rule(
    format: Format,
    rules: Rules,
    own: &[u8],
    incoming: &[u8],
    sample: &[u8],
) -> Option<Act>
    requires own { width format ≤ length own.now → Spells format (take (width format) own.now) }
    requires incoming { width format ≤ length incoming.now → Spells format (take (width format) incoming.now) }
    requires sample { width format ≤ length sample.now → Spells format (take (width format) sample.now) }
    ensures act { (link : ℕ) → as_action rules link (front_cell format own.now) (front_cell format incoming.now) (front_cell format sample.now) result
        ≡ asked rules link (front_cell format own.now) (front_cell format incoming.now) (front_cell format sample.now) }
    ensures suits { (link : ℕ) → ActSuits rules link (front_cell format own.now) (front_cell format incoming.now) (front_cell format sample.now) result }
{
    if skips(format, rules, own) {
        return pass(Reader::Own);
    }
    if skips_new(format, incoming) {
        return pass(Reader::Incoming);
    }
    emit_least(format, rules, own, incoming, sample)
}

/// Writes what becomes of a cell at a place of the room.
#[inline(always)]
fn put(format: Format, cell: &[u8], pass: Pass, room: &mut [u8], at: usize)
    requires spells { Spells format cell.now }
    requires may { MayPass pass (standing format cell.now) }
    requires inside { at + width format ≤ length room.old }
    ensures size { length room.new ≡ length room.old }
    ensures front { take at room.new ≡ take at room.old }
    ensures cell { IsSpelling format (passed pass (standing format cell.now)) (take (width format) (drop at room.new)) }
{
    let into = &mut room[at..at + format.width()];
    match pass {
        Pass::Item { young, link } => renew_in(format, cell, young, link, into),
        Pass::Look { link } => look_in(format, cell, link, into),
    }
}

/// What is left of the three windows.
#[derive(Clone, Copy, Debug)]
struct Left<'a> {
    own: &'a [u8],
    incoming: &'a [u8],
    sample: &'a [u8],
}

/// The front of a reader's window.
#[inline(always)]
fn picked<'a>(format: Format, left: Left<'a>, head: Reader) -> &'a [u8]
    requires { width format ≤ length (window_of head left.own.now left.incoming.now left.sample.now) }
    ensures { result.now ≡ take (width format) (window_of head left.entry.own.now left.entry.incoming.now left.entry.sample.now) }
{
    match head {
        Reader::Own => front(format, left.own),
        Reader::Incoming => front(format, left.incoming),
        Reader::Sample => front(format, left.sample),
    }
}

/// What is left behind the front of a reader's window.
#[inline(always)]
fn behind<'a>(format: Format, left: Left<'a>, head: Reader) -> Left<'a>
    requires { width format ≤ length (window_of head left.own.now left.incoming.now left.sample.now) }
    ensures own { result.own.now ≡ moved format head Reader.Own left.entry.own.now }
    ensures incoming { result.incoming.now ≡ moved format head Reader.Incoming left.entry.incoming.now }
    ensures sample { result.sample.now ≡ moved format head Reader.Sample left.entry.sample.now }
{
    let Left {
        own,
        incoming,
        sample,
    } = left;
    let width = format.width();
    match head {
        Reader::Own => Left {
            own: &own[width..],
            incoming,
            sample,
        },
        Reader::Incoming => Left {
            own,
            incoming: &incoming[width..],
            sample,
        },
        Reader::Sample => Left {
            own,
            incoming,
            sample: rest(sample, 8 * width),
        },
    }
}

/// Whether the front of the reader's window is known.
#[inline(always)]
fn is_next_known(format: Format, left: Left, head: Reader, lasts: Lasts) -> bool
    ensures known { result ≡ true → Known format (last_of head lasts) (window_of head left.entry.own.now left.entry.incoming.now left.entry.sample.now) }
    ensures unknown { result ≡ false → IsUnknown format (last_of head lasts) (window_of head left.entry.own.now left.entry.incoming.now left.entry.sample.now) }
{
    match head {
        Reader::Own => is_known(format, left.own, lasts.own),
        Reader::Incoming => is_known(format, left.incoming, lasts.incoming),
        Reader::Sample => is_known(format, left.sample, lasts.sample),
    }
}

/// Whether no cell of a source lies behind its window.
#[derive(Clone, Copy, Debug)]
pub struct Lasts {
    pub own: bool,
    pub incoming: bool,
    pub sample: bool,
}

/// Whether the fronts of all three windows are known.
#[inline(always)]
fn are_known(format: Format, left: Left, lasts: Lasts) -> bool
    ensures known { result ≡ true → AreKnown format lasts (bytes_of left.entry) }
    ensures unknown { result ≡ false → IsOneUnknown format lasts (bytes_of left.entry) }
{
    if !is_known(format, left.own, lasts.own) {
        return false;
    }
    if !is_known(format, left.incoming, lasts.incoming) {
        return false;
    }
    is_known(format, left.sample, lasts.sample)
}

/// As what the front that is consumed is passed on, if it is.
#[inline(always)]
fn as_pass(rules: Rules, link: u32, act: Act) -> Option<Pass>
    ensures { result ≡ act_pass rules link act }
{
    match act.does {
        Does::Skips => None,
        Does::Emits => Some(Pass::Item {
            young: flag(rules, act.head),
            link,
        }),
        Does::Looks => Some(Pass::Look { link }),
    }
}

/// Emits what is passed on of the front of a reader's window, with this link. Whether there is something.
#[inline(always)]
fn emit_front(
    format: Format,
    rules: Rules,
    link: u32,
    left: Left,
    act: Act,
    room: &mut [u8],
    at: usize,
) -> bool
    requires suits { ActSuits rules link (front_cell format left.own.now) (front_cell format left.incoming.now) (front_cell format left.sample.now) (Some act) }
    requires own { width format ≤ length left.own.now → Spells format (take (width format) left.own.now) }
    requires incoming { width format ≤ length left.incoming.now → Spells format (take (width format) left.incoming.now) }
    requires sample { width format ≤ length left.sample.now → Spells format (take (width format) left.sample.now) }
    requires inside { at + width format ≤ length room.old }
    ensures size { length room.new ≡ length room.old }
    ensures front { take at room.new ≡ take at room.old }
    ensures puts { Puts format at (emitted_of (act_pass rules link act)
        (pick act.head (front_cell format left.entry.own.now) (front_cell format left.entry.incoming.now) (front_cell format left.entry.sample.now))) room.new }
    ensures there { result ≡ is_some (act_pass rules link act) }
{
    match as_pass(rules, link, act) {
        Some(pass) => {
            put(format, picked(format, left, act.head), pass, room, at);
            true
        }
        None => false,
    }
}

/// What was taken with one cell more of a reader, and one more that was emitted, if one was.
#[inline(always)]
fn counted(taken: Taken, head: Reader, is_emitted: bool) -> Taken
    requires few { consumed taken < 2 ^ 31 }
    requires pushed { taken.pushed < 2 ^ 31 }
    ensures { result ≡ taken_with head is_emitted taken }
{
    let Taken {
        own,
        incoming,
        sample,
        pushed,
    } = taken;
    let pushed = pushed + is_emitted as u32;
    match head {
        Reader::Own => Taken {
            own: own + 1,
            incoming,
            sample,
            pushed,
        },
        Reader::Incoming => Taken {
            own,
            incoming: incoming + 1,
            sample,
            pushed,
        },
        Reader::Sample => Taken {
            own,
            incoming,
            sample: sample + 1,
            pushed,
        },
    }
}

/// Whether the room has a place for one more cell.
#[inline(always)]
fn has_place(format: Format, room: &[u8], pushed: u32) -> bool
    requires { pushed < 2 ^ 32 }
    ensures place { result ≡ true → pushed * width format + width format ≤ length room.now }
    ensures full { result ≡ false → length room.now < pushed * width format + width format }
{
    let at = pushed as usize * format.width();
    at + format.width() <= room.len()
}

/// Takes as many steps of a merge as the fronts of the windows are known and the room holds cells, at most `quota`.
#[inline(always)]
fn merge_in<const COPY: usize>(
    format: Format,
    rules: Rules,
    base: u32,
    windows: Left,
    lasts: Lasts,
    room: &mut [u8],
    quota: u32,
) -> Taken
    requires quota { quota ≤ 65536 }
    requires base { base ≤ 2 ^ 30 }
    ensures size { length room.new ≡ length room.old }
    ensures merged { Merged format rules base (bytes_of windows.entry) lasts room.new result }
    ensures few { consumed result ≤ quota }
    ensures stops { MergeStops format (bytes_of windows.entry) lasts room.new result quota }
{
    let mut left = windows;
    let mut taken = Taken {
        own: 0,
        incoming: 0,
        sample: 0,
        pushed: 0,
    };
    if !are_known(format, left, lasts) {
        return taken;
    }
    for _ in 0..quota {
        if !has_place(format, room, taken.pushed) {
            return taken;
        }
        let link = base + 8 * taken.sample;
        let Some(act) = first_rule(format, rules, left.own, left.incoming, left.sample) else {
            return taken;
        };
        let at = taken.pushed as usize * format.width();
        let is_emitted = emit_front(format, rules, link, left, act, room, at);
        taken = counted(taken, act.head, is_emitted);
        left = behind(format, left, act.head);
        if !is_next_known(format, left, act.head, lasts) {
            return taken;
        }
    }
    taken
}

/// Takes as many steps of a merge as the fronts of the windows are known and the room holds cells, at most `quota`.
#[inline(never)]
pub fn merge_windows(
    format: Format,
    rules: Rules,
    base: u32,
    own: Window,
    incoming: Window,
    sample: Window,
    room: &mut [u8],
    quota: u32,
) -> Taken
    requires quota { quota ≤ 65536 }
    requires base { base ≤ 2 ^ 30 }
    ensures size { length room.new ≡ length room.old }
    ensures merged { Merged format rules base (bytes_in own.entry incoming.entry sample.entry)
        (lasts_in own.entry incoming.entry sample.entry) room.new result }
    ensures few { consumed result ≤ quota }
    ensures stops { MergeStops format (bytes_in own.entry incoming.entry sample.entry)
        (lasts_in own.entry incoming.entry sample.entry) room.new result quota }
    ensures goes_on { CanStep format (bytes_in own.entry incoming.entry sample.entry)
        (lasts_in own.entry incoming.entry sample.entry) room.new quota → 0 < consumed result }
{
    let windows = Left {
        own: own.bytes,
        incoming: incoming.bytes,
        sample: sample.bytes,
    };
    let lasts = Lasts {
        own: own.is_last,
        incoming: incoming.is_last,
        sample: sample.is_last,
    };
    match format {
        Format::One => merge_in::<1>(Format::One, rules, base, windows, lasts, room, quota),
        Format::Two => merge_in::<2>(Format::Two, rules, base, windows, lasts, room, quota),
    }
}
