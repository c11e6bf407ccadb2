//! The five rules of a merge, over the heads that are held.
ghost use Rattle.std.specs.Prelude.{◌≡◌, ◌&&◌, None, Some};
ghost use Rattle.cola_runs.specs.Steps.{Take, flag_of, skips_own, skips_incoming};
ghost use Rattle.cola_cell.specs.declared.cell.Cell.{Cell};
ghost use Rattle.cola_cell.specs.Held.{as_cell};
ghost use Rattle.cola_cell.specs.Packed.{is_tombstone};
ghost use Rattle.cola_merge.specs.declared.merging.Merger.{Merger};
ghost use Rattle.cola_merge.specs.Feeds.{part_of};
ghost use Rattle.cola_merge.specs.Heads.{heads};
ghost use Rattle.cola_merge.specs.Rules.{as_head, as_action, Suits, ChoiceSuits, PassesOn, IfHeld, ChoosesLook, ChoosesItemOrLook, ChoosesLeast, ChoosesRule};

use crate::aims::Aim;
use crate::heads::Head;
use cola_cell::{Packed, Pass, Reader};
use cola_clock::Part;
use std::cmp::Ordering;

/// What a step does: it consumes the head of this reader, and passes its cell on, or emits nothing.
#[derive(Clone, Copy, Debug)]
pub(crate) struct Choice {
    pub(crate) head: Reader,
    pub(crate) pass: Option<Pass>,
}

/// What becomes of an item at a head: none for a tombstone that is left out.
#[inline(always)]
fn emit(aim: &Aim, link: u32, head: Reader, cell: &Packed) -> Option<Pass>
    ensures emitted { PassesOn aim.now link head cell.now result }
    ensures suits { Suits result (Some cell.now) }
{
    if cell.is_look() || is_left_out(aim, cell) {
        return None;
    }
    Some(Pass::Item {
        young: flag(aim, head),
        link,
    })
}

/// The youth of an item that is emitted for a head.
#[inline(always)]
fn flag(aim: &Aim, head: Reader) -> bool
    ensures { result ≡ flag_of (part_of aim.now) (as_head head) }
{
    match head {
        Reader::Incoming => aim.young,
        Reader::Own | Reader::Sample => false,
    }
}

/// Whether a cell is a tombstone that is left out.
#[inline(always)]
fn is_left_out(aim: &Aim, cell: &Packed) -> bool
    ensures { result ≡ aim.now.bottom && is_tombstone cell.now }
{
    aim.bottom && cell.is_tombstone()
}

/// Consumes a head and emits nothing.
#[inline(always)]
fn pass(head: Reader) -> Option<Choice>
    ensures choice { (m : Merger) → as_action m result ≡ Take (as_head head) None }
    ensures suits { (m : Merger) → ChoiceSuits m result }
{
    Some(Choice { head, pass: None })
}

/// Emits a lookahead cell of the key of the sample's head.
#[inline(always)]
fn look(link: u32) -> Option<Choice>
    ensures choice { ChoosesLook link result }
    ensures suits { (m : Merger) (next : Cell) → m.sample.cell ≡ Some next → ChoiceSuits m result }
{
    Some(Choice {
        head: Reader::Sample,
        pass: Some(Pass::Look { link }),
    })
}

/// The item at a head against the head of the sample: the item goes first where its key is at most the sample's key.
#[inline(always)]
fn emit_item_or_look(
    aim: &Aim,
    link: u32,
    head: Reader,
    cell: &Packed,
    sample: &Head,
) -> Option<Choice>
    ensures choice { ChoosesItemOrLook aim.now link head cell.now sample.now result }
    ensures suits { IfHeld head cell.now sample.now (λ m. ChoiceSuits m result) }
{
    match sample.cell() {
        Some(next) if cell.cmp_keys(next).is_gt() => look(link),
        _ => Some(Choice {
            head,
            pass: emit(aim, link, head, cell),
        }),
    }
}

/// Whether the own head is passed over: it is a lookahead cell, or an item that is not wanted.
#[inline(always)]
fn passes_own(aim: &Aim, own: &Packed) -> bool
    ensures { result ≡ skips_own (part_of aim.now) (Some (as_cell own.now)) }
{
    if own.is_look() {
        return true;
    }
    match aim.part {
        Part::All => false,
        Part::Young => !own.is_young(),
    }
}

/// Whether the incoming head is passed over: it is a lookahead cell.
#[inline(always)]
fn passes_incoming(incoming: &Packed) -> bool
    ensures { result ≡ skips_incoming (Some (as_cell incoming.now)) }
{
    incoming.is_look()
}

/// The rule that fits where no head is passed over: of two equal keys the own item is dropped, else the smaller key
/// goes first.
#[inline(always)]
fn emit_least(aim: &Aim, link: u32, own: &Head, incoming: &Head, sample: &Head) -> Option<Choice>
    ensures choice { ChoosesLeast aim.now link (heads own.now incoming.now sample.now) result }
    ensures suits { ChoiceSuits (heads own.now incoming.now sample.now) result }
{
    match (own.cell(), incoming.cell()) {
        (None, None) => match sample.cell() {
            None => None,
            Some(_) => look(link),
        },
        (Some(cell), None) => emit_item_or_look(aim, link, Reader::Own, cell, sample),
        (None, Some(cell)) => emit_item_or_look(aim, link, Reader::Incoming, cell, sample),
        (Some(cell), Some(newer)) => match cell.cmp_keys(newer) {
            Ordering::Less => emit_item_or_look(aim, link, Reader::Own, cell, sample),
            Ordering::Equal => pass(Reader::Own),
            Ordering::Greater => emit_item_or_look(aim, link, Reader::Incoming, newer, sample),
        },
    }
}

/// The first of the five rules that fits the three heads, where emitted cells get this link.
#[inline(always)]
pub(crate) fn first_rule(
    aim: &Aim,
    link: u32,
    own: &Head,
    incoming: &Head,
    sample: &Head,
) -> Option<Choice>
    ensures choice { ChoosesRule aim.now link (heads own.now incoming.now sample.now) result }
    ensures suits { ChoiceSuits (heads own.now incoming.now sample.now) result }
{
    match own.cell() {
        Some(cell) if passes_own(aim, cell) => return pass(Reader::Own),
        _ => {}
    }
    match incoming.cell() {
        Some(cell) if passes_incoming(cell) => return pass(Reader::Incoming),
        _ => {}
    }
    emit_least(aim, link, own, incoming, sample)
}
