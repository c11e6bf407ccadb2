//! The five rules of a merge on plain cells, and one step.

ghost use Rattle.std.specs.Prelude.{◌≡◌, ◌*◌, ◌<◌, ◌^◌, OnOk, OnErr, None, Some, slice_get};
ghost use Rattle.std.specs.Option.{option_map};
ghost use Rattle.cola_runs.specs.Steps.{Take, emitted, item_or_look, least, rule, skips_own, skips_incoming, step};
ghost use Rattle.cola_plain_runs.specs.Runs.{as_cell, as_run, as_part, as_head, as_action, as_build, own_after, incoming_after, sampled_after};

use crate::cells::{PlainCell, PlainItem, PlainPart, emit_cell, key, looks_ahead};
use std::alloc::AllocError;
use std::cmp::Ordering;

/// The head of one of the three sources of a build.
#[derive(Clone, Copy)]
pub enum PlainHead {
    Own,
    Incoming,
    Sample,
}

/// What one step does: it consumes a head and emits a cell, if there is one; or nothing, where no head is left.
#[derive(Clone, Copy)]
pub enum PlainAction<K, V> {
    Take {
        head: PlainHead,
        cell: Option<PlainCell<K, V>>,
    },
    Ended,
}

/// How far a build has come: the cells consumed of each source, and the cells emitted.
#[derive(Drop)]
pub struct PlainBuild<K, V> {
    pub own: usize,
    pub incoming: usize,
    pub sampled: usize,
    pub done: Vec<PlainCell<K, V>>,
}

/// The cell that is emitted for an item at the head: none for a tombstone that is left out.
fn emit<K: Copy, V: Copy>(
    part: &PlainPart,
    link: u64,
    head: PlainHead,
    cell: &PlainCell<K, V>,
) -> Option<PlainCell<K, V>>
    ensures { option_map as_cell result ≡ emitted (as_part part.now) link (as_head head) (as_cell cell.now) }
{
    let young = match head {
        PlainHead::Incoming => part.marks_young,
        PlainHead::Own | PlainHead::Sample => false,
    };
    match cell {
        PlainCell::Entry {
            item: PlainItem::Tombstone,
            ..
        } if part.drops_tombstones => None,
        PlainCell::Entry { key, item, .. } => Some(PlainCell::Entry {
            key: *key,
            item: *item,
            young,
            link,
        }),
        PlainCell::Look { .. } => None,
    }
}

/// Consumes a head and emits nothing.
fn pass<K, V>(head: PlainHead) -> PlainAction<K, V>
    ensures { as_action result ≡ Take (as_head head) None }
{
    PlainAction::Take { head, cell: None }
}

/// The item at a head against the head of the sample: the item goes first where its key is at most the sample's key.
fn emit_item_or_look<K: Ord + Copy, V: Copy>(
    part: &PlainPart,
    link: u64,
    head: PlainHead,
    cell: &PlainCell<K, V>,
    sample: Option<K>,
) -> PlainAction<K, V>
    ensures { as_action result ≡ item_or_look K.cmp (as_part part.now) link (as_head head) (as_cell cell.now) sample }
{
    match sample {
        Some(next) if key(cell).cmp(&next).is_gt() => {
            PlainAction::Take {
                head: PlainHead::Sample,
                cell: Some(PlainCell::Look { key: next, link }),
            }
        }
        _ => PlainAction::Take {
            head,
            cell: emit(part, link, head, cell),
        },
    }
}

/// Whether the own head is passed over: it is a lookahead cell, or an item that is not wanted.
fn passes_own<K, V>(part: &PlainPart, own: &PlainCell<K, V>) -> bool
    ensures { result ≡ skips_own (as_part part.now) (Some (as_cell own.now)) }
{
    match own {
        PlainCell::Entry { young, .. } => part.only_young && !*young,
        PlainCell::Look { .. } => true,
    }
}

/// The rule that fits where no head is passed over: of two equal keys the own item is dropped, else the smaller key
/// goes first.
fn emit_least<K: Ord + Copy, V: Copy>(
    part: &PlainPart,
    link: u64,
    own: &Option<PlainCell<K, V>>,
    incoming: &Option<PlainCell<K, V>>,
    sample: Option<K>,
) -> PlainAction<K, V>
    ensures { as_action result ≡ least K.cmp (as_part part.now) link (option_map as_cell own.now) (option_map as_cell incoming.now) sample }
{
    match (own, incoming) {
        (None, None) => match sample {
            None => PlainAction::Ended,
            Some(next) => PlainAction::Take {
                head: PlainHead::Sample,
                cell: Some(PlainCell::Look { key: next, link }),
            },
        },
        (Some(cell), None) => emit_item_or_look(part, link, PlainHead::Own, cell, sample),
        (None, Some(cell)) => emit_item_or_look(part, link, PlainHead::Incoming, cell, sample),
        (Some(cell), Some(newer)) => match key(cell).cmp(&key(newer)) {
            Ordering::Less => emit_item_or_look(part, link, PlainHead::Own, cell, sample),
            Ordering::Equal => pass(PlainHead::Own),
            Ordering::Greater => emit_item_or_look(part, link, PlainHead::Incoming, newer, sample),
        },
    }
}

/// The first of the five rules that fits the three heads, where emitted cells get this link.
pub fn first_rule<K: Ord + Copy, V: Copy>(
    part: &PlainPart,
    link: u64,
    own: &Option<PlainCell<K, V>>,
    incoming: &Option<PlainCell<K, V>>,
    sample: Option<K>,
) -> PlainAction<K, V>
    ensures { as_action result ≡ rule K.cmp (as_part part.now) link (option_map as_cell own.now) (option_map as_cell incoming.now) sample }
{
    match own {
        Some(cell) if passes_own(part, cell) => return pass(PlainHead::Own),
        _ => {}
    }
    match incoming {
        Some(cell) if looks_ahead(cell) => return pass(PlainHead::Incoming),
        _ => {}
    }
    emit_least(part, link, own, incoming, sample)
}

/// The item at an index, if there is one.
fn item_at<T: Copy>(items: &[T], index: usize) -> Option<T>
    ensures { result ≡ slice_get items.now index }
{
    items.get(index).copied()
}

/// One more cell consumed of the source of this head. The cursors are far from the end of their type.
fn consume<K, V>(build: &mut PlainBuild<K, V>, head: PlainHead)
    requires own_small { build.old.own < 2 ^ 32 }
    requires incoming_small { build.old.incoming < 2 ^ 32 }
    requires sampled_small { build.old.sampled < 2 ^ 32 }
    ensures consumed { (build.new.own ≡ (own_after head build.old.own)) × (build.new.incoming ≡ incoming_after head build.old.incoming) × (build.new.sampled ≡ sampled_after head build.old.sampled) }
    ensures emitted { build.new.done ≡ build.old.done }
{
    match head {
        PlainHead::Own => build.own += 1,
        PlainHead::Incoming => build.incoming += 1,
        PlainHead::Sample => build.sampled += 1,
    }
}

/// One step of a merge. The cursors are below `2 ^ 32`. Want of memory is the one error; the build is then as before.
pub fn take_step<K: Ord + Copy, V: Copy>(
    part: &PlainPart,
    own: &[PlainCell<K, V>],
    incoming: &[PlainCell<K, V>],
    keys: &[K],
    build: &mut PlainBuild<K, V>,
) -> Result<(), AllocError>
    requires own_small { build.old.own < 2 ^ 32 }
    requires incoming_small { build.old.incoming < 2 ^ 32 }
    requires sampled_small { build.old.sampled < 2 ^ 32 }
    ensures step { OnOk result (as_build build.new ≡ step K.cmp (as_part part.now) (as_run own.now) (as_run incoming.now) keys.now (as_build build.old)) }
    ensures kept { OnErr result (as_build build.new ≡ as_build build.old) }
{
    let link = 8 * build.sampled as u64;
    let action = first_rule(
        part,
        link,
        &item_at(own, build.own),
        &item_at(incoming, build.incoming),
        item_at(keys, build.sampled),
    );
    match action {
        PlainAction::Ended => Ok(()),
        PlainAction::Take { head, cell } => {
            emit_cell(&mut build.done, cell)?;
            consume(build, head);
            Ok(())
        }
    }
}
