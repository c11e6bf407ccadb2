//! An object that writes only the calls that its traits require.
ghost use Rattle.std.specs.Prelude.{◌≡◌, ◌<◌};

use crate::chains::worked_chain;
use crate::merges::{PARTS, builds, plain_weave, small_runs};
use crate::searches::answers_worked;
use cola_cell::{Cell, CellSink, CellSource, FlatCells, PushFault, ReadFault, Reader};
use cola_outside::Steps;
use std::alloc::{AllocError, Global};
use std::marker::Brand;
use std::process::Abort;
use std::sync::ledger::{Blank, Ledger};

/// An object by the required calls alone: its other calls have the bodies of the traits.
#[derive(Drop)]
struct Required<W> {
    object: W,
}

impl<W: CellSource> CellSource for Required<W> {
    ghost state = { λ required. W.state required.object };

    ghost Kept = { W.Kept };

    ghost kept = { λ required. W.kept required.object };

    fn read<L: Ledger>(
        &mut self,
        level: u8,
        slot: u8,
        index: u32,
        steps: &mut Steps<L>,
    ) -> Result<Cell, ReadFault> {
        self.object.read(level, slot, index, steps)
    }

    fn read_for<L: Ledger>(
        &mut self,
        reader: Reader,
        level: u8,
        slot: u8,
        index: u32,
        steps: &mut Steps<L>,
    ) -> Result<Cell, ReadFault> {
        self.object.read_for(reader, level, slot, index, steps)
    }

    fn ticked(&self) -> u64 {
        self.object.ticked()
    }
}

impl<W: CellSink> CellSink for Required<W> {
    fn restart(&mut self, level: u8, slot: u8) {
        self.object.restart(level, slot);
    }

    fn push<L: Ledger>(
        &mut self,
        level: u8,
        slot: u8,
        cell: &Cell,
        steps: &mut Steps<L>,
    ) -> Result<(), PushFault> {
        self.object.push(level, slot, cell, steps)
    }

    fn finish(&mut self, level: u8) -> Result<(), PushFault> {
        self.object.finish(level)
    }

    fn shadow_len(&self, level: u8) -> u32 {
        self.object.shadow_len(level)
    }
}

/// Whether the worked chain is searched and walked, both ways, as in any object.
fn is_searched<L: Ledger>(alloc: Global, steps: &mut Steps<L>) -> Result<bool, AllocError> {
    let chain = worked_chain(alloc)?;
    let object = FlatCells::new(alloc, 4, Vec::new(alloc))?;
    let mut required = Required { object };
    Ok(answers_worked(alloc, &mut required, &chain, steps))
}

/// Whether a merge in two calls builds what the plain program makes of the same runs.
fn is_merged<L: Ledger>(alloc: Global, steps: &mut Steps<L>) -> Result<bool, AllocError> {
    let part = &PARTS[0];
    let runs = small_runs(alloc)?;
    let wanted = plain_weave(alloc, &runs, part)?;
    let object = FlatCells::new(alloc, 4, Vec::new(alloc))?;
    let mut required = Required { object };
    Ok(builds(&mut required, &runs, &wanted, part, &[4, 2], 0, steps))
}

fn required_calls<L: Ledger>(rt: &impl Abort, alloc: Global, blank: Blank)
    requires name { blank.name ≡ L.name }
    requires parts { blank.parts ≡ L.parts }
    requires some { 0 < L.parts }
{
    let mut steps = Steps::<L>::begin(blank);
    assert!(rt; is_searched(alloc, &mut steps) == Ok(true));
    assert!(rt; is_merged(alloc, &mut steps) == Ok(true));
}

#[test]
fn required_calls_are_enough(rt: HostRuntime) {
    required_calls::<Brand>(&rt, rt.alloc(), Blank::new(1));
}
