//! A merge at the bottom by the plain program: steps that stop and resume, beside the whole weave.
use cola_plain_runs::cells::{PlainCell, PlainItem, PlainPart, is_well_formed};
use cola_plain_runs::merge::{PlainBuild, take_step};
use cola_plain_runs::weave::{sample, weave};
use std::alloc::{AllocError, Global};
use std::process::Abort;

type Run = Vec<PlainCell<u32, u32>>;

const BOTTOM: PlainPart = PlainPart {
    only_young: false,
    marks_young: false,
    drops_tombstones: true,
};

// Old items of the keys from `first` to `last`, each with a number so much greater.
fn add_items(
    run: &mut Run,
    (first, last): (u32, u32),
    more: u32,
    link: u64,
) -> Result<(), AllocError> {
    for key in first..=last {
        run.push(PlainCell::Entry {
            key,
            item: PlainItem::Value(key.saturating_add(more)),
            young: false,
            link,
        })?;
    }
    Ok(())
}

// The run above the bottom after forty-three puts of thirty-two keys in turn, with two newer items, a sample of the run
// below, and six items that the bottom lacks.
fn incoming_run(alloc: Global) -> Result<Run, AllocError> {
    let mut run = Vec::new(alloc);
    add_items(&mut run, (1, 2), 32, 0)?;
    for (key, link) in [(8u32, 0u64), (16, 8), (24, 16)] {
        run.push(PlainCell::Look { key, link })?;
    }
    add_items(&mut run, (27, 32), 0, 24)?;
    Ok(run)
}

const NO_KEYS: [u32; 0] = [];

// What 37 steps build. The first 28 take 23 cells of the bottom's run and 5 of the other.
fn built(
    rt: &impl Abort,
    alloc: Global,
    own: &[PlainCell<u32, u32>],
    incoming: &[PlainCell<u32, u32>],
) -> Result<PlainBuild<u32, u32>, AllocError> {
    let mut build = PlainBuild {
        own: 0,
        incoming: 0,
        sampled: 0,
        done: Vec::new(alloc),
    };
    for step in 0..37u32 {
        let cursors = (build.own, build.incoming, build.sampled);
        assert!(rt; cursors.0 < 100 && cursors.1 < 100 && cursors.2 < 100);
        assert!(rt; step != 28 || cursors == (23, 5, 0) && build.done.len() == 23);
        take_step(&BOTTOM, own, incoming, &NO_KEYS, &mut build)?;
    }
    assert!(rt; build.own == 26 && build.incoming == 11);
    Ok(build)
}

#[test]
fn a_bottom_merge_takes_37_steps(rt: HostRuntime) -> Result<(), AllocError> {
    let alloc = rt.alloc();
    let mut own = Vec::new(alloc);
    add_items(&mut own, (1, 26), 0, 0)?;
    let incoming = incoming_run(alloc)?;
    let (own, incoming) = (own.as_slice(), incoming.as_slice());
    assert!(rt; own.len() == 26 && incoming.len() == 11);
    let whole = weave(alloc, &BOTTOM, own, incoming, &NO_KEYS)?;
    let build = built(&rt, alloc, own, incoming)?;
    assert!(rt; is_well_formed(own) && is_well_formed(incoming));
    assert!(rt; build.done == whole && is_well_formed(whole.as_slice()));
    let sampled = sample(alloc, whole.as_slice())?;
    assert!(rt; whole.len() == 32 && sampled.as_slice() == [8u32, 16, 24, 32].as_slice());
    Ok(())
}
