//! The steps of a checkpoint in order, and of recoveries.
use cola_journal::{Stage, Step};
use std::process::Abort;

/// A checkpoint from its begin on, each step carried out.
fn carry_out(rt: &impl Abort, begun: Stage, steps: &[Step]) {
    let mut stage = begun;
    for step in steps {
        assert!(rt; stage.next() == Some(*step));
        stage = stage.done(true);
    }
    assert!(rt; stage == Stage::Rest && stage.next().is_none());
}

/// What is done once the journal is on the disk.
const APPLIED: [Step; 8] = [
    Step::MarkInUse,
    Step::SyncFile,
    Step::WritePages,
    Step::SyncFile,
    Step::WriteHeader,
    Step::SyncFile,
    Step::EmptyJournal,
    Step::SyncJournal,
];

#[test]
fn a_checkpoint_comes_to_rest(rt: HostRuntime) {
    let begun = Stage::Rest.begin();
    assert!(rt; begun.next() == Some(Step::WriteJournal));
    let written = begun.done(true);
    assert!(rt; written.next() == Some(Step::SyncJournal));
    carry_out(&rt, written.done(true), &APPLIED);
}

#[test]
fn an_opening_applies_a_whole_journal_and_drops_any_other(rt: HostRuntime) {
    let found = Stage::opened(true);
    assert!(rt; found.next() == Some(Step::SyncJournal));
    carry_out(&rt, found.done(true), &APPLIED);
    carry_out(&rt, Stage::opened(false), &APPLIED[6..]);
}

#[test]
fn a_refused_step_is_told(rt: HostRuntime) {
    let full = Stage::Rest.begin().done(false);
    carry_out(&rt, full, &APPLIED[6..]);
    let stuck = Stage::Body.done(false);
    assert!(rt; stuck.next().is_none() && stuck.resume() == Stage::Found);
    let littered = Stage::EmptySync.done(false);
    assert!(rt; littered.next().is_none() && littered.resume() == Stage::Empty);
}
