//! The steps of a checkpoint, and what comes next.
ghost use Rattle.std.specs.Prelude.{◌≡◌, true};
ghost use Rattle.cola_journal.specs.declared.stage.Stage.TheVariants.{Rest, Journal};
ghost use Rattle.cola_journal.specs.Stages.{step_of, after, resumed, opened};

/// What is done to the file or to its journal. Whoever asks for it carries it out, and tells whether all of it went well.
#[derive(Clone, Copy, Debug, PartialEq, Eq, Drop)]
pub enum Step {
    /// Empty the journal, and write the bytes of the new one.
    WriteJournal,
    /// Sync the journal.
    SyncJournal,
    /// Write the byte 1, at place 14 of the file: its header says that it is in use.
    MarkInUse,
    /// Write the pages of the journal to the file, without what lies in its first 512 bytes.
    WritePages,
    /// Write what of them lies in its first 512 bytes.
    WriteHeader,
    /// Sync the file.
    SyncFile,
    /// Make the journal's length 0.
    EmptyJournal,
}

/// How far a checkpoint is.
#[derive(Clone, Copy, Debug, PartialEq, Eq, Drop)]
pub enum Stage {
    /// None is under way, and the journal is empty.
    Rest,
    /// Its journal is to be written, and then to be synced. The file has the last checkpoint.
    Journal,
    JournalSync,
    /// A whole journal was found, and is to be synced.
    Found,
    /// The journal holds the checkpoint, and the file is to be made equal to it.
    Mark,
    MarkSync,
    Body,
    BodySync,
    Header,
    HeaderSync,
    /// The file has what holds, and the journal is to be emptied, and then to be synced.
    Empty,
    EmptySync,
    /// A step on the file, or the sync of a journal that was found, was refused.
    Stuck,
    /// A step that empties the journal was refused.
    Littered,
}

impl Stage {
    /// Where an opening begins that found a whole journal, or none that is whole.
    pub fn opened(whole: bool) -> Stage
        ensures { result ≡ opened whole }
    {
        if whole { Stage::Found } else { Stage::Empty }
    }

    /// The stage at which a checkpoint begins: where none is under way. Any other stays.
    pub fn begin(self) -> Stage
        ensures rest { self ≡ Rest → result ≡ Journal }
        ensures others { (self ≡ Rest → ⊥) → result ≡ self }
    {
        match self {
            Stage::Rest => Stage::Journal,
            stage => stage,
        }
    }

    /// The step that is to be carried out, or none: at rest, and where a step was refused, until it is resumed.
    pub fn next(self) -> Option<Step>
        ensures { result ≡ step_of self }
    {
        match self {
            Stage::Rest | Stage::Stuck | Stage::Littered => None,
            Stage::Journal => Some(Step::WriteJournal),
            Stage::JournalSync | Stage::Found | Stage::EmptySync => Some(Step::SyncJournal),
            Stage::Mark => Some(Step::MarkInUse),
            Stage::Body => Some(Step::WritePages),
            Stage::Header => Some(Step::WriteHeader),
            Stage::MarkSync | Stage::BodySync | Stage::HeaderSync => Some(Step::SyncFile),
            Stage::Empty => Some(Step::EmptyJournal),
        }
    }

    /// The stage behind that step, by whether it was carried out.
    pub fn done(self, carried_out: bool) -> Stage
        ensures { result ≡ after self carried_out }
    {
        if carried_out {
            return self.behind();
        }
        match self {
            Stage::Rest => Stage::Rest,
            Stage::Journal | Stage::JournalSync => Stage::Empty,
            Stage::Empty | Stage::EmptySync | Stage::Littered => Stage::Littered,
            _ => Stage::Stuck,
        }
    }

    /// The stage behind a step that was carried out.
    fn behind(self) -> Stage
        ensures { result ≡ after self true }
    {
        match self {
            Stage::Rest | Stage::EmptySync => Stage::Rest,
            Stage::Journal => Stage::JournalSync,
            Stage::JournalSync | Stage::Found => Stage::Mark,
            Stage::Mark => Stage::MarkSync,
            Stage::MarkSync => Stage::Body,
            Stage::Body => Stage::BodySync,
            Stage::BodySync => Stage::Header,
            Stage::Header => Stage::HeaderSync,
            Stage::HeaderSync => Stage::Empty,
            Stage::Empty => Stage::EmptySync,
            Stage::Stuck => Stage::Stuck,
            Stage::Littered => Stage::Littered,
        }
    }

    /// The stage at which a checkpoint goes on of which a step was refused. Any other stays.
    pub fn resume(self) -> Stage
        ensures { result ≡ resumed self }
    {
        match self {
            Stage::Stuck => Stage::Found,
            Stage::Littered => Stage::Empty,
            stage => stage,
        }
    }
}
