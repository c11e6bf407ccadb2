//! A checkpoint by way of a journal, for C: which step comes next, and the bytes of the journal.
ghost use Rattle.std.specs.Prelude.{◌≡◌, ◌+◌, ◌*◌, ◌<◌, ◌≤◌, ℕ, true, false, None, List, is_some, length};
ghost use Rattle.sha2.specs.Sha256.{sha256};
ghost use Rattle.cola_marks.specs.Pages.{page_of};
ghost use Rattle.cola_journal.specs.Stages.{step_of, after, resumed, opened};
ghost use Rattle.cola_journal_bytes.specs.Format.{head, piece_head, piece_at, summed};
ghost use Rattle.cola_journal_bytes.specs.Applied.{pages_read};
ghost use Rattle.cola_c.specs.Journal.{stage_at, number_of, step_number, begun, pieces_of, FindsPiece};

use cola_journal::{Stage, Step};
use cola_journal_bytes::{JournalWriter, is_applied, next_piece, piece_head};

/// The bytes of a page.
const PAGE: usize = 4_096;

/// The stage of a number. A number that none has is that of a checkpoint that is stuck.
fn stage_at(number: u8) -> Stage
    ensures { result ≡ stage_at number }
{
    match number {
        0 => Stage::Rest,
        1 => Stage::Journal,
        2 => Stage::JournalSync,
        3 => Stage::Found,
        4 => Stage::Mark,
        5 => Stage::MarkSync,
        6 => Stage::Body,
        7 => Stage::BodySync,
        8 => Stage::Header,
        9 => Stage::HeaderSync,
        10 => Stage::Empty,
        11 => Stage::EmptySync,
        13 => Stage::Littered,
        _ => Stage::Stuck,
    }
}

/// The number of a stage.
fn number_of(stage: Stage) -> u8
    ensures { result ≡ number_of stage }
{
    match stage {
        Stage::Rest => 0,
        Stage::Journal => 1,
        Stage::JournalSync => 2,
        Stage::Found => 3,
        Stage::Mark => 4,
        Stage::MarkSync => 5,
        Stage::Body => 6,
        Stage::BodySync => 7,
        Stage::Header => 8,
        Stage::HeaderSync => 9,
        Stage::Empty => 10,
        Stage::EmptySync => 11,
        Stage::Stuck => 12,
        Stage::Littered => 13,
    }
}

/// The number of a step, and 0 of none.
fn step_number(step: Option<Step>) -> u8
    ensures { result ≡ step_number step }
{
    match step {
        None => 0,
        Some(Step::WriteJournal) => 1,
        Some(Step::SyncJournal) => 2,
        Some(Step::MarkInUse) => 3,
        Some(Step::WritePages) => 4,
        Some(Step::WriteHeader) => 5,
        Some(Step::SyncFile) => 6,
        Some(Step::EmptyJournal) => 7,
    }
}

/// Where an opening begins, by whether it found a journal that is to be applied.
#[unsafe(no_mangle)]
pub extern "C" fn cola_core_stage_opened(whole: bool) -> u8
    ensures { result ≡ number_of (opened whole) }
{
    number_of(Stage::opened(whole))
}

/// Where a checkpoint begins: where none is under way. Any other stage stays.
#[unsafe(no_mangle)]
pub extern "C" fn cola_core_stage_begin(stage: u8) -> u8
    ensures { result ≡ number_of (begun (stage_at stage)) }
{
    number_of(stage_at(stage).begin())
}

/// The step that is to be carried out, or 0: at rest, and where a step was refused, until it is resumed.
#[unsafe(no_mangle)]
pub extern "C" fn cola_core_stage_next(stage: u8) -> u8
    ensures { result ≡ step_number (step_of (stage_at stage)) }
{
    step_number(stage_at(stage).next())
}

/// The stage behind that step, by whether it was carried out.
#[unsafe(no_mangle)]
pub extern "C" fn cola_core_stage_done(stage: u8, carried_out: bool) -> u8
    ensures { result ≡ number_of (after (stage_at stage) carried_out) }
{
    number_of(stage_at(stage).done(carried_out))
}

/// The stage at which a checkpoint goes on of which a step was refused.
#[unsafe(no_mangle)]
pub extern "C" fn cola_core_stage_resume(stage: u8) -> u8
    ensures { result ≡ number_of (resumed (stage_at stage)) }
{
    number_of(stage_at(stage).resume())
}

/// What stands before the bytes of a piece of a journal.
#[unsafe(no_mangle)]
pub extern "C" fn cola_core_journal_piece(at: u64, count: u64, before: &mut [u8; 16])
    ensures { before.new ≡ piece_head at count }
{
    *before = piece_head(at, count);
}

/// Whether bytes are a journal that is to be applied to its file.
#[unsafe(no_mangle)]
pub extern "C" fn cola_core_journal_is_whole(journal: &[u8]) -> bool
    ensures { result ≡ is_some (pages_read journal.now) }
{
    is_applied(journal)
}

/// The first piece of some: its place in the file, and how many bytes it has, which stand 16 bytes behind its begin. The next
/// one stands behind them. False where there is none, or the bytes are no piece.
#[unsafe(no_mangle)]
pub extern "C" fn cola_core_journal_next(pieces: &[u8], at: &mut u64, count: &mut u64) -> bool
    ensures found { result ≡ true → FindsPiece pieces.now at.new count.new }
    ensures none { result ≡ false → (piece_at pieces.now ≡ None) × (at.new ≡ at.old) × (count.new ≡ count.old) }
{
    match next_piece(pieces) {
        Some((place, piece, _)) => {
            *at = place;
            *count = piece.len() as u64;
            true
        }
        None => false,
    }
}

/// How many pages have a mark.
fn marked(marks: &[u8]) -> u64
    ensures { (bytes : List ℕ) → result ≡ length (pieces_of marks.now bytes) }
{
    let mut count = 0;
    for page in 0..marks.len() {
        if marks[page] != 0 {
            count += 1;
        }
    }
    count
}

/// The bytes of a page.
fn page_at(bytes: &[u8], page: usize) -> &[u8]
    requires { 4096 * page ≤ length bytes.now }
    ensures { result.now ≡ page_of bytes.now page }
{
    let behind = &bytes[page * PAGE..];
    if behind.len() < PAGE {
        behind
    } else {
        &behind[..PAGE]
    }
}

/// What stands before the pieces of a journal of the marked pages, of which there are so many, and its sum.
fn sum_of(bytes: &[u8], marks: &[u8], count: u64) -> ([u8; 16], [u8; 32])
    requires pages { 4096 * length marks.now < length bytes.now + 4096 }
    requires count { count ≡ length (pieces_of marks.now bytes.now) }
    ensures head { result.0 ≡ head count }
    ensures sum { result.1 ≡ sha256 (summed (pieces_of marks.now bytes.now)) }
{
    let (mut writer, head) = JournalWriter::begin(count);
    for page in 0..marks.len() {
        if marks[page] != 0 {
            writer.piece((page * PAGE) as u64, page_at(bytes, page));
        }
    }
    (head, writer.end())
}

/// What stands before the pieces of the journal of the marked pages of a store, one piece a page, and what stands behind them.
/// No page is marked that has no byte.
#[unsafe(no_mangle)]
pub extern "C" fn cola_core_journal_frame(
    bytes: &[u8],
    marks: &[u8],
    first: &mut [u8; 16],
    last: &mut [u8; 32],
)
    requires pages { 4096 * length marks.now < length bytes.now + 4096 }
    ensures first { first.new ≡ head (length (pieces_of marks.now bytes.now)) }
    ensures last { last.new ≡ sha256 (summed (pieces_of marks.now bytes.now)) }
{
    let (head, sum) = sum_of(bytes, marks, marked(marks));
    *first = head;
    *last = sum;
}
