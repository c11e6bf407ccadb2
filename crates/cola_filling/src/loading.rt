//! Rows of text, loaded into a new file.
ghost use Rattle.std.specs.Prelude.{◌≡◌, ◌+◌, ◌≤◌, ◌++◌, length, decimal};
ghost use Rattle.cola_device.specs.Bytes.{HasRange};
ghost use Rattle.cola_words.specs.Sizes.{SuitStore};
ghost use Rattle.cola_spec.specs.Reply.{line};
ghost use Rattle.cola_report.specs.Line.{LineEnds};
ghost use Rattle.cola_opening.specs.Counted.{Spends};
ghost use Rattle.cola_load.specs.Loading.{full_blocks};
ghost use Rattle.cola_run.specs.Cells.{device_levels, file_bytes};
ghost use Rattle.cola_filling.specs.Loads.{LoadEnds, LoadEndsBy, loaded_line, word_line, load_status, most_writes};
ghost use Rattle.cola_filling.specs.Lines.{LinesLoad, IsFresh, LoadFinishes};

use cola_cell::Format;
use cola_device::Device;
use cola_io::{LineReader, Next, Sink, Source};
use cola_layout::Geometry;
use cola_load::{LoadFault, Loader, RowLine, Rows, Word};
use cola_report::{Text, push_bytes, push_number, write_line};
use cola_session::{INPUT_LIMIT, text_of};
use cola_status::Status;
use std::alloc::Global;

/// The line of so many rows that were loaded.
pub(crate) fn line_of_rows(rows: u64) -> Text
    ensures { result.items ≡ loaded_line rows }
{
    let mut text = Text::new();
    push_bytes(&mut text, b"loaded ");
    push_number(&mut text, rows);
    push_bytes(&mut text, b"\n");
    text
}

/// The line of a word and the number of the line that has it.
fn numbered(word: &[u8], number: u64) -> Text
    requires { length word.now ≤ 6 }
    ensures { result.items ≡ line (word.now ++ decimal number) }
{
    let mut text = Text::new();
    push_bytes(&mut text, word);
    push_number(&mut text, number);
    push_bytes(&mut text, b"\n");
    text
}

/// The line of a word.
fn line_of_word(word: Word) -> Text
    ensures { result.items ≡ word_line word }
{
    match word {
        Word::Bad(number) => numbered(b"bad ", number),
        Word::Order(number) => numbered(b"order ", number),
        Word::Full(number) => numbered(b"full ", number),
    }
}

/// Writes the line of a word, and gives the status.
fn write_word<K: Sink>(word: Word, sink: &mut K) -> u8
    ensures { LineEnds K.Sink (word_line word) 14 sink.old sink.new result }
{
    write_line(line_of_word(word).as_slice(), Status::BadLine as u8, sink)
}

/// Loads the lines of a source, up to its end, or to the first line that has a word, and writes that word as a line.
///
/// It gives none where the end of the source was met and no line had a word, and else the status: 3 where the source failed,
/// 5 where the device did, 9 where 2^40 bytes were taken, 14 where a line has a word, and 4 where the sink failed.
fn load_lines<S: Source, K: Sink, D: Device>(
    loader: &mut Loader,
    geometry: &Geometry,
    source: &mut S,
    sink: &mut K,
    device: &mut D,
) -> Option<u8>
    requires fresh { IsFresh (D.bytes device.old) loader.old }
    requires same { geometry.now ≡ loader.old.geometry }
    ensures ends { LinesLoad S.Source K.Sink D.Device loader.old loader.new source.old source.new sink.old sink.new device.old device.new result }
    ensures spends { Spends (D.counts device.old) (D.counts device.new) 0
        (full_blocks geometry.now geometry.now.keys) 0 }
    ensures kept { D.kept device.new ≡ D.kept device.old }
{
    let mut rows = Rows::begin(geometry.keys, geometry.format);
    let mut reader = LineReader::new(INPUT_LIMIT);
    'lines: loop {
        let next = reader.next_line(source);
        match next {
            Next::End => return None,
            Next::Fault => return Some(Status::SourceFailed as u8),
            Next::Budget => return Some(Status::Spent as u8),
            _ => {}
        }
        let text = text_of(&reader, next);
        let answer = rows.line(text);
        if let Some(word) = rows.word() {
            return Some(write_word(word, sink));
        }
        if let RowLine::Row(key, value) = answer {
            if let Err(_) = loader.push(device, &key, &value, 0) {
                return Some(Status::DeviceFailed as u8);
            }
        }
    }
}

/// Finishes the file of a loader, and writes how many rows it has as a line.
fn finish_load<K: Sink, D: Device>(loader: Loader, sink: &mut K, device: &mut D) -> u8
    requires { HasRange (D.bytes device.old) 0 (file_bytes loader.geometry) }
    ensures finishes { LoadFinishes K.Sink D.Device loader sink.old sink.new device.old device.new result }
    ensures spends { Spends (D.counts device.old) (D.counts device.new) 0
        (device_levels loader.geometry + 2) 2 }
    ensures kept { D.kept device.new ≡ D.kept device.old }
{
    match loader.finish(device) {
        Ok(rows) => write_line(line_of_rows(rows).as_slice(), Status::Done as u8, sink),
        Err(_) => Status::DeviceFailed as u8,
    }
}

/// The status of a load that did not begin.
fn refusal(fault: LoadFault) -> u8
    ensures { result ≡ load_status fault }
{
    match fault {
        LoadFault::NotEmpty => Status::NotEmpty as u8,
        LoadFault::OutOfMemory => Status::OutOfMemory as u8,
        LoadFault::Device => Status::DeviceFailed as u8,
    }
}

/// Loads the lines of a source into a file of this geometry.
fn load_into<S: Source, K: Sink, D: Device>(
    alloc: Global,
    geometry: Geometry,
    source: &mut S,
    sink: &mut K,
    device: &mut D,
) -> u8
    ensures ends { LoadEndsBy S.Source K.Sink D.Device geometry source.old source.new sink.old sink.new device.old device.new result }
    ensures spends { Spends (D.counts device.old) (D.counts device.new) 0
        (most_writes geometry geometry.keys) 4 }
    ensures kept { D.kept device.new ≡ D.kept device.old }
{
    let mut loader = match Loader::begin(alloc, device, geometry, 0) {
        Ok(loader) => loader,
        Err(fault) => return refusal(fault),
    };
    match load_lines(&mut loader, &geometry, source, sink, device) {
        Some(status) => status,
        None => finish_load(loader, sink, device),
    }
}

/// Loads rows of text into a new file for so many keys: the lines of the source are rows by rising keys, as `range` and `scan`
/// print them, and the last one may be `end M`. Each row is put behind the others, in one pass, and the header is written last.
/// It writes one line, `loaded N`, and gives the status:
///
/// - 0 where all lines were read and the file is made; 4 where it is, and the sink failed;
/// - 14 where a line is no row, is out of order or has no room: its line is `bad L`, `order L` or `full L`, by the first such
///   line, and 4 where the sink failed;
/// - 3 where the source failed, and 9 where 2^40 bytes were taken;
/// - 1 where there was no memory, and 8 where the device has bytes: then nothing was read;
/// - 5 where the device refused a call.
///
/// At 1 and 8 the device keeps its bytes. At 3, 9 and 14, and at 4 behind the line of a word, the new file has no header: its
/// first 512 bytes are zero. At 5 it depends on the call that was refused. The size: the bytes stay. The layout: any bytes, at
/// most as many as the file has. A block while rows are pushed: no header. A call behind the last row: no header, or all that
/// the file has when it is done but for its first block, which has the header and is written last; that block may have any
/// bytes then.
pub fn load_file<S: Source, K: Sink, D: Device>(
    alloc: Global,
    keys: u64,
    block_exp: u8,
    format: Format,
    source: &mut S,
    sink: &mut K,
    device: &mut D,
) -> u8
    requires { SuitStore keys block_exp }
    ensures ends { LoadEnds S.Source K.Sink D.Device keys block_exp format source.old source.new sink.old sink.new device.old device.new result }
    ensures kept { D.kept device.new ≡ D.kept device.old }
{
    match Geometry::of_format(keys, block_exp, format) {
        Ok(geometry) => load_into(alloc, geometry, source, sink, device),
        // (there is a geometry for these sizes)
        Err(_) => Status::WrongWords as u8,
    }
}
