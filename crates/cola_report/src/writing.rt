//! How a mode ends that writes one line.
ghost use Rattle.cola_report.specs.Line.{LineEnds};

use cola_io::{Sink, put_all};
use cola_status::Status;

/// Writes a line, and gives the status: `success` where it was written whole, and 4 where the sink refused a write, behind
/// which nothing more is written.
pub fn write_line<K: Sink>(text: &[u8], success: u8, sink: &mut K) -> u8
    ensures { LineEnds K.Sink text.now success sink.old sink.new result }
{
    match put_all(sink, text) {
        Ok(()) => success,
        Err(_) => Status::SinkFailed as u8,
    }
}
