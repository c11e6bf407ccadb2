//! What checkpoints by the exports make of a store's file. The function does nothing: its clauses are the law.
ghost use Rattle.cola_c.specs.Checkpoints.{PagesAreTheStore, JournalsAreRead, StoresAreKept, StoresAreSaved};

/// The marked pages of a closed store over its file's last checkpoint are the store's bytes, and they are what is read of its journal.
/// Whatever happens behind the begin of that checkpoint, a recovery makes the file have its last checkpoint or the closed store's
/// bytes, whole; and the store's once the journal was written and synced.
pub fn closed_stores_are_kept()
    ensures pages { PagesAreTheStore }
    ensures journal { JournalsAreRead }
    ensures kept { StoresAreKept }
    ensures saved { StoresAreSaved }
{
    cola_journal_bytes::laws::written_pieces_are_read();
    cola_journal_bytes::laws::checkpoints_are_kept();
}
