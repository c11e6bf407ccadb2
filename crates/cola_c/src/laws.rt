//! What the exports tell, in plain terms. Each function does nothing, or looks: its clauses are the law.
ghost use Rattle.cola_c.specs.Marked.{LentStays, FewPagesAreMarked};
ghost use Rattle.cola_c.specs.Plain.{GetsAreTold, StampsAreTold, DeletesAreTold, PutsAreTold, PutsIfAreTold, NextsAreTold, SeeksAreTold, CountsAreTold, SizesAreTold, StoredSizesAreTold, CreationsAreTold, RefusalsAreTold, OpeningsAreTold, CheckpointsAreTold, ClosingsAreTold};

use cola_handle::Session;

/// What `cola_core_get` says of an open handle: the value or its absence, by its number, and nothing else.
pub fn gets_are_told()
    ensures { GetsAreTold }
{}

/// The same of `cola_core_stamp`.
pub fn stamps_are_told()
    ensures { StampsAreTold }
{}

/// The same of `cola_core_delete`, and which map there is then.
pub fn deletes_are_told()
    ensures { DeletesAreTold }
{}

/// The same of `cola_core_put`, and of `cola_core_put_if`.
pub fn puts_are_told()
    ensures puts { PutsAreTold }
    ensures puts_if { PutsIfAreTold }
{}

/// Of `cola_core_seek` and `cola_core_next`: which pairs are ahead, and which are given. Of `cola_core_count`: how many.
pub fn rows_are_told()
    ensures seeks { SeeksAreTold }
    ensures nexts { NextsAreTold }
    ensures counts { CountsAreTold }
{}

/// Of `cola_core_size`, `cola_core_stored_size` and `cola_core_create`: how many bytes a store takes, and what making one leaves.
pub fn sizes_are_told()
    ensures sizes { SizesAreTold }
    ensures stored { StoredSizesAreTold }
    ensures creations { CreationsAreTold }
{}

/// Of `cola_core_open`, `cola_core_checkpoint` and `cola_core_close`: where the map is then, and why an opening is refused.
pub fn openings_are_told()
    ensures refusals { RefusalsAreTold }
    ensures openings { OpeningsAreTold }
    ensures checkpoints { CheckpointsAreTold }
    ensures closings { ClosingsAreTold }
{}

/// What was lent to a session, bytes and marks, is what a closing speaks of: no call of its store in between changes it, nor where
/// the bytes lie.
pub fn what_was_lent_stays()
    ensures { LentStays }
{}

/// How many pages a checkpoint of the marked ones writes at most: between an opening with marks and a closing each block that the
/// store writes marks at most 17, and it writes as many blocks as its steps and its file allow.
pub fn few_pages_are_marked(session: &Session)
    ensures { FewPagesAreMarked session.now }
{
    let _ = session.kv.writes();
}
