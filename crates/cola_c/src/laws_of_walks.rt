//! What the exports tell of walks, in plain terms. Each function does nothing: its clause is the law.
ghost use Rattle.cola_c.specs.Prefixed.{SeeksOfPrefixesAreTold};
ghost use Rattle.cola_c.specs.Walks.{PrevsAreTold};

/// What `cola_core_prev` says of an open handle: the rows before the cursor, the number of its answer, and nothing else.
pub fn prevs_are_told()
    ensures { PrevsAreTold }
{}

/// What `cola_core_seek_prefix` says: which pairs are ahead, and the number of its answer.
pub fn seeks_of_prefixes_are_told()
    ensures { SeeksOfPrefixesAreTold }
{}
