//! What a store counted since its opening, and the bounds on its reads and writes.
ghost use Rattle.std.specs.Prelude.{◌≡◌, ◌↔◌, IsTrue};
ghost use Rattle.cola_store.specs.Store.{HasRead, spent_of};
ghost use Rattle.cola_store.specs.Transfers.{IsCounting, WritesFew, ReadsFew, ReadsOnce};

use crate::store::Store;
use cola_device::Device;

impl<D: Device> Store<D> {
    /// Whether no step was refused since the opening, and no number of the account stands at the last value of `u64`.
    pub fn is_counting(&self) -> bool
        ensures { IsTrue result ↔ IsCounting self.now }
    {
        let account = self.account();
        let (reads, writes) = self.chain().transfers();
        account.calm
            && self.steps() < u64::MAX
            && account.searches < u64::MAX
            && reads < u64::MAX
            && writes < u64::MAX
    }

    /// The reads and the writes of the device, in blocks. Since the opening, as long as the store counts, with the steps and
    /// searches since then: at most 4 cells written for each step and level, in whole blocks, and the blocks of the
    /// file once, and 1 more; and at most 14 cells read for each step and level, in whole blocks, the blocks of the file four
    /// times, one for each search and level, and one for each level, and 3 more. Where the cache has room for every block of
    /// the file and no fault was met since the opening, at most the blocks of the file were read, and 1 more.
    pub fn transfers(&self) -> (u64, u64)
        ensures reads { result.0 ≡ (spent_of D.counts self.now).turned }
        ensures writes { result.1 ≡ (spent_of D.counts self.now).written }
        ensures writes_few { IsCounting self.now → WritesFew D.counts self.now }
        // as long as its reads are kept, as a law says that each turn on a store that stands for a map keeps them
        ensures reads_few { HasRead D.counts self.now → IsCounting self.now → ReadsFew D.counts self.now }
        ensures reads_once { ReadsOnce D.counts self.now }
    {
        let chain = self.chain();
        chain.runs().transfers()
    }
}
