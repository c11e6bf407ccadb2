//! Laws of logs as bytes. Each is a function with nothing to run: what it ensures is the law.
ghost use Rattle.std.specs.Prelude.{◌≡◌, ◌++◌, ◌<◌, ◌≤◌, ℕ, List, [], None, length, take, slice_index};
ghost use Rattle.cola_log.specs.Format.{Logged, AllFit, log_of, read_log, records_of, read_records, record_at, sums_after};
ghost use Rattle.cola_log.specs.Cut.{IsFrontRead, IsSpelled};

/// With nothing cut, all calls are read.
pub fn whole_logs_give_all()
    ensures { (page : List ℕ) (calls : List Logged) → AllFit calls → read_log page (log_of page calls) ≡ calls }
{}

/// A log that is cut off anywhere and followed by any bytes is read as its calls up to the first record that does not bear its
/// sum; what is read beyond them bears its sum behind them.
pub fn cut_logs_give_a_front()
    ensures { (page : List ℕ) (calls : List Logged) (size : ℕ) (behind : List ℕ) → AllFit calls → 32 ≤ size
        → IsFrontRead page calls size (take size (log_of page calls) ++ behind) }
{}

/// What is read of a log is how the log begins: it has one spelling.
pub fn what_is_read_was_written()
    ensures { (page bytes : List ℕ) → ((k : ℕ) → slice_index bytes k < 256) → IsSpelled page bytes }
{}
