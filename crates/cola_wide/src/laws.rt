//! What the definitions of an upgrade say in plain terms, with the numbers of one header. Each
//! function does nothing: its clauses are the law.
ghost use Rattle.std.specs.Prelude.{◌≡◌, ◌⊎◌, ℕ, ◌+◌, ◌-◌, ◌≤◌, ◌<◌, true, false, List, [], ◌∷◌, length, take, replicate, Result, Ok, Err, IfSome, IsSomeAnd};
ghost use Rattle.cola_outside.specs.Faults.{Rose};
ghost use Rattle.cola_cell.specs.Cell.{stamp_of};
ghost use Rattle.cola_cell.specs.Places.{number_of};
ghost use Rattle.cola_cell.specs.Spelling.{IsNoSpelling, IsSpelling};
ghost use Rattle.cola_cell.specs.declared.cell.Cell.{Cell};
ghost use Rattle.cola_cell.specs.declared.format.Format.TheVariants.{One, Two};
ghost use Rattle.cola_clock.specs.Clock.{visible_slot};
ghost use Rattle.cola_device.specs.Bytes.{IsEmpty, part};
ghost use Rattle.cola_device.specs.Settling.{IsSettled};
ghost use Rattle.cola_layout.specs.Cells.{cell_bytes};
ghost use Rattle.cola_image.specs.Standing.{HeaderStandsFor};
ghost use Rattle.cola_layout.specs.Fields.{fields_of};
ghost use Rattle.cola_layout.specs.Header as layout;
ghost use Rattle.cola_layout.specs.Header.{Fields};
ghost use Rattle.cola_layout.specs.Marks.{marks_of};
ghost use Rattle.cola_layout.specs.declared.header.Header.{Header};
ghost use Rattle.cola_opening.specs.Counted.{Spends};
ghost use Rattle.cola_opening.specs.Judged.{HasHeader, IsNoStore, IsSmall};
ghost use Rattle.cola_spec.specs.Map.{Map};
ghost use Rattle.cola_wide.specs.Copied.{AreCopied, AreSpelled, IsBad, IsBegun, IsCopied, IsCopyOf, IsLowestBad, block_cells, block_count, cells_of, wide_header, wide_size, with_version};
ghost use Rattle.cola_wide.specs.Runs.{IsOfRun};
ghost use Rattle.cola_wide.specs.Upgrade.{CanBeUpgraded, FailedCopying, FailedLast, FailedLayingOut, FailedReading, HadBytes, IsClosedFile, IsDoneForMemory, IsFound, IsInUse, IsWide, Upgrades, laying_others, reading_others, upgrade_reads, writing_others};
ghost use Rattle.cola_wide.specs.declared.fault.UpgradeFault.{UpgradeFault};
ghost use Rattle.cola_wide.specs.declared.fault.UpgradeFault.TheVariants as fault;

use cola_device::Device;

/// The numbers of a header with lowest level 4 and blocks of 32 cells: 256 cells, in 8 blocks; a copy of 32,768 bytes; at most
/// 10 reads. Beside reads and writes at most one call of the file is made, two of the copy before its blocks, and three in all.
pub fn worked_sizes()
    ensures cells { (header : Fields) → header.bottom ≡ 4 →
        (cells_of header ≡ 256) × (wide_size header ≡ 32768) }
    ensures blocks { (header : Fields) → header.bottom ≡ 4 → header.block_exp ≡ 5 →
        (block_cells header ≡ 32) × ((block_count header ≡ 8) × (upgrade_reads header ≡ 10)) }
    ensures others { (reading_others ≡ 1) × ((laying_others ≡ 2) × (writing_others ≡ 3)) }
{}

/// The header of a copy: format Two, and all else as it was; in its bytes the ninth alone is another.
pub fn headers_are_widened()
    ensures format { (header : Fields) → (wide_header header).format ≡ Two }
    ensures sizes { (header : Fields) →
        ((wide_header header).bottom ≡ header.bottom)
        × (((wide_header header).block_exp ≡ header.block_exp)
        × ((wide_header header).keys ≡ header.keys)) }
    ensures state { (header : Fields) →
        ((wide_header header).closed ≡ header.closed)
        × (((wide_header header).count ≡ header.count)
        × ((wide_header header).last ≡ header.last)) }
    ensures levels { (header : Fields) →
        ((wide_header header).clock ≡ header.clock)
        × ((wide_header header).levels ≡ header.levels) }
    ensures version { (a b c d e f g h version old : ℕ) (rest : List ℕ) →
        with_version version (a ∷ b ∷ c ∷ d ∷ e ∷ f ∷ g ∷ h ∷ old ∷ rest) ≡ a ∷ b ∷ c ∷ d ∷ e ∷ f ∷ g ∷ h ∷ version ∷ rest }
{}

/// Which cells are cells of runs: of level 1, whose slots begin at cells 16 and 24, as many as the marks say, of the visible
/// run in its slot and of the shadow in the other. A cell of a run is one of some level, and without marks there is none.
pub fn worked_runs()
    ensures visible { (header : Fields) (number : ℕ) → 1 ≤ header.bottom →
        visible_slot header.clock 1 ≡ 0 → (marks_of header.levels 1).visible ≡ 5 → 16 ≤ number →
        number < 21 → IsOfRun header number }
    ensures shadow { (header : Fields) (number : ℕ) → 1 ≤ header.bottom →
        visible_slot header.clock 1 ≡ 0 → (marks_of header.levels 1).shadow ≡ 3 → 24 ≤ number →
        number < 27 → IsOfRun header number }
    ensures turned { (header : Fields) (number : ℕ) → 1 ≤ header.bottom →
        visible_slot header.clock 1 ≡ 1 → (marks_of header.levels 1).shadow ≡ 3 → 16 ≤ number →
        number < 19 → IsOfRun header number }
    ensures only { (header : Fields) (number : ℕ) → IsOfRun header number →
        (level : ℕ) × ((level ≤ header.bottom)
        × (((number_of level (visible_slot header.clock level) 0 ≤ number)
        × (number < number_of level (visible_slot header.clock level) 0 + (marks_of header.levels level).visible))
        ⊎ ((number_of level (1 - visible_slot header.clock level) 0 ≤ number)
        × (number < number_of level (1 - visible_slot header.clock level) 0 + (marks_of header.levels level).shadow)))) }
    ensures none { (header : Fields) (number : ℕ) →
        ((level : ℕ) →
        ((marks_of header.levels level).visible ≡ 0)
        × ((marks_of header.levels level).shadow ≡ 0)) → IsOfRun header number → ⊥ }
{}

/// What becomes of one cell: one of a run is the same cell with stamp 0, and any other is 128 zero bytes; and what the calls
/// say of the cells from one number up to another.
pub fn cells_are_copied()
    ensures run { (header : Fields) (number : ℕ) (one two : List ℕ) →
        IsCopied header number one two → IsOfRun header number →
        (cell : Cell)
        × (IsSpelling One cell one × (IsSpelling Two cell two × (stamp_of cell ≡ 0))) }
    ensures other { (header : Fields) (number : ℕ) (one two : List ℕ) →
        IsCopied header number one two → (IsOfRun header number → ⊥) → two ≡ replicate 128 0 }
    ensures bad { (header : Fields) (number : ℕ) (one : List ℕ) → IsBad header number one →
        IsOfRun header number × IsNoSpelling One one }
    ensures each { (header : Fields) (low high number : ℕ) (old new : List ℕ) →
        AreCopied header low high old new → low ≤ number → number < high →
        IsCopied header number (cell_bytes One old number) (cell_bytes Two new number) }
    ensures spelled { (header : Fields) (low high number : ℕ) (old : List ℕ) →
        AreSpelled header low high old → low ≤ number → number < high → IsOfRun header number →
        (cell : Cell) × IsSpelling One cell (cell_bytes One old number) }
    ensures lowest { (header : Fields) (low number : ℕ) (old : List ℕ) →
        IsLowestBad header low number old →
        (low ≤ number) × ((number < cells_of header) × (IsBad header number (cell_bytes One old number)
        × ((other : ℕ) → low ≤ other → other < number → IsOfRun header other → (cell : Cell) × IsSpelling One cell (cell_bytes One old other)))) }
    ensures begun { (header : Fields) (new : List ℕ) → IsBegun header new →
        (length new ≡ wide_size header) × (take 512 new ≡ replicate 512 0) }
{}

/// What a whole copy has: its size, the bytes of its header, zero bytes behind them, each cell at its number, and each map that
/// the file stands for.
pub fn copies_are_whole()
    ensures size { (header : Fields) (old new : List ℕ) → IsCopyOf header old new →
        length new ≡ wide_size header }
    ensures head { (header : Fields) (old new : List ℕ) → IsCopyOf header old new →
        (take 512 new ≡ with_version 2 (take 512 old)) × (layout.IsSpelling (wide_header header) (take 512 new)
        × ((header.last ≡ 0) × (part new 512 512 ≡ replicate 512 0))) }
    ensures cells { (header : Fields) (number : ℕ) (old new : List ℕ) → IsCopyOf header old new →
        8 ≤ number → number < cells_of header →
        IsCopied header number (cell_bytes One old number) (cell_bytes Two new number) }
    ensures stands { (header : Fields) (old new : List ℕ) (m : Map) → IsCopyOf header old new →
        HeaderStandsFor header old m → HeaderStandsFor (wide_header header) new m }
{}

/// What the reasons of refusals say of a file's bytes, and what is known of the device that has them.
pub fn files_are_judged<D: Device>()
    ensures wide { (bytes : List ℕ) → IsWide bytes →
        (header : Fields) × (HasHeader header bytes × (header.format ≡ Two)) }
    ensures in_use { (bytes : List ℕ) → IsInUse bytes →
        (header : Fields)
        × (HasHeader header bytes × ((header.format ≡ One) × (header.closed ≡ false))) }
    ensures closed { (header : Fields) (bytes : List ℕ) → IsClosedFile header bytes →
        HasHeader header bytes × ((header.format ≡ One) × (header.closed ≡ true)) }
    ensures found { (header : Fields) (before now : D) (reads others : ℕ) →
        IsFound D.Device before now (IsClosedFile header) reads others →
        IfSome (D.bytes before) (IsClosedFile header) × (Spends (D.counts before) (D.counts now) reads 0 others
        × ((D.counts now).faults ≡ (D.counts before).faults)) }
    ensures failed { (before now : D) (reads others : ℕ) →
        FailedReading D.Device before now reads others →
        Rose (D.counts before).faults (D.counts now).faults
        × Spends (D.counts before) (D.counts now) reads 0 others }
    ensures had { (size : ℕ) (before now : D) → HadBytes D.Device size before now →
        IfSome (D.bytes before) (λ bytes. 0 < length bytes) × ((D.bytes now ≡ D.bytes before)
        × (Spends (D.counts before) (D.counts now) 0 0 1 × ((D.counts now).faults ≡ (D.counts before).faults))) }
    ensures not_laid { (size : ℕ) (before now : D) → FailedLayingOut D.Device size before now →
        Rose (D.counts before).faults (D.counts now).faults × (((D.bytes now ≡ D.bytes before)
        ⊎ (IsEmpty (D.bytes before) × IfSome (D.bytes now) (λ new. length new ≤ size)))
        × Spends (D.counts before) (D.counts now) 0 0 2) }
{}

/// The refusals of an upgrade: the reason, by the bytes of the file, at most one read and one other call, and the other device
/// as it was, or asked for its size alone where it has bytes.
pub fn upgrades_are_refused<D: Device, E: Device>()
    ensures small { (from from' : D) (to to' : E) →
        Upgrades D.Device E.Device from from' to to' (Err fault.Small) →
        IsFound D.Device from from' IsSmall 1 1 × (to' ≡ to) }
    ensures not_store { (from from' : D) (to to' : E) →
        Upgrades D.Device E.Device from from' to to' (Err fault.NotStore) →
        IsFound D.Device from from' IsNoStore 1 1 × (to' ≡ to) }
    ensures already { (from from' : D) (to to' : E) →
        Upgrades D.Device E.Device from from' to to' (Err fault.Already) →
        IsFound D.Device from from' IsWide 1 1 × (to' ≡ to) }
    ensures not_closed { (from from' : D) (to to' : E) →
        Upgrades D.Device E.Device from from' to to' (Err fault.NotClosed) →
        IsFound D.Device from from' IsInUse 1 1 × (to' ≡ to) }
    ensures memory { (from from' : D) (to to' : E) →
        Upgrades D.Device E.Device from from' to to' (Err fault.OutOfMemory) →
        (header : Header)
        × (IsFound D.Device from from' (IsClosedFile (fields_of header)) 1 1 × (to' ≡ to)) }
    ensures not_empty { (from from' : D) (to to' : E) →
        Upgrades D.Device E.Device from from' to to' (Err fault.NotEmpty) →
        (header : Header) × (IsFound D.Device from from' (IsClosedFile (fields_of header)) 1 1 × HadBytes E.Device (wide_size (fields_of header)) to to') }
{}

/// An upgrade that was done, or met a bad cell: a closed file, and a device that was empty; no fault was met. The copy is whole
/// and its device settled with it, or it has no header.
pub fn upgrades_are_carried_out<D: Device, E: Device>()
    ensures done { (from from' : D) (to to' : E) →
        Upgrades D.Device E.Device from from' to to' (Ok tt) →
        (header : Header)
        × (IfSome (D.bytes from) (IsClosedFile (fields_of header)) × (IsEmpty (E.bytes to)
        × (IfSome (D.bytes from) (AreSpelled (fields_of header) 0 (cells_of (fields_of header)))
        × (IfSome (E.bytes to') (λ new. length new ≡ wide_size (fields_of header))
        × (IfSome (D.bytes from) (λ old. IfSome (E.bytes to') (IsCopyOf (fields_of header) old)) × IsSettled E.Device to'))))) }
    ensures done_calls { (from from' : D) (to to' : E) →
        Upgrades D.Device E.Device from from' to to' (Ok tt) →
        (header : Header) × (IfSome (D.bytes from) (IsClosedFile (fields_of header))
        × ((Spends (D.counts from) (D.counts from') (block_count (fields_of header) + 2) 0 1 × ((D.counts from').faults ≡ (D.counts from).faults))
        × (Spends (E.counts to) (E.counts to') 0 (block_count (fields_of header)) 3 × ((E.counts to').faults ≡ (E.counts to).faults)))) }
    ensures bad_cell { (number : ℕ) (from from' : D) (to to' : E) →
        Upgrades D.Device E.Device from from' to to' (Err (fault.BadCell number)) →
        (header : Header)
        × (IfSome (D.bytes from) (IsClosedFile (fields_of header)) × (IsEmpty (E.bytes to)
        × (IfSome (D.bytes from) (IsLowestBad (fields_of header) 0 number) × IfSome (E.bytes to') (IsBegun (fields_of header))))) }
    ensures bad_calls { (number : ℕ) (from from' : D) (to to' : E) →
        Upgrades D.Device E.Device from from' to to' (Err (fault.BadCell number)) →
        (header : Header) × (IfSome (D.bytes from) (IsClosedFile (fields_of header))
        × ((Spends (D.counts from) (D.counts from') (block_count (fields_of header) + 2) 0 1 × ((D.counts from').faults ≡ (D.counts from).faults))
        × (Spends (E.counts to) (E.counts to') 0 (block_count (fields_of header)) 2 × ((E.counts to').faults ≡ (E.counts to).faults)))) }
{}

/// Where a device failed: before the header was read, as the other was asked for its size or laid out, in the copying, when the
/// copy has no header, or in the last write and the settling. A count of faults rose.
pub fn devices_fail<D: Device, E: Device>()
    ensures places { (from from' : D) (to to' : E) →
        Upgrades D.Device E.Device from from' to to' (Err fault.Device) →
        (FailedReading D.Device from from' 1 1 × (to' ≡ to))
        ⊎ ((header : Header) × ((IsFound D.Device from from' (IsClosedFile (fields_of header)) 1 1
        × FailedLayingOut E.Device (wide_size (fields_of header)) to to')
        ⊎ (IfSome (D.bytes from) (IsClosedFile (fields_of header)) × (IsEmpty (E.bytes to)
        × (FailedCopying D.Device E.Device (fields_of header) from from' to to' (block_count (fields_of header) + 2) 1 (block_count (fields_of header)) 2
        ⊎ FailedLast D.Device E.Device (fields_of header) from from' to to' (block_count (fields_of header) + 2) 1 (block_count (fields_of header)) 3))))) }
    ensures copying { (header : Fields) (reads asks writes others : ℕ) (from from' : D) (to to' : E) →
        FailedCopying D.Device E.Device header from from' to to' reads asks writes others →
        (Rose (D.counts from).faults (D.counts from').faults ⊎ Rose (E.counts to).faults (E.counts to').faults)
        × (IfSome (E.bytes to') (IsBegun header) × (Spends (D.counts from) (D.counts from') reads 0 asks
        × Spends (E.counts to) (E.counts to') 0 writes others)) }
    ensures last { (header : Fields) (reads asks writes others : ℕ) (from from' : D) (to to' : E) →
        FailedLast D.Device E.Device header from from' to to' reads asks writes others →
        Rose (E.counts to).faults (E.counts to').faults × (IsFound D.Device from from' (AreSpelled header 0 (cells_of header)) reads asks
        × (IfSome (E.bytes to') (λ new. length new ≡ wide_size header)
        × (IfSome (D.bytes from) (λ old. IfSome (E.bytes to') (AreCopied header (block_cells header) (cells_of header) old))
        × Spends (E.counts to) (E.counts to') 0 writes others))) }
{}

/// When an upgrade is done but for memory: the file stands for a map in format One, the other device tells that it is empty,
/// and no fault is met. Nothing else is asked.
pub fn upgrades_can_be_done<D: Device, E: Device>()
    ensures asked { (from from' : D) (to to' : E) (m : Map) →
        IsSomeAnd (D.bytes from)
        (λ bytes. (header : Fields) × (HeaderStandsFor header bytes m × (header.format ≡ One))) →
        IsSomeAnd (E.bytes to) (λ bytes. length bytes ≡ 0) →
        (Rose (D.counts from).faults (D.counts from').faults → ⊥) → (Rose (E.counts to).faults (E.counts to').faults → ⊥) →
        CanBeUpgraded D.Device E.Device from from' to to' m }
    ensures answered { (result : Result (Unit {0}) UpgradeFault) → IsDoneForMemory result →
        (result ≡ Ok tt) ⊎ (result ≡ Err fault.OutOfMemory) }
{}
