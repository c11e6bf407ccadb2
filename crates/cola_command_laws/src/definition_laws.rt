//! The definitions of a session taken apart in plain terms, with worked examples. Each function does nothing: its clauses are the law.
ghost use Rattle.std.specs.Prelude.{◌≡◌, ◌⊎◌, ℕ, ◌+◌, ◌-◌, ◌^◌, ◌≤◌, ◌<◌, min, Bool, true, false, List, [], ◌∷◌, ◌++◌, length, take, drop, All, Option, Some, None, Result, Err};
ghost use Rattle.std.specs.List.{flat_map};
ghost use Rattle.std.specs.Io.KnownBytes.{IsAtEnd};
ghost use Rattle.cola_outside.specs.Faults.{Rose};
ghost use Rattle.cola_outside.specs.Told.{Both};
ghost use Rattle.cola_device.specs.declared.counts.Counts.{Counts};
ghost use Rattle.cola_device.specs.Settling.{IsSettled};
ghost use Rattle.cola_io.specs.Counted.{after_fault};
ghost use Rattle.cola_io.specs.Law.{all_lines, all_ended_lines};
ghost use Rattle.cola_io.specs.Reads.{Read, WasRead, GaveSome, bytes_read, met_end, was_refused};
ghost use Rattle.cola_io.specs.Streams.{Taken, Appended};
ghost use Rattle.cola_io.specs.declared.sink.SinkFault.{SinkFault};
ghost use Rattle.cola_line.specs.Given.{RowsGiven};
ghost use Rattle.cola_layout.specs.Header.{Fields};
ghost use Rattle.cola_opening.specs.Judged.{file_size};
ghost use Rattle.cola_image.specs.Standing.{HeaderStandsFor, with_state};
ghost use Rattle.cola_spec.specs.Bounds.{request_bound};
ghost use Rattle.cola_spec.specs.Command.{Close, Del, Get, Put, Range, Reopen, Scan, Stamp, line_requests};
ghost use Rattle.cola_spec.specs.Lines.{Line, Text};
ghost use Rattle.cola_spec.specs.Map.{Map};
ghost use Rattle.cola_spec.specs.Machine as machine;
ghost use Rattle.cola_spec.specs.Machine.{FaultedStep, PlainStep, History, State, Step, Turn, kind_of, ticks_of, turns_text};
ghost use Rattle.cola_spec.specs.Reply as reply;
ghost use Rattle.cola_spec.specs.Reply.{Reply};
ghost use Rattle.cola_table.specs.Replies.{turn_of};
ghost use Rattle.cola_store.specs.Create.{Made, WasNotEmpty, DeviceFailed, CountsOneWrite};
ghost use Rattle.cola_store.specs.Sessions.{IsStoreOpened, OpensStore};
ghost use Rattle.cola_store.specs.Store.{Stored};
ghost use Rattle.cola_store.specs.declared.fault.OpenFault.{OpenFault};
ghost use Rattle.cola_store.specs.declared.fault.OpenFault.TheVariants as fault;
ghost use Rattle.cola_cell.specs.declared.format.Format.{Format};
ghost use Rattle.cola_words.specs.declared.mode.Mode.TheVariants.{Mem, Create, Run as RunMode, Gen, Upgrade, Check, Load, Grow, Rebuild};
ghost use Rattle.cola_command.specs.declared.place.Place.TheVariants as place;
ghost use Rattle.cola_session.specs.Ends.{Ending, Well, Ill, Anyhow, WroteFront};
ghost use Rattle.cola_command.specs.File.{Sizes, IsOfSizes, device_of, format_of, shape, sizes_in, table_in};
ghost use Rattle.cola_workload.specs.Refused.{refusal_status};
ghost use Rattle.cola_command.specs.Headline.{AreAsked, CarriedOut, CarriesAll, CarriesFront, EndsBy, FileEnds, FrontLed, IsKnown, IsLeft, IsLeftWhole, Known, LeftBy, LinesLed, NotOpened, WroteAll, WroteLines, WroteSome, asked, sizes_known};
ghost use Rattle.cola_session.specs.Home.{FaultsOver, LineLeads, Point, cut_after, depth_in};
ghost use Rattle.cola_session.specs.Memory.{MemoryEnds, Replied, RepliedFront, StepsWithin, lines_bound, replies};
ghost use Rattle.cola_filling.specs.Loads.{LoadEnds};
ghost use Rattle.cola_filling.specs.Grows.{GrowEnds};
ghost use Rattle.cola_command.specs.Checked.{CheckEnds};
ghost use Rattle.cola_command.specs.Mirrored.{MirrorEnds, RebuildEnds};
ghost use Rattle.cola_session.specs.Reading.{AllAnswered, AreFirstLines, ReadFor};
ghost use Rattle.cola_command.specs.RunTransfers.{AskNoRows, FewCachedReads, FewTransfers};
ghost use Rattle.cola_command_laws.specs.Example.{example, example_sizes};
ghost use Rattle.cola_command.specs.Serves.{CreateEnds, Serves, UpgradeEnds};
ghost use Rattle.cola_command.specs.Turns.{Begun, CloseCause, KeepsFormat, OpenCause, WasLed, file_home};
ghost use Rattle.cola_command.specs.declared.file.Session.{Session};
ghost use Rattle.cola_command.specs.declared.place.Place.{Place};
ghost use Rattle.cola_shapes.specs.Shapes.{shape_of};
ghost use Rattle.cola_store.specs.Calls.{AnswersTurn};
ghost use Rattle.cola_store.specs.Transfers.{ReadsOnce};
ghost use Rattle.cola_store.specs.Table.{store_table};
ghost use Rattle.cola_workload.specs.Workload.{EndsOnEmpty, FaultsCaused, GenEnds};

use cola_device::Device;
use cola_io::{Sink, Source};

/// Where a reply was not written whole, the texts of the turns of all lines before the last were, and of all turns some front.
pub fn fronts_have_all_before_the_last()
    ensures front { (text : List ℕ) (least : ℕ) (written written' : Option (List ℕ)) →
        WroteFront text least written written' →
        (size : ℕ) × ((least ≤ size) × Appended (take size text) written written') }
    ensures lines { (cost : Bool) (before : List Line) (turns : List Turn) (written written' : Option (List ℕ)) → WroteLines cost before turns written written' →
        (earlier : List Turn) × ((late : List Turn) × ((turns ≡ earlier ++ late) × (AreAsked before (asked earlier) × ((size : ℕ) × ((length (turns_text cost earlier) ≤ size) × Appended (take size (turns_text cost turns)) written written'))))) }
{}

/// The reads and writes of the worked turns, of two stores in a file of 256 cells in blocks of 8, with 8 levels: 272 writes
/// for each store; 14 reads for the mutation of each, four times the blocks, 8 for each search, and 12 more; behind a cache for
/// the file, 268 for each; and one read more for an opening that found no memory. Behind that cache the reads of any file of
/// these sizes are those, and 11 more for an opening that met a damaged cell; a get that met one adds none.
pub fn transfers_of_turns()
    ensures writes { (cache : ℕ) (before now : Counts) →
        FewTransfers example_sizes cache example before now → now.writes ≤ before.writes + 544 }
    ensures reads { (cache : ℕ) (before now : Counts) →
        FewTransfers example_sizes cache example before now → now.reads ≤ before.reads + 2132 }
    ensures reads_cached { (before now : Counts) →
        FewTransfers example_sizes 256 example before now → now.reads ≤ before.reads + 536 }
    ensures short_writes { (cache : ℕ) (before now : Counts) →
        FewTransfers example_sizes cache
        (turn_of Reopen (reply.Refused reply.Memory) 0 ∷ []) before now →
        now.writes ≤ before.writes + 268 }
    ensures short_reads { (cache : ℕ) (before now : Counts) →
        FewTransfers example_sizes cache
        (turn_of Reopen (reply.Refused reply.Memory) 0 ∷ []) before now →
        now.reads ≤ before.reads + 1037 }
    ensures short_cached { (before now : Counts) →
        FewTransfers example_sizes 256
        (turn_of Reopen (reply.Refused reply.Memory) 0 ∷ []) before now →
        now.reads ≤ before.reads + 269 }
    ensures sized { (before now : Counts) → FewCachedReads example_sizes 256 example before now →
        now.reads ≤ before.reads + 536 }
    ensures sized_short { (before now : Counts) →
        FewCachedReads example_sizes 256
        (turn_of Reopen (reply.Refused reply.Memory) 0 ∷ []) before now →
        now.reads ≤ before.reads + 269 }
    ensures sized_damaged { (before now : Counts) →
        FewCachedReads example_sizes 256
        (turn_of Reopen (reply.Failed (reply.Damaged 3)) 0 ∷ []) before now →
        now.reads ≤ before.reads + 279 }
    ensures sized_get { (before now : Counts) →
        FewCachedReads example_sizes 256
        (turn_of (Get []) (reply.Failed (reply.Damaged 3)) 0 ∷ []) before now →
        now.reads ≤ before.reads + 268 }
    ensures range_asks_rows { AskNoRows (turn_of (Range [] []) (reply.Rows []) 0 ∷ []) → ⊥ }
    ensures scan_asks_rows { AskNoRows (turn_of (Scan [] 1) (reply.Rows []) 0 ∷ []) → ⊥ }
    ensures get_asks_none { AskNoRows (turn_of (Get []) (reply.Got None) 0 ∷ []) }
{}

/// What was carried out over a file, whatever is known of it.
pub fn carried_out<D: Device>()
    ensures settled { (cache steps steps' : ℕ) (device device' : D) (known : Option Known) (lines : List Line) (turns : List Turn) (answer : Reply) → CarriedOut D.Device cache device device' steps steps' Anyhow known lines turns answer →
        kind_of answer ≡ PlainStep → cut_after turns false ≡ false → IsSettled D.Device device' }
    ensures opened { (cache steps steps' : ℕ) (device device' : D) (known : Option Known) (lines : List Line) (turns : List Turn) (answer : Reply) → CarriedOut D.Device cache device device' steps steps' Anyhow known lines turns answer →
        (store : Stored D) × IsStoreOpened D.Device device cache store }
    ensures asks { (cache steps steps' : ℕ) (device device' : D) (known : Option Known) (lines : List Line) (turns : List Turn) (answer : Reply) → CarriedOut D.Device cache device device' steps steps' Anyhow known lines turns answer → AreAsked lines (asked turns) }
    ensures counted { (cache steps steps' : ℕ) (device device' : D) (known : Option Known) (lines : List Line) (turns : List Turn) (answer : Reply) → CarriedOut D.Device cache device device' steps steps' Anyhow known lines turns answer → steps' ≡ steps + ticks_of turns }
    ensures faults { (cache steps steps' : ℕ) (device device' : D) (known : Option Known) (lines : List Line) (turns : List Turn) (answer : Reply) → CarriedOut D.Device cache device device' steps steps' Anyhow known lines turns answer →
        FaultsOver (turns ++ turn_of Close answer 0 ∷ []) (D.counts device).faults (D.counts device').faults }
    ensures kept { (cache steps steps' : ℕ) (device device' : D) (known : Option Known) (lines : List Line) (turns : List Turn) (answer : Reply) → CarriedOut D.Device cache device device' steps steps' Anyhow known lines turns answer → D.kept device' ≡ D.kept device }
    ensures within { (cache steps steps' : ℕ) (device device' : D) (known : Option Known) (lines : List Line) (turns : List Turn) (answer : Reply) (sizes : Sizes) → CarriedOut D.Device cache device device' steps steps' Anyhow known lines turns answer →
        IsOfSizes D.Device sizes (place.Closed device) → (asked turns ≡ flat_map (line_requests (shape sizes)) lines) × All (λ (turn : Turn). turn.ticks ≤ request_bound (sizes.bottom + 1) turn.request) turns }
    ensures behind { (cache steps steps' : ℕ) (device device' : D) (known : Option Known) (lines : List Line) (turns : List Turn) (answer : Reply) (sizes : Sizes) → CarriedOut D.Device cache device device' steps steps' Anyhow known lines turns answer →
        IsOfSizes D.Device sizes (place.Closed device) →
        Both (D.bytes device) (D.bytes device') (λ before now. (length now ≡ length before) × (drop (file_size sizes.format sizes.bottom) now ≡ drop (file_size sizes.format sizes.bottom) before)) }
    ensures cached { (cache steps steps' : ℕ) (device device' : D) (known : Option Known) (lines : List Line) (turns : List Turn) (answer : Reply) (sizes : Sizes) → CarriedOut D.Device cache device device' steps steps' Anyhow known lines turns answer →
        IsOfSizes D.Device sizes (place.Closed device) → (Rose (D.counts device).faults (D.counts device').faults → ⊥) → FewCachedReads sizes cache turns (D.counts device) (D.counts device') }
    ensures runs { (cache steps steps' : ℕ) (device device' : D) (known : Known) (lines : List Line) (turns : List Turn) (answer : Reply) → CarriedOut D.Device cache device device' steps steps' Anyhow (Some known) lines turns answer →
        (asked turns ≡ flat_map (line_requests (shape known.sizes)) lines)
        × ((last : State) × (History (shape known.sizes) (machine.Open known.map) turns last × ((end : State) × (Step (shape known.sizes) last (turn_of Close answer 0) end × IsLeft known.sizes end (D.bytes device'))))) }
    ensures few { (cache steps steps' : ℕ) (device device' : D) (known : Known) (lines : List Line) (turns : List Turn) (answer : Reply) → CarriedOut D.Device cache device device' steps steps' Anyhow (Some known) lines turns answer →
        (Rose (D.counts device).faults (D.counts device').faults → ⊥) → length turns ≤ 2 ^ 40 → FewTransfers known.sizes cache turns (D.counts device) (D.counts device') }
{}

/// What is left of a file at a state: nothing is said of one whose closing met a fault, and a closed one stands for the map
/// but for the state byte, which is the state's, and 0 in one that is left whole. An open store is not left.
pub fn files_are_left()
    ensures open { (sizes : Sizes) (m : Map) (told : Option (List ℕ)) →
        (IsLeft sizes (machine.Open m) told → ⊥) × (IsLeftWhole sizes (machine.Open m) told → ⊥) }
    ensures closing { (sizes : Sizes) (m : Map) (told : Option (List ℕ)) →
        IsLeftWhole sizes (machine.Closing m) told → ⊥ }
    ensures untold { (sizes : Sizes) (m : Map) (byte : ℕ) →
        (IsLeft sizes (machine.Closed m byte) None → ⊥)
        × (IsLeftWhole sizes (machine.Closed m byte) None → ⊥) }
    ensures closed { (sizes : Sizes) (m : Map) (byte : ℕ) (bytes : List ℕ) →
        IsLeft sizes (machine.Closed m byte) (Some bytes) →
        (header : Fields) × (HeaderStandsFor header (with_state 0 bytes) m × ((sizes_in header ≡ sizes) × ((state : ℕ) × ((with_state state bytes ≡ bytes) × (byte ≡ min state 255))))) }
    ensures whole { (sizes : Sizes) (m : Map) (bytes : List ℕ) →
        IsLeftWhole sizes (machine.Closed m 0) (Some bytes) →
        (header : Fields) × (HeaderStandsFor header bytes m × (sizes_in header ≡ sizes)) }
    ensures marked { (sizes : Sizes) (m : Map) (byte : ℕ) (told : Option (List ℕ)) →
        IsLeftWhole sizes (machine.Closed m (byte + 1)) told → ⊥ }
    ensures well { (sizes : Sizes) (state : State) (told : Option (List ℕ)) →
        LeftBy Well sizes state told → IsLeftWhole sizes state told }
    ensures others { (sizes : Sizes) (state : State) (told : Option (List ℕ)) →
        (LeftBy Ill sizes state told → IsLeft sizes state told)
        × (LeftBy Anyhow sizes state told → IsLeft sizes state told) }
{}

/// The status of a file that was not opened, by the refusal; nothing was read, written or counted then.
pub fn refusals_have_statuses<S: Source, K: Sink, D: Device>()
    ensures memory { refusal_status fault.OutOfMemory ≡ 1 }
    ensures device { refusal_status fault.Device ≡ 5 }
    ensures no_store { refusal_status fault.NotStore ≡ 6 }
    ensures small { refusal_status fault.Small ≡ 6 }
    ensures in_use { refusal_status fault.NotClosed ≡ 7 }
    ensures bad_cell { (cell : ℕ) → refusal_status (fault.BadCell cell) ≡ 10 }
    ensures untouched { (cache steps steps' status : ℕ) (cost : Bool) (source source' : S) (sink sink' : K) (device device' : D) → NotOpened S.Source K.Sink D.Device cache cost source source' sink sink' device device' steps steps' status →
        (why : OpenFault) × ((status ≡ refusal_status why) × (OpensStore D.Device device cache (Err (device', why)) × ((D.kept device' ≡ D.kept device) × ((source' ≡ source) × ((sink' ≡ sink) × (steps' ≡ steps)))))) }
{}

/// The statuses of a session over a file: by what was read, what was carried out, and which counts of faults rose.
pub fn file_sessions_end<S: Source, K: Sink, D: Device>()
    ensures status_0 { (cache steps steps' : ℕ) (cost : Bool) (source source' : S) (sink sink' : K) (device device' : D) → FileEnds S.Source K.Sink D.Device cache cost source source' sink sink' device device' steps steps' 0 →
        (reads : List Read) × (ReadFor S.Source (all_lines (bytes_read reads)) source reads source' × ((met_end reads ≡ true) × ((length (bytes_read reads) < 2 ^ 40)
        × (CarriesAll K.Sink D.Device cache cost sink sink' device device' steps steps' Well (all_lines (bytes_read reads)) × ((S.faults source' ≡ S.faults source) × (K.faults sink' ≡ K.faults sink)))))) }
    ensures status_3 { (cache steps steps' : ℕ) (cost : Bool) (source source' : S) (sink sink' : K) (device device' : D) → FileEnds S.Source K.Sink D.Device cache cost source source' sink sink' device device' steps steps' 3 →
        (reads : List Read) × (ReadFor S.Source (all_ended_lines (bytes_read reads)) source reads source' × ((was_refused reads ≡ true) × ((length (bytes_read reads) < 2 ^ 40)
        × (CarriesAll K.Sink D.Device cache cost sink sink' device device' steps steps' Anyhow (all_ended_lines (bytes_read reads)) × ((S.faults source' ≡ after_fault (S.faults source)) × (K.faults sink' ≡ K.faults sink)))))) }
    ensures status_4 { (cache steps steps' : ℕ) (cost : Bool) (source source' : S) (sink sink' : K) (device device' : D) → FileEnds S.Source K.Sink D.Device cache cost source source' sink sink' device device' steps steps' 4 →
        (reads : List Read) × ((before : List Line) × ((last : Line) × (AreFirstLines (before ++ last ∷ []) reads × (ReadFor S.Source before source reads source' × ((was_refused reads ≡ false) × ((length (bytes_read reads) ≤ 2 ^ 40)
        × (CarriesFront K.Sink D.Device cache cost sink sink' device device' steps steps' before last × ((S.faults source' ≡ S.faults source) × (K.faults sink' ≡ after_fault (K.faults sink)))))))))) }
    ensures status_5 { (cache steps steps' : ℕ) (cost : Bool) (source source' : S) (sink sink' : K) (device device' : D) → FileEnds S.Source K.Sink D.Device cache cost source source' sink sink' device device' steps steps' 5 →
        NotOpened S.Source K.Sink D.Device cache cost source source' sink sink' device device' steps steps' 5
        ⊎ ((reads : List Read) × (ReadFor S.Source (all_lines (bytes_read reads)) source reads source' × ((met_end reads ≡ true) × ((length (bytes_read reads) < 2 ^ 40)
        × (CarriesAll K.Sink D.Device cache cost sink sink' device device' steps steps' Ill (all_lines (bytes_read reads)) × ((S.faults source' ≡ S.faults source) × (K.faults sink' ≡ K.faults sink))))))) }
    ensures status_9 { (cache steps steps' : ℕ) (cost : Bool) (source source' : S) (sink sink' : K) (device device' : D) → FileEnds S.Source K.Sink D.Device cache cost source source' sink sink' device device' steps steps' 9 →
        (reads : List Read) × (ReadFor S.Source (all_ended_lines (bytes_read reads)) source reads source' × ((was_refused reads ≡ false) × ((length (bytes_read reads) ≡ 2 ^ 40)
        × (CarriesAll K.Sink D.Device cache cost sink sink' device device' steps steps' Anyhow (all_ended_lines (bytes_read reads)) × ((S.faults source' ≡ S.faults source) × (K.faults sink' ≡ K.faults sink)))))) }
    ensures front { (cache steps steps' : ℕ) (cost : Bool) (sink sink' : K) (device device' : D) (before : List Line) (last : Line) →
        CarriesFront K.Sink D.Device cache cost sink sink' device device' steps steps' before last → (turns : List Turn) × ((answer : Reply) × (CarriedOut D.Device cache device device' steps steps' Anyhow None (before ++ last ∷ []) turns answer × WroteLines cost before turns (K.written sink) (K.written sink'))) }
    ensures well { (cache steps steps' : ℕ) (cost : Bool) (sink sink' : K) (device device' : D) (lines : List Line) →
        CarriesAll K.Sink D.Device cache cost sink sink' device device' steps steps' Well lines → (turns : List Turn) × ((answer : Reply) × (CarriedOut D.Device cache device device' steps steps' Well None lines turns answer × (Appended (turns_text cost turns) (K.written sink) (K.written sink') × ((kind_of answer ≡ PlainStep) × (cut_after turns false ≡ false))))) }
    ensures ill { (cache steps steps' : ℕ) (cost : Bool) (sink sink' : K) (device device' : D) (lines : List Line) →
        CarriesAll K.Sink D.Device cache cost sink sink' device device' steps steps' Ill lines → (turns : List Turn) × ((answer : Reply) × (CarriedOut D.Device cache device device' steps steps' Ill None lines turns answer × (Appended (turns_text cost turns) (K.written sink) (K.written sink') × ((kind_of answer ≡ FaultedStep) ⊎ (cut_after turns false ≡ true))))) }
{}

/// The sessions behind a status: the first is the one that the opening of the file gave, each line led to the next session,
/// and the last one was closed once more. Where that was answered by no fault, the store is closed on the device that is given.
pub fn sessions_are_led<K: Sink, D: Device>()
    ensures well { (cache steps steps' : ℕ) (cost : Bool) (sink sink' : K) (device device' : D) (known : Option Known) (lines : List Line) → IsKnown known (D.bytes device) → CarriesAll K.Sink D.Device cache cost sink sink' device device' steps steps' Well lines →
        (turns : List Turn) × ((answer : Reply) × ((first : Session D D.Device) × ((last : Session D D.Device) × (Begun D.Device device cache cost first
        × (LinesLed K.Sink D.Device cache cost sink sink' device device' steps steps' known lines turns first last × CloseCause D.Device last.place answer (place.Closed device')))))) }
    ensures anyhow { (cache steps steps' : ℕ) (cost : Bool) (sink sink' : K) (device device' : D) (known : Option Known) (lines : List Line) → IsKnown known (D.bytes device) → CarriesAll K.Sink D.Device cache cost sink sink' device device' steps steps' Anyhow lines →
        (turns : List Turn) × ((answer : Reply) × ((first : Session D D.Device) × ((last : Session D D.Device) × ((place : Place D D.Device) × (Begun D.Device device cache cost first
        × (LinesLed K.Sink D.Device cache cost sink sink' device device' steps steps' known lines turns first last × (CloseCause D.Device last.place answer place × (device' ≡ device_of place)))))))) }
    ensures front { (cache steps steps' : ℕ) (cost : Bool) (sink sink' : K) (device device' : D) (known : Option Known) (before : List Line) (line : Line) → IsKnown known (D.bytes device) → CarriesFront K.Sink D.Device cache cost sink sink' device device' steps steps' before line →
        (turns : List Turn) × ((answer : Reply) × ((first : Session D D.Device) × ((last : Session D D.Device) × ((place : Place D D.Device) × (Begun D.Device device cache cost first
        × (FrontLed K.Sink D.Device cache cost sink sink' device device' steps steps' known before line turns first last × (CloseCause D.Device last.place answer place × (device' ≡ device_of place)))))))) }
{}

/// One line of a session over a file, from one point to the next: what it asks by the format of the store, the cause of each
/// reply, and what stays.
pub fn lines_have_causes<K: Sink, D: Device>()
    ensures asks { (line : Line) (result : Result (Unit {0}) SinkFault) (turns : List Turn) (old new : Point (Session D D.Device) K) (keys : ℕ) → LineLeads (store_table D.Device) (file_home D.Device) K.Sink None line result turns old new →
        asked turns ≡ line_requests (shape_of (format_of old.home.place old.home.format) keys) line }
    ensures within { (line : Line) (result : Result (Unit {0}) SinkFault) (turns : List Turn) (old new : Point (Session D D.Device) K) → LineLeads (store_table D.Device) (file_home D.Device) K.Sink None line result turns old new →
        All (λ (turn : Turn). turn.ticks ≤ request_bound (depth_in (store_table D.Device) (table_in old.home.place)) turn.request) turns }
    ensures counted { (line : Line) (result : Result (Unit {0}) SinkFault) (turns : List Turn) (old new : Point (Session D D.Device) K) → LineLeads (store_table D.Device) (file_home D.Device) K.Sink None line result turns old new →
        new.steps ≡ old.steps + ticks_of turns }
    ensures faults { (line : Line) (result : Result (Unit {0}) SinkFault) (turns : List Turn) (old new : Point (Session D D.Device) K) → LineLeads (store_table D.Device) (file_home D.Device) K.Sink None line result turns old new →
        FaultsOver turns (D.counts (device_of old.home.place)).faults (D.counts (device_of new.home.place)).faults }
    ensures bad { (line : Line) (result : Result (Unit {0}) SinkFault) (answer : Reply) (ticks : ℕ) (old new : Point (Session D D.Device) K) →
        LineLeads (store_table D.Device) (file_home D.Device) K.Sink None line result (record { request = None; answer = answer; ticks = ticks } ∷ []) old new → (answer ≡ reply.Bad) × (new.home ≡ old.home) }
    ensures answered { (line : Line) (result : Result (Unit {0}) SinkFault) (key : List ℕ) (answer : Reply) (ticks : ℕ) (old new : Point (Session D D.Device) K) (store : Stored D) → old.home.place ≡ place.Open store →
        LineLeads (store_table D.Device) (file_home D.Device) K.Sink None line result (turn_of (Get key) answer ticks ∷ []) old new →
        (after : Stored D) × (AnswersTurn D.bytes D.counts store (turn_of (Get key) answer ticks) after × (new.home.place ≡ place.Open after)) }
    ensures deleted { (line : Line) (result : Result (Unit {0}) SinkFault) (key : List ℕ) (answer : Reply) (ticks : ℕ) (old new : Point (Session D D.Device) K) (store : Stored D) → old.home.place ≡ place.Open store →
        LineLeads (store_table D.Device) (file_home D.Device) K.Sink None line result (turn_of (Del key) answer ticks ∷ []) old new →
        (after : Stored D) × (AnswersTurn D.bytes D.counts store (turn_of (Del key) answer ticks) after × (new.home.place ≡ place.Open after)) }
    ensures put { (line : Line) (result : Result (Unit {0}) SinkFault) (key value : List ℕ) (answer : Reply) (ticks : ℕ) (old new : Point (Session D D.Device) K) (store : Stored D) → old.home.place ≡ place.Open store →
        LineLeads (store_table D.Device) (file_home D.Device) K.Sink None line result (turn_of (Put key value) answer ticks ∷ []) old new →
        (after : Stored D) × (AnswersTurn D.bytes D.counts store (turn_of (Put key value) answer ticks) after × (new.home.place ≡ place.Open after)) }
    ensures ranged { (line : Line) (result : Result (Unit {0}) SinkFault) (low high : List ℕ) (answer : Reply) (ticks : ℕ) (old new : Point (Session D D.Device) K) (store : Stored D) → old.home.place ≡ place.Open store →
        LineLeads (store_table D.Device) (file_home D.Device) K.Sink None line result (turn_of (Range low high) answer ticks ∷ []) old new →
        (after : Stored D) × (RowsGiven (store_table D.Device) K.Sink low (Some high) None result store old.sink answer after new.sink × (new.home.place ≡ place.Open after)) }
    ensures shut { (line : Line) (result : Result (Unit {0}) SinkFault) (key : List ℕ) (answer : Reply) (ticks : ℕ) (old new : Point (Session D D.Device) K) → table_in old.home.place ≡ None →
        LineLeads (store_table D.Device) (file_home D.Device) K.Sink None line result (turn_of (Get key) answer ticks ∷ []) old new → (answer ≡ reply.Shut) × (new.home ≡ old.home) }
    ensures closes { (line : Line) (result : Result (Unit {0}) SinkFault) (answer : Reply) (ticks : ℕ) (old new : Point (Session D D.Device) K) → LineLeads (store_table D.Device) (file_home D.Device) K.Sink None line result (turn_of Close answer ticks ∷ []) old new →
        CloseCause D.Device old.home.place answer new.home.place }
    ensures opens { (line : Line) (result : Result (Unit {0}) SinkFault) (answer : Reply) (ticks : ℕ) (old new : Point (Session D D.Device) K) → LineLeads (store_table D.Device) (file_home D.Device) K.Sink None line result (turn_of Reopen answer ticks ∷ []) old new →
        OpenCause D.Device old.home.cache old.home.place answer new.home.place }
    ensures terms { (line : Line) (result : Result (Unit {0}) SinkFault) (turns : List Turn) (old new : Point (Session D D.Device) K) → LineLeads (store_table D.Device) (file_home D.Device) K.Sink None line result turns old new →
        (new.home.cache ≡ old.home.cache) × ((new.home.cost ≡ old.home.cost) × KeepsFormat new.home.place new.home.format (format_of old.home.place old.home.format)) }
{}

/// On every file, whatever it stands for, an open store behind a cache for the whole file read each block at most once since
/// its opening, and the header, where it met no fault.
pub fn stores_read_each_block_once<K: Sink, D: Device>()
    ensures line { (line : Line) (result : Result (Unit {0}) SinkFault) (turns : List Turn) (old new : Point (Session D D.Device) K) (store : Stored D) → old.home.place ≡ place.Open store →
        LineLeads (store_table D.Device) (file_home D.Device) K.Sink None line result turns old new → ReadsOnce D.counts store }
    ensures last { (cache steps steps' : ℕ) (cost : Bool) (device device' : D) (lines : List Line)
        (turns : List Turn) (answer : Reply) (sink sink' : K) (store : Stored D)
        (led : WasLed D.Device device device' cache cost (LinesLed K.Sink D.Device cache cost sink sink' device device' steps steps' None lines turns) answer) → led.last.place ≡ place.Open store → ReadsOnce D.counts store }
{}

/// Where the file stood for a map, a get and a stamp read at most one block for each level of it.
pub fn look_ups_read_a_block_a_level<K: Sink, D: Device>()
    ensures get { (sizes : Sizes) (line : Line) (result : Result (Unit {0}) SinkFault) (key : List ℕ) (answer : Reply) (ticks : ℕ) (old new : Point (Session D D.Device) K) (store : Stored D) → old.home.place ≡ place.Open store →
        LineLeads (store_table D.Device) (file_home D.Device) K.Sink (Some sizes) line result (turn_of (Get key) answer ticks ∷ []) old new →
        (D.counts (device_of new.home.place)).reads ≤ (D.counts (device_of old.home.place)).reads + (sizes.bottom + 1) }
    ensures stamp { (sizes : Sizes) (line : Line) (result : Result (Unit {0}) SinkFault) (key : List ℕ) (answer : Reply) (ticks : ℕ) (old new : Point (Session D D.Device) K) (store : Stored D) → old.home.place ≡ place.Open store →
        LineLeads (store_table D.Device) (file_home D.Device) K.Sink (Some sizes) line result (turn_of (Stamp key) answer ticks ∷ []) old new →
        (D.counts (device_of new.home.place)).reads ≤ (D.counts (device_of old.home.place)).reads + (sizes.bottom + 1) }
{}

/// The statuses of a session in memory, likewise.
pub fn memory_sessions_end<S: Source, K: Sink>()
    ensures status_0 { (keys steps steps' : ℕ) (source source' : S) (sink sink' : K) →
        MemoryEnds S.Source K.Sink keys source source' sink sink' steps steps' 0 →
        (reads : List Read) × (ReadFor S.Source (all_lines (bytes_read reads)) source reads source' × ((met_end reads ≡ true) × ((length (bytes_read reads) < 2 ^ 40)
        × ((Appended (replies keys (all_lines (bytes_read reads))) (K.written sink) (K.written sink') × ((steps ≤ steps') × (steps' ≤ steps + lines_bound keys (all_lines (bytes_read reads))))) × ((S.faults source' ≡ S.faults source) × (K.faults sink' ≡ K.faults sink)))))) }
    ensures status_1 { (keys steps steps' : ℕ) (source source' : S) (sink sink' : K) →
        MemoryEnds S.Source K.Sink keys source source' sink sink' steps steps' 1 →
        (source' ≡ source) × ((sink' ≡ sink) × (steps' ≡ steps)) }
    ensures status_3 { (keys steps steps' : ℕ) (source source' : S) (sink sink' : K) →
        MemoryEnds S.Source K.Sink keys source source' sink sink' steps steps' 3 →
        (reads : List Read) × (ReadFor S.Source (all_ended_lines (bytes_read reads)) source reads source' × ((was_refused reads ≡ true) × ((length (bytes_read reads) < 2 ^ 40)
        × ((Appended (replies keys (all_ended_lines (bytes_read reads))) (K.written sink) (K.written sink') × ((steps ≤ steps') × (steps' ≤ steps + lines_bound keys (all_ended_lines (bytes_read reads))))) × ((S.faults source' ≡ after_fault (S.faults source)) × (K.faults sink' ≡ K.faults sink)))))) }
    ensures status_4 { (keys steps steps' : ℕ) (source source' : S) (sink sink' : K) →
        MemoryEnds S.Source K.Sink keys source source' sink sink' steps steps' 4 →
        (reads : List Read) × ((before : List Line) × ((last : Line) × (AreFirstLines (before ++ last ∷ []) reads × (ReadFor S.Source before source reads source' × ((was_refused reads ≡ false) × ((length (bytes_read reads) ≤ 2 ^ 40)
        × ((WroteFront (replies keys (before ++ last ∷ [])) (length (replies keys before)) (K.written sink) (K.written sink') × ((steps ≤ steps') × (steps' ≤ steps + lines_bound keys (before ++ last ∷ [])))) × ((S.faults source' ≡ S.faults source) × (K.faults sink' ≡ after_fault (K.faults sink)))))))))) }
    ensures status_9 { (keys steps steps' : ℕ) (source source' : S) (sink sink' : K) →
        MemoryEnds S.Source K.Sink keys source source' sink sink' steps steps' 9 →
        (reads : List Read) × (ReadFor S.Source (all_ended_lines (bytes_read reads)) source reads source' × ((was_refused reads ≡ false) × ((length (bytes_read reads) ≡ 2 ^ 40)
        × ((Appended (replies keys (all_ended_lines (bytes_read reads))) (K.written sink) (K.written sink') × ((steps ≤ steps') × (steps' ≤ steps + lines_bound keys (all_ended_lines (bytes_read reads))))) × ((S.faults source' ≡ S.faults source) × (K.faults sink' ≡ K.faults sink)))))) }
    ensures no_other { (keys status steps steps' : ℕ) (source source' : S) (sink sink' : K) →
        MemoryEnds S.Source K.Sink keys source source' sink sink' steps steps' status →
        (status ≡ 0) ⊎ ((status ≡ 1) ⊎ ((status ≡ 3) ⊎ ((status ≡ 4) ⊎ (status ≡ 9)))) }
{}

/// What each mode answers, and what it leaves alone.
pub fn modes_are_served<S: Source, K: Sink, D: Device>()
    ensures none { (source source' : S) (sink sink' : K) (device device' second second' : D) (steps steps' status : ℕ) → Serves S.Source K.Sink D.Device source source' sink sink' device device' second second' steps steps' status None →
        (status ≡ 2) × ((source' ≡ source) × ((sink' ≡ sink) × ((device' ≡ device) × ((second' ≡ second) × (steps' ≡ steps))))) }
    ensures mirror { (source source' : S) (sink sink' : K) (device device' second second' : D) (steps steps' status cache other : ℕ) (cost : Bool) → Serves S.Source K.Sink D.Device source source' sink sink' device device' second second' steps steps' status (Some (RunMode cache cost (Some other))) →
        MirrorEnds S.Source K.Sink D.Device cache cost source source' sink sink' device device' second second' steps steps' status }
    ensures memory { (source source' : S) (sink sink' : K) (device device' second second' : D) (steps steps' status keys : ℕ) → Serves S.Source K.Sink D.Device source source' sink sink' device device' second second' steps steps' status (Some (Mem keys)) →
        MemoryEnds S.Source K.Sink keys source source' sink sink' steps steps' status × ((device' ≡ device) × (second' ≡ second)) }
    ensures file { (source source' : S) (sink sink' : K) (device device' second second' : D) (steps steps' status cache : ℕ) (cost : Bool) → Serves S.Source K.Sink D.Device source source' sink sink' device device' second second' steps steps' status (Some (RunMode cache cost None)) →
        FileEnds S.Source K.Sink D.Device cache cost source source' sink sink' device device' steps steps' status × (second' ≡ second) }
    ensures made { (source source' : S) (sink sink' : K) (device device' second second' : D) (steps steps' status keys block_exp : ℕ) (format : Format) → Serves S.Source K.Sink D.Device source source' sink sink' device device' second second' steps steps' status (Some (Create keys block_exp format)) →
        CreateEnds D.Device format keys block_exp device device' status × ((D.kept device' ≡ D.kept device) × (CountsOneWrite (D.counts device) (D.counts device') × ((source' ≡ source) × ((sink' ≡ sink) × ((second' ≡ second) × (steps' ≡ steps)))))) }
    ensures workload { (source source' : S) (sink sink' : K) (device device' second second' : D) (steps steps' status keys : ℕ) → Serves S.Source K.Sink D.Device source source' sink sink' device device' second second' steps steps' status (Some (Gen keys)) →
        GenEnds K.Sink D.Device (store_table D.Device) keys device device' sink sink' steps steps' status × ((status ≡ 5 → Rose (D.counts device).faults (D.counts device').faults) × ((D.kept device' ≡ D.kept device) × ((source' ≡ source) × (second' ≡ second)))) }
    ensures checked { (source source' : S) (sink sink' : K) (device device' second second' : D) (steps steps' status : ℕ) → Serves S.Source K.Sink D.Device source source' sink sink' device device' second second' steps steps' status (Some Check) →
        CheckEnds K.Sink D.Device device device' sink sink' steps steps' status × (((D.counts device').writes ≡ (D.counts device).writes) × ((D.kept device' ≡ D.kept device) × ((source' ≡ source) × (second' ≡ second)))) }
    ensures loaded { (source source' : S) (sink sink' : K) (device device' second second' : D) (steps steps' status keys block_exp : ℕ) (format : Format) → Serves S.Source K.Sink D.Device source source' sink sink' device device' second second' steps steps' status (Some (Load keys block_exp format)) →
        LoadEnds S.Source K.Sink D.Device keys block_exp format source source' sink sink' device device' status × ((D.kept device' ≡ D.kept device) × ((second' ≡ second) × (steps' ≡ steps))) }
    ensures grown { (source source' : S) (sink sink' : K) (device device' second second' : D) (steps steps' status keys block_exp : ℕ) → Serves S.Source K.Sink D.Device source source' sink sink' device device' second second' steps steps' status (Some (Grow keys block_exp)) →
        GrowEnds K.Sink D.Device keys block_exp device device' second second' sink sink' steps steps' status × (((D.counts device').writes ≡ (D.counts device).writes) × ((D.kept device' ≡ D.kept device) × ((D.kept second' ≡ D.kept second) × (source' ≡ source)))) }
    ensures rebuilt { (source source' : S) (sink sink' : K) (device device' second second' : D) (steps steps' status : ℕ) → Serves S.Source K.Sink D.Device source source' sink sink' device device' second second' steps steps' status (Some Rebuild) →
        RebuildEnds D.Device device device' second second' status × ((D.bytes device' ≡ D.bytes device) × ((D.kept device' ≡ D.kept device) × ((D.kept second' ≡ D.kept second) × ((source' ≡ source) × ((sink' ≡ sink) × (steps' ≡ steps)))))) }
    ensures upgraded { (source source' : S) (sink sink' : K) (device device' second second' : D) (steps steps' status : ℕ) → Serves S.Source K.Sink D.Device source source' sink sink' device device' second second' steps steps' status (Some Upgrade) →
        UpgradeEnds D.Device device device' second second' status × ((D.bytes device' ≡ D.bytes device) × (((D.counts device').writes ≡ (D.counts device).writes) × ((D.kept device' ≡ D.kept device) × ((D.kept second' ≡ D.kept second) × ((source' ≡ source) × ((sink' ≡ sink) × (steps' ≡ steps))))))) }
{}

/// The statuses of making a file, by what it leaves.
pub fn new_files_end<D: Device>()
    ensures status_0 { (format : Format) (keys block_exp : ℕ) (device device' : D) →
        CreateEnds D.Device format keys block_exp device device' 0 →
        Made D.Device format keys block_exp device device' }
    ensures status_5 { (format : Format) (keys block_exp : ℕ) (device device' : D) →
        CreateEnds D.Device format keys block_exp device device' 5 →
        DeviceFailed D.Device format keys block_exp device device' }
    ensures status_8 { (format : Format) (keys block_exp : ℕ) (device device' : D) →
        CreateEnds D.Device format keys block_exp device device' 8 →
        WasNotEmpty D.Device format keys block_exp device device' }
    ensures no_other { (format : Format) (keys block_exp status : ℕ) (device device' : D) →
        CreateEnds D.Device format keys block_exp device device' status →
        (status ≡ 0) ⊎ ((status ≡ 5) ⊎ (status ≡ 8)) }
{}
