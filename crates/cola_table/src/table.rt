//! The ordered map with a key limit, as a trait.
ghost use Rattle.std.specs.Prelude.{◌≡◌, ◌+◌, ◌-◌, ◌^◌, ◌≤◌, ◌<◌, ℕ, List, Option, Result, IfOk, OnOk, OnErr, option_copied, OnSome};
ghost use Rattle.cola_cell.specs.declared.fault.ReadFault.{ReadFault};
ghost use Rattle.cola_cell.specs.Format.{KeyFits, ValueFits};
ghost use Rattle.cola_spec.specs.Map.{Map, IsMap, count};
ghost use Rattle.cola_spec.specs.Command as spec;
ghost use Rattle.cola_spec.specs.Reply.{Counted};
ghost use Rattle.cola_spec.specs.Machine.{Turn};
ghost use Rattle.cola_spec.specs.Bounds.{put_bound, get_bound, range_bound};
ghost use Rattle.cola_table.specs.Terms.{Terms, Call, shape};
ghost use Rattle.cola_table.specs.Replies.{turn_of, put_reply, put_if_reply, delete_reply, get_reply, stamp_reply};
ghost use Rattle.cola_table.specs.Answers.{PutAnswers, PutIfAnswers, DeleteAnswers, GetAnswers, StampAnswers, RangeAnswers, NextAnswers, PutFaults, StepFaults, ReadFaults, KeepsWalks, UnlessPut, UnlessDeleted};

use crate::{Put, PutFault, PutIf};
use cola_cell::{Format, Key, ReadFault, StepFault, Value};
use cola_outside::Steps;
use std::sync::ledger::Ledger;

/// An ordered map of at most a limit of keys.
///
/// What a table promises of its answers it promises where it is sound, that is where it holds a map:
/// then it keeps holding one, and every answer but a device's fault is the map's. What it promises of
/// bounds, causes and walks holds of every table. What a table answers where it holds none is its own
/// to say: each call says that this was the answer, so that its caller can show that it passed on that
/// one and no other.
///
/// A step is one cell access. The number that a call answers beside its result is how many steps it
/// made.
pub trait Table {
    /// A range that is being walked.
    type Walk: Drop;

    /// The format, the limit and the number that bounds the steps. No call changes them.
    ghost terms: { Self → Terms };

    /// What the table has beside its map, which no call changes.
    ghost Kept: { Type 0 } = { Unit {0} };

    ghost kept: { Self → Self.Kept };

    /// A count of the device's faults. It rises in a call that answers a fault of the device, and stays
    /// in every other call.
    ghost faults: { Self → ℕ };

    /// The table is sound, for this map.
    ghost holds: { Self → Map → Type 0 };

    /// The table is asked this, gives this reply in so many steps, and is that table afterwards.
    ghost answers: { Self → Turn → Self → Type 0 };

    /// A range with these ends gives this walk, or is refused so, and leaves that table.
    ghost begins: { Self → List ℕ → Option (List ℕ) → Result Self.Walk ReadFault → Self → Type 0 };

    /// The walk gives this pair or none, or is refused so, and that table and that walk are left.
    ghost goes: { Self → Self.Walk → Result (Option (List ℕ × List ℕ)) ReadFault → Self → Self.Walk → Type 0 };

    /// The walk may go on: every call but an accepted write leaves it standing.
    ghost stands: { Self → Self.Walk → Type 0 };

    /// These are the pairs that the walk has ahead, where the table is sound.
    ghost ahead: { Self → Self.Walk → List (List ℕ × List ℕ) → Type 0 };

    /// How many steps the walk may still make.
    ghost left: { Self.Walk → ℕ };

    /// At most so many pairs the walk may still give.
    ghost most: { Self.Walk → ℕ };

    /// The format of keys and values.
    fn format(&self) -> Format
        ensures { result ≡ (terms self.now).format };

    /// The number of keys.
    fn count(&self) -> u64
        ensures counted { (m : Map) → holds self.now m → result ≡ count m }
        ensures is_map { (m : Map) → holds self.now m → IsMap (shape (terms self.now)) m }
        ensures given { answers self.now (turn_of spec.Count (Counted result) 0) self.now };

    /// Gives the key a value. Full exactly where a new key meets the limit, and then worn where no
    /// stamp is left to give.
    fn put<L: Ledger>(
        &mut self,
        key: &Key,
        value: &Value,
        steps: &mut Steps<L>,
    ) -> Result<(Put, u32), PutFault>
        requires key_fits { KeyFits (terms self.old).format key.now }
        requires value_fits { ValueFits (terms self.old).format value.now }
        ensures answer { (m : Map) → holds self.old m →
            PutAnswers (shape (terms self.old)) m key.now value.now (holds self.new) result }
        ensures given { answers self.old
            (turn_of (spec.Put key.now value.now) (put_reply result)
            (steps.new - steps.old)) self.new }
        ensures call { Call (terms self.old) (terms self.new) (faults self.old)
            (faults self.new) steps.old steps.new (put_bound (terms self.old).depth) }
        ensures counted { IfOk result (λ answer. steps.new ≡ steps.old + answer.1) }
        ensures faults { PutFaults result (faults self.old) (faults self.new) }
        ensures kept { kept self.new ≡ kept self.old }
        ensures walks { OnErr result
            (KeepsWalks (stands self.old) (stands self.new) (ahead self.old) (ahead self.new)) };

    /// A put that is made only where the key has the stamp seen, 0 where it is absent. That is tried
    /// before the causes of a put. In format One each stamp is 0.
    fn put_if<L: Ledger>(
        &mut self,
        key: &Key,
        seen: u64,
        value: &Value,
        steps: &mut Steps<L>,
    ) -> Result<(PutIf, u32), PutFault>
        requires key_fits { KeyFits (terms self.old).format key.now }
        requires value_fits { ValueFits (terms self.old).format value.now }
        ensures answer { (m : Map) → holds self.old m →
            PutIfAnswers (shape (terms self.old)) m key.now seen value.now (holds self.new) result }
        ensures given { answers self.old
            (turn_of (spec.PutIf key.now seen value.now) (put_if_reply result)
            (steps.new - steps.old)) self.new }
        ensures call { Call (terms self.old) (terms self.new) (faults self.old)
            (faults self.new) steps.old steps.new (put_bound (terms self.old).depth) }
        ensures counted { IfOk result (λ answer. steps.new ≡ steps.old + answer.1) }
        ensures faults { PutFaults result (faults self.old) (faults self.new) }
        ensures kept { kept self.new ≡ kept self.old }
        ensures walks { UnlessPut
            (KeepsWalks (stands self.old) (stands self.new) (ahead self.old)
            (ahead self.new)) result };

    /// Takes the key out, and answers the value that it had.
    fn delete<L: Ledger>(
        &mut self,
        key: &Key,
        steps: &mut Steps<L>,
    ) -> Result<(Option<Value>, u32), StepFault>
        ensures answer { (m : Map) → holds self.old m →
            DeleteAnswers m key.now (holds self.new) result }
        ensures given { answers self.old
            (turn_of (spec.Del key.now) (delete_reply result) (steps.new - steps.old)) self.new }
        ensures call { Call (terms self.old) (terms self.new) (faults self.old)
            (faults self.new) steps.old steps.new (put_bound (terms self.old).depth) }
        ensures counted { IfOk result (λ answer. steps.new ≡ steps.old + answer.1) }
        ensures faults { StepFaults result (faults self.old) (faults self.new) }
        ensures kept { kept self.new ≡ kept self.old }
        ensures walks { UnlessDeleted
            (KeepsWalks (stands self.old) (stands self.new) (ahead self.old)
            (ahead self.new)) result };

    /// The value of the key.
    fn get<L: Ledger>(
        &mut self,
        key: &Key,
        steps: &mut Steps<L>,
    ) -> Result<(Option<Value>, u32), ReadFault>
        ensures answer { (m : Map) → holds self.old m →
            GetAnswers m key.now (holds self.new) result }
        ensures given { answers self.old
            (turn_of (spec.Get key.now) (get_reply result) (steps.new - steps.old)) self.new }
        ensures call { Call (terms self.old) (terms self.new) (faults self.old)
            (faults self.new) steps.old steps.new (get_bound (terms self.old).depth) }
        ensures counted { IfOk result (λ answer. steps.new ≡ steps.old + answer.1) }
        ensures faults { ReadFaults result (faults self.old) (faults self.new) }
        ensures kept { kept self.new ≡ kept self.old }
        ensures walks { KeepsWalks (stands self.old) (stands self.new) (ahead self.old)
            (ahead self.new) };

    /// The stamp of the key: the number of the put that gave its value, and 0 in format One.
    fn stamp<L: Ledger>(
        &mut self,
        key: &Key,
        steps: &mut Steps<L>,
    ) -> Result<(Option<u64>, u32), ReadFault>
        ensures answer { (m : Map) → holds self.old m →
            StampAnswers m key.now (holds self.new) result }
        ensures given { answers self.old
            (turn_of (spec.Stamp key.now) (stamp_reply result) (steps.new - steps.old)) self.new }
        ensures call { Call (terms self.old) (terms self.new) (faults self.old)
            (faults self.new) steps.old steps.new (get_bound (terms self.old).depth) }
        ensures counted { IfOk result (λ answer. steps.new ≡ steps.old + answer.1) }
        ensures faults { ReadFaults result (faults self.old) (faults self.new) }
        ensures kept { kept self.new ≡ kept self.old }
        ensures walks { KeepsWalks (stands self.old) (stands self.new) (ahead self.old)
            (ahead self.new) };

    /// A walk over the pairs from `low` on and below `high`, by rising keys; with no upper end where
    /// `high` is absent.
    fn range<L: Ledger>(
        &mut self,
        low: &Key,
        high: Option<&Key>,
        steps: &mut Steps<L>,
    ) -> Result<Self::Walk, ReadFault>
        ensures answer { (m : Map) → holds self.old m →
            RangeAnswers m low.now (option_copied high.entry) (holds self.new)
            (ahead self.new) result }
        ensures given { begins self.old low.now (option_copied high.entry) result self.new }
        ensures stands { IfOk result (λ walk. stands self.new walk) }
        ensures most { IfOk result (λ walk. most walk < 2 ^ 64) }
        ensures call { Call (terms self.old) (terms self.new) (faults self.old)
            (faults self.new) steps.old steps.new (range_bound (terms self.old).depth) }
        ensures left { IfOk result
            (λ walk. steps.new + left walk ≤ steps.old + range_bound (terms self.old).depth) }
        ensures faults { ReadFaults result (faults self.old) (faults self.new) }
        ensures kept { kept self.new ≡ kept self.old }
        ensures walks { KeepsWalks (stands self.old) (stands self.new) (ahead self.old)
            (ahead self.new) };

    /// The next pair of the walk, or none where none is left. A refused call leaves the walk as it was,
    /// so that it may be asked again.
    fn next<L: Ledger>(
        &mut self,
        walk: &mut Self::Walk,
        steps: &mut Steps<L>,
    ) -> Result<Option<(Key, Value)>, ReadFault>
        requires { stands self.old walk.old }
        ensures answer { (m : Map) (pairs : List (List ℕ × List ℕ)) → holds self.old m →
            ahead self.old walk.old pairs → NextAnswers (ahead self.new walk.new) pairs result }
        ensures sound { (m : Map) → holds self.old m → holds self.new m }
        ensures given { goes self.old walk.old result self.new walk.new }
        ensures stands { stands self.new walk.new }
        ensures call { Call (terms self.old) (terms self.new) (faults self.old)
            (faults self.new) steps.old steps.new (left walk.old) }
        ensures left { OnOk result (steps.new + left walk.new ≤ steps.old + left walk.old) }
        ensures refused { OnErr result (walk.new ≡ walk.old) }
        ensures fewer { IfOk result (λ answer. OnSome answer (most walk.new < most walk.old)) }
        ensures faults { ReadFaults result (faults self.old) (faults self.new) }
        ensures kept { kept self.new ≡ kept self.old }
        ensures walks { KeepsWalks (stands self.old) (stands self.new) (ahead self.old)
            (ahead self.new) };
}
