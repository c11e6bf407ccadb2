//! How the modes end that test, upgrade and rebuild a file, in plain terms; files that had a byte. Each function does nothing:
//! its clauses are the law.
ghost use Rattle.std.specs.Prelude.{◌≡◌, ◌⊎◌, ◌<◌, ℕ, length, IsSomeAnd};
ghost use Rattle.cola_cell.specs.declared.format.Format.{Format};
ghost use Rattle.cola_mirror.specs.Rebuild.{CanBeRebuilt, OnlyCopied};
ghost use Rattle.cola_spec.specs.Map.{Map};
ghost use Rattle.cola_store.specs.Table.{store_table};
ghost use Rattle.cola_wide.specs.Upgrade.{CanBeUpgraded};
ghost use Rattle.cola_command.specs.Checked.{CheckEnds};
ghost use Rattle.cola_command_laws.specs.CheckLaws.{CheckAnswers};
ghost use Rattle.cola_command.specs.Mirrored.{RebuildEnds};
ghost use Rattle.cola_command_laws.specs.RebuildLaws.{RebuildAnswers};
ghost use Rattle.cola_command.specs.Serves.{CreateEnds, UpgradeEnds};
ghost use Rattle.cola_command_laws.specs.UpgradeLaws.{UpgradeAnswers};
ghost use Rattle.cola_workload.specs.Workload.{GenEnds};

use cola_device::Device;
use cola_io::Sink;

/// How the test of a file ends: by the status, the answer of `check`, and the line that was written, whole or a front of it.
pub fn checks_are_told<K: Sink, D: Device>()
    ensures { (steps steps' status : ℕ) (device device' : D) (sink sink' : K) →
        CheckEnds K.Sink D.Device device device' sink sink' steps steps' status →
        CheckAnswers K.Sink D.Device device device' sink sink' steps steps' status }
{}

/// How an upgrade ends: by the status, the answer of `upgrade`. One that nothing keeps from its end has status 0, or 1 where there
/// was no memory.
pub fn upgrades_are_told<D: Device>()
    ensures answers { (status : ℕ) (device device' second second' : D) →
        UpgradeEnds D.Device device device' second second' status →
        UpgradeAnswers D.Device device device' second second' status }
    ensures complete { (status : ℕ) (device device' second second' : D) (m : Map) →
        UpgradeEnds D.Device device device' second second' status →
        CanBeUpgraded D.Device D.Device device device' second second' m →
        (status ≡ 0) ⊎ (status ≡ 1) }
{}

/// How a rebuild ends: by the status, the answer of `rebuild`; and what it calls, whatever it answers. One that nothing keeps from
/// its end has status 0.
pub fn rebuilds_are_told<D: Device>()
    ensures answers { (status : ℕ) (device device' second second' : D) →
        RebuildEnds D.Device device device' second second' status →
        RebuildAnswers D.Device device device' second second' status }
    ensures only { (status : ℕ) (device device' second second' : D) →
        RebuildEnds D.Device device device' second second' status →
        OnlyCopied D.Device D.Device device device' second second' }
    ensures complete { (status : ℕ) (device device' second second' : D) →
        RebuildEnds D.Device device device' second second' status →
        CanBeRebuilt D.Device D.Device device device' second second' → status ≡ 0 }
{}

/// However a mode ends that makes a new file, it leaves a device that had a byte as it was. (`load` and `grow` have it among
/// the laws of `cola_filling` and `cola_load`.)
pub fn files_with_bytes_stay<K: Sink, D: Device>()
    ensures create { (format : Format) (keys block_exp status : ℕ) (device device' : D) →
        CreateEnds D.Device format keys block_exp device device' status →
        IsSomeAnd (D.bytes device) (λ bytes. 0 < length bytes) →
        D.bytes device' ≡ D.bytes device }
    ensures workload { (keys steps steps' status : ℕ) (device device' : D) (sink sink' : K) →
        GenEnds K.Sink D.Device (store_table D.Device) keys device device' sink sink' steps steps' status →
        IsSomeAnd (D.bytes device) (λ bytes. 0 < length bytes) →
        D.bytes device' ≡ D.bytes device }
    ensures upgrade { (status : ℕ) (device device' second second' : D) →
        UpgradeEnds D.Device device device' second second' status →
        IsSomeAnd (D.bytes second) (λ bytes. 0 < length bytes) →
        D.bytes second' ≡ D.bytes second }
{}
