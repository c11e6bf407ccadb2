//! The one call that the program makes.
ghost use Rattle.std.specs.Prelude.{◌≡◌, ◌≤◌, map, string_bytes, Some, IfSome};
ghost use Rattle.cola_command.specs.Serves.{CreateEnds, Serves};
ghost use Rattle.cola_store.specs.Create.{CountsOneWrite};
ghost use Rattle.cola_words.specs.Modes.{HasSizes, mode_of};
ghost use Rattle.cola_words.specs.declared.mode.Mode.TheVariants.{Run};
ghost use Rattle.cola_words.specs.Sizes.{SuitStore};

use crate::checked::check_file;
use crate::mirrored::{rebuild_file, serve_mirror};
use crate::serving::serve_file;
use crate::upgrading::upgrade_file;
use cola_cell::Format;
use cola_device::Device;
use cola_filling::{grow_file, load_file};
use cola_io::{Sink, Source};
use cola_outside::Steps;
use cola_session::serve_memory;
use cola_status::Status;
use cola_store::{CreateFault, create_as};
use cola_words::{Mode, read_words};
use cola_workload::serve_workload;
use std::alloc::Global;
use std::sync::ledger::Ledger;

/// Makes a file, and gives the status.
fn make_file<D: Device>(device: &mut D, keys: u64, block_exp: u8, format: Format) -> u8
    requires { SuitStore keys block_exp }
    ensures ends { CreateEnds D.Device format keys block_exp device.old device.new result }
    ensures kept { D.kept device.new ≡ D.kept device.old }
    ensures counts { CountsOneWrite (D.counts device.old) (D.counts device.new) }
{
    match create_as(device, keys, block_exp, format) {
        Ok(()) => Status::Done as u8,
        Err(CreateFault::Device) => Status::DeviceFailed as u8,
        Err(CreateFault::NotEmpty) => Status::NotEmpty as u8,
        // (`read_words` answers no such sizes)
        Err(CreateFault::Keys) => Status::WrongWords as u8,
        Err(CreateFault::Block) => Status::WrongWords as u8,
    }
}

/// The exit status, which is the number of a `Status`, and the two devices, which come back whatever it is.
#[derive(Drop)]
pub struct Served<D> {
    pub status: u8,
    pub device: D,
    pub second: D,
}

/// Serves a session over the file of the first device, or over the mirror of both.
fn serve_run<S: Source, K: Sink, D: Device, L: Ledger>(
    alloc: Global,
    cache: u32,
    cost: bool,
    mirror: Option<u8>,
    source: &mut S,
    sink: &mut K,
    device: D,
    second: D,
    steps: &mut Steps<L>,
) -> Served<D>
    requires { cache ≤ 4096 }
    ensures { Serves S.Source K.Sink D.Device source.old source.new sink.old sink.new device result.device second result.second steps.old steps.new result.status (Some (Run cache cost mirror)) }
{
    match mirror {
        None => {
            let (device, status) = serve_file(alloc, cache, cost, source, sink, device, steps);
            Served {
                status,
                device,
                second,
            }
        }
        Some(_) => serve_mirror(alloc, cache, cost, source, sink, device, second, steps),
    }
}

/// Serves a mode, and gives the status and both devices.
fn serve_mode<S: Source, K: Sink, D: Device, L: Ledger>(
    alloc: Global,
    mode: Option<Mode>,
    source: &mut S,
    sink: &mut K,
    device: D,
    second: D,
    steps: &mut Steps<L>,
) -> Served<D>
    requires { IfSome mode HasSizes }
    ensures { Serves S.Source K.Sink D.Device source.old source.new sink.old sink.new device result.device second result.second steps.old steps.new result.status mode }
{
    let mut device = device;
    let mut second = second;
    let status = match mode {
        Some(Mode::Mem { keys }) => serve_memory(alloc, keys, source, sink, steps),
        Some(
            Mode::Create {
                keys,
                block_exp,
                format,
            },
        ) => make_file(&mut device, keys, block_exp, format),
        Some(
            Mode::Run {
                cache,
                cost,
                mirror,
            },
        ) => {
            return serve_run(
                alloc, cache, cost, mirror, source, sink, device, second, steps,
            );
        }
        Some(Mode::Gen { keys }) => {
            let (device, status) = serve_workload(alloc, keys, sink, device, steps);
            return Served {
                status,
                device,
                second,
            };
        }
        Some(Mode::Check) => {
            let (device, status) = check_file(alloc, sink, device, steps);
            return Served {
                status,
                device,
                second,
            };
        }
        Some(
            Mode::Load {
                keys,
                block_exp,
                format,
            },
        ) => load_file(alloc, keys, block_exp, format, source, sink, &mut device),
        Some(Mode::Grow { keys, block_exp }) => {
            let (device, status) = grow_file(
                alloc,
                keys,
                block_exp,
                sink,
                device,
                &mut second,
                steps,
            );
            return Served {
                status,
                device,
                second,
            };
        }
        Some(Mode::Upgrade) => upgrade_file(alloc, &mut device, &mut second),
        Some(Mode::Rebuild) => rebuild_file(&mut device, &mut second),
        None => Status::WrongWords as u8,
    };
    Served {
        status,
        device,
        second,
    }
}

/// Runs the program: reads its words, serves the mode that they name, and gives the exit status with both devices.
///
/// The words are those behind the program's name. `device` is the file that the first name among them names, `second` the
/// file of the second name; no mode but `upgrade`, `grow`, `rebuild` and `run` with `--mirror` touches `second`. What a mode
/// reads and writes, and when each status comes, stands in `docs/COMMANDS.md` for users, and in `specs/Serves.antt` as it is
/// proved.
///
/// In a session the source is read only while every line that has ended is answered, for 512 bytes or for those that the
/// limit of 2^40 still allows, and not again behind a refused read, its end, or a refused write. Memory is taken before the
/// first line is read, and after that only by a line that opens the store again. Nothing is flushed.
pub fn serve<S: Source, K: Sink, D: Device, L: Ledger>(
    alloc: Global,
    words: &[String],
    source: &mut S,
    sink: &mut K,
    device: D,
    second: D,
    steps: &mut Steps<L>,
) -> Served<D>
    ensures { Serves S.Source K.Sink D.Device source.old source.new sink.old sink.new device result.device second result.second steps.old steps.new result.status (mode_of (map string_bytes words.now)) }
{
    serve_mode(
        alloc,
        read_words(words),
        source,
        sink,
        device,
        second,
        steps,
    )
}
