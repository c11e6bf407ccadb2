//! The modes over two files with the same bytes: a session over both, and one made equal to the other.
ghost use Rattle.std.specs.Prelude.{◌≡◌, ◌≤◌, Result};
ghost use Rattle.cola_command.specs.Mirrored.{MirrorEnds, RebuildEnds, mirrored_status, rebuild_status};

use crate::program::Served;
use crate::serving::serve_file;
use cola_device::Device;
use cola_io::{Sink, Source};
use cola_mirror::{Mirror, RebuildFault, Sides, compare, rebuild};
use cola_outside::Steps;
use cola_status::Status;
use std::alloc::Global;
use std::sync::ledger::Ledger;

/// The status of a session over two files, by that of its lines and the sides that are in use at the end.
fn status_by(status: u8, sides: Sides) -> u8
    ensures { result ≡ mirrored_status status sides }
{
    if status != Status::Done as u8 {
        return status;
    }
    match sides {
        Sides::Both => Status::Done as u8,
        Sides::First => Status::SecondLost as u8,
        Sides::Second => Status::FirstLost as u8,
    }
}

/// A session over the mirror of two files, behind a cache of up to `cache` blocks. They are compared first; then the session
/// is that of `serve_file` over both, which goes on while one of them works. It gives both devices, and the status: 5 where a
/// device refused a call of the comparison, 16 where the files differ, that of `serve_file` else, but in place of 0 alone 17
/// where the first device is lost at the end and 18 where the second is.
pub(crate) fn serve_mirror<S: Source, K: Sink, D: Device, L: Ledger>(
    alloc: Global,
    cache: u32,
    cost: bool,
    source: &mut S,
    sink: &mut K,
    device: D,
    second: D,
    steps: &mut Steps<L>,
) -> Served<D>
    requires { cache ≤ 4096 }
    ensures { MirrorEnds S.Source K.Sink D.Device cache cost source.old source.new sink.old sink.new device result.device second result.second steps.old steps.new result.status }
{
    let mut device = device;
    let mut second = second;
    match compare(&mut device, &mut second) {
        Ok(None) => {
            let mirror = Mirror::new(device, second);
            let (mirror, status) = serve_file(alloc, cache, cost, source, sink, mirror, steps);
            let status = status_by(status, mirror.sides());
            let (device, second) = mirror.into_parts();
            Served {
                status,
                device,
                second,
            }
        }
        Ok(Some(_)) => Served {
            status: Status::FilesDiffer as u8,
            device,
            second,
        },
        Err(_) => Served {
            status: Status::DeviceFailed as u8,
            device,
            second,
        },
    }
}

/// The status by which a rebuild ends.
fn status_of(answer: &Result<(), RebuildFault>) -> u8
    ensures { result ≡ rebuild_status answer.now }
{
    match answer {
        Ok(()) => Status::Done as u8,
        Err(RebuildFault::Small) => Status::NotStore as u8,
        Err(RebuildFault::NotStore) => Status::NotStore as u8,
        Err(RebuildFault::NotClosed) => Status::NotClosed as u8,
        Err(RebuildFault::Other(_)) => Status::NotEmpty as u8,
        Err(RebuildFault::Device) => Status::DeviceFailed as u8,
    }
}

/// Makes the second device equal to the first, and gives the status.
pub(crate) fn rebuild_file<D: Device>(device: &mut D, second: &mut D) -> u8
    ensures { RebuildEnds D.Device device.old device.new second.old second.new result }
{
    let answer = rebuild(device, second);
    status_of(&answer)
}
