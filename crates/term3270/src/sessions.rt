//! The commands `serve` and `attach`, from their inputs to the net.

ghost use Rattle.std.specs.Prelude.{◌≡◌, ◌⊎◌, map, IfSome, None, Some};
ghost use Rattle.tn_cores.specs.declared.device.Device.{Device};
ghost use Rattle.cli_commands.specs.declared.status.Status.TheVariants.{BadInput};
ghost use Rattle.cli_commands.specs.Held.{records_held};
ghost use Rattle.cli_commands.specs.Keys.{keys_in};
ghost use Rattle.cli_characters.specs.Strokes.{typed_in};
ghost use Rattle.tn_cores.specs.Devices.{device_of};
ghost use Rattle.tn_session.specs.Strikes.{by_key, by_stroke};
ghost use Rattle.cli_sessions.specs.Prepare.{prepare};
ghost use Rattle.cli_sessions.specs.Serve.{ServesAnew};
ghost use Rattle.term3270.specs.Sessions.{AttachesLines, AttachesNamed, AttachesSocket, HasFailed, ServesPrepared};

use crate::manners::{tell_listening, tell_unknown_device};
use crate::tcp::{Listening, Place, TcpLine};
use cli_characters::read_typed;
use cli_commands::{GivesBytes, Status, TakesBytes, finish, read_keys};
use cli_sessions::{Output, Prepared, Screen, Visits, attach_on, prepare_serve, serve_on};
use cli_words::KeyLines;
use tn_session::{Device, Keystroke};

/// Serves a layout's screen at a place to so many terminals. The port is bound once the screen is found fit.
pub(crate) fn run_serve<L: GivesBytes, R: GivesBytes, W: TakesBytes>(
    rt: &HostRuntime,
    layout: &mut L,
    records: &mut R,
    place: Place<'_>,
    count: u16,
    output: &mut Output<W>,
) -> Status
    ensures { IfSome (L.remaining layout.old) (λ text. IfSome (R.remaining records.old) (λ input.
        ServesPrepared count output.old output.new result (prepare text input))) }
{
    match prepare_serve(rt.alloc(), layout, records) {
        Ok(Prepared::Ready(screen)) => serve_at(rt, place, &screen, count, output),
        Ok(Prepared::Stops(answer)) => finish(rt.alloc(), output, Ok(answer)),
        Err(error) => finish(rt.alloc(), output, Err(error)),
    }
}

fn serve_at<W: TakesBytes>(
    rt: &HostRuntime,
    place: Place<'_>,
    screen: &Screen,
    count: u16,
    output: &mut Output<W>,
) -> Status
    ensures { ServesAnew screen.now.layout (records_held screen.now.records.items) count
        output.old output.new result
        ⊎ HasFailed output.old output.new result }
{
    match Listening::at(rt, place) {
        Ok(listening) => {
            tell_listening(rt, place);
            let mut terminals = Visits::new(listening);
            serve_on(rt.alloc(), &mut terminals, screen, count, output)
        }
        Err(error) => place.report(rt, &error),
    }
}

/// Attaches a terminal of the device of this name to the host at a place, and presses keys, or strikes. These are read once the
/// device is known, and the host is called once they are good.
pub(crate) fn run_attach<K: GivesBytes, W: TakesBytes>(
    rt: &HostRuntime,
    place: Place<'_>,
    keys: &mut K,
    lines: KeyLines,
    device: &str,
    output: &mut Output<W>,
) -> Status
    ensures unknown { device_of device.now ≡ None
        → (result ≡ BadInput) × (keys.new ≡ keys.old) × (output.new ≡ output.old) }
    ensures attaches { (known : Device) → device_of device.now ≡ Some known
        → IfSome (K.remaining keys.old) (λ text. AttachesLines lines (AttachesSocket known) output.old
        output.new result text) }
{
    let Some(device) = Device::from_name(device.as_bytes()) else {
        tell_unknown_device(rt);
        return Status::BadInput;
    };
    match lines {
        KeyLines::Keys => attach_with_keys(rt, place, keys, device, output),
        KeyLines::Strokes => attach_with_strokes(rt, place, keys, device, output),
    }
}

fn attach_with_keys<K: GivesBytes, W: TakesBytes>(
    rt: &HostRuntime,
    place: Place<'_>,
    keys: &mut K,
    device: Device,
    output: &mut Output<W>,
) -> Status
    ensures { IfSome (K.remaining keys.old) (λ lines.
        AttachesNamed by_key (AttachesSocket device) output.old output.new result (keys_in lines)) }
{
    match read_keys(rt.alloc(), keys) {
        Ok(named) => attach_at(rt, place, device, named.keys.as_slice(), output),
        Err(error) => finish(rt.alloc(), output, Err(error)),
    }
}

fn attach_with_strokes<K: GivesBytes, W: TakesBytes>(
    rt: &HostRuntime,
    place: Place<'_>,
    strokes: &mut K,
    device: Device,
    output: &mut Output<W>,
) -> Status
    ensures { IfSome (K.remaining strokes.old) (λ lines.
        AttachesNamed by_stroke (AttachesSocket device) output.old output.new result (typed_in lines)) }
{
    match read_typed(rt.alloc(), strokes) {
        Ok(named) => attach_at(rt, place, device, named.strokes.as_slice(), output),
        Err(error) => finish(rt.alloc(), output, Err(error)),
    }
}

fn attach_at<K: Keystroke, W: TakesBytes>(
    rt: &HostRuntime,
    place: Place<'_>,
    device: Device,
    keys: &[K],
    output: &mut Output<W>,
) -> Status
    ensures { AttachesSocket device (map K.strike keys.now) output.old output.new result
        ⊎ HasFailed output.old output.new result }
{
    match TcpLine::to(rt, place) {
        Ok(line) => {
            let (status, _wire) = attach_on(rt.alloc(), line, device, keys, output);
            status
        }
        Err(error) => place.report(rt, &error),
    }
}
