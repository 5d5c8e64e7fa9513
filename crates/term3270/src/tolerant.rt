//! The command `attach --tolerant`, from its inputs to the net.

ghost use Rattle.std.specs.Prelude.{◌≡◌, ◌⊎◌, map, IfSome, None, Some};
ghost use Rattle.tn_cores.specs.declared.device.Device.{Device};
ghost use Rattle.tn_cores.specs.Devices.{device_of};
ghost use Rattle.cli_commands.specs.declared.status.Status.TheVariants.{BadInput};
ghost use Rattle.cli_commands.specs.Keys.{keys_in};
ghost use Rattle.cli_characters.specs.Strokes.{typed_in};
ghost use Rattle.tn_session.specs.Strikes.{by_key, by_stroke};
ghost use Rattle.term3270.specs.Sessions.{AttachesLines, AttachesNamed, AttachesTolerantly, HasFailed};

use crate::manners::tell_unknown_device;
use crate::tcp::{Place, TcpLine};
use cli_characters::read_typed;
use cli_commands::{GivesBytes, Status, TakesBytes, finish, read_keys};
use cli_sessions::{Output, attach_tolerant_on};
use cli_words::KeyLines;
use tn_session::{Device, Keystroke};

/// What is expected of a session, and how long a wait takes; 0 is no limit.
#[derive(Clone, Copy)]
pub(crate) struct Limits {
    /// The least number of answers.
    pub expect: u16,
    /// The seconds that a wait takes at most.
    pub timeout: u16,
}

/// Attaches a tolerant terminal of the device of this name to the host at a place, and presses keys, or strikes. These are read
/// once the device is known, and the host is called once they are good.
pub(crate) fn run_tolerant<K: GivesBytes, W: TakesBytes>(
    rt: &HostRuntime,
    place: Place<'_>,
    keys: &mut K,
    lines: KeyLines,
    device: &str,
    limits: Limits,
    output: &mut Output<W>,
) -> Status
    ensures unknown { device_of device.now ≡ None
        → (result ≡ BadInput) × (keys.new ≡ keys.old) × (output.new ≡ output.old) }
    ensures attaches { (known : Device) → device_of device.now ≡ Some known
        → IfSome (K.remaining keys.old) (λ text. AttachesLines lines
        (AttachesTolerantly known limits.expect) output.old output.new result text) }
{
    let Some(device) = Device::from_name(device.as_bytes()) else {
        tell_unknown_device(rt);
        return Status::BadInput;
    };
    match lines {
        KeyLines::Keys => tolerant_with_keys(rt, place, keys, device, limits, output),
        KeyLines::Strokes => tolerant_with_strokes(rt, place, keys, device, limits, output),
    }
}

fn tolerant_with_keys<K: GivesBytes, W: TakesBytes>(
    rt: &HostRuntime,
    place: Place<'_>,
    keys: &mut K,
    device: Device,
    limits: Limits,
    output: &mut Output<W>,
) -> Status
    ensures { IfSome (K.remaining keys.old) (λ lines. AttachesNamed by_key
        (AttachesTolerantly device limits.expect) output.old output.new result (keys_in lines)) }
{
    match read_keys(rt.alloc(), keys) {
        Ok(named) => tolerant_at(rt, place, device, named.keys.as_slice(), limits, output),
        Err(error) => finish(rt.alloc(), output, Err(error)),
    }
}

fn tolerant_with_strokes<K: GivesBytes, W: TakesBytes>(
    rt: &HostRuntime,
    place: Place<'_>,
    strokes: &mut K,
    device: Device,
    limits: Limits,
    output: &mut Output<W>,
) -> Status
    ensures { IfSome (K.remaining strokes.old) (λ lines. AttachesNamed by_stroke
        (AttachesTolerantly device limits.expect) output.old output.new result (typed_in lines)) }
{
    match read_typed(rt.alloc(), strokes) {
        Ok(named) => tolerant_at(rt, place, device, named.strokes.as_slice(), limits, output),
        Err(error) => finish(rt.alloc(), output, Err(error)),
    }
}

fn tolerant_at<K: Keystroke, W: TakesBytes>(
    rt: &HostRuntime,
    place: Place<'_>,
    device: Device,
    keys: &[K],
    limits: Limits,
    output: &mut Output<W>,
) -> Status
    ensures { AttachesTolerantly device limits.expect (map K.strike keys.now)
        output.old output.new result
        ⊎ HasFailed output.old output.new result }
{
    match TcpLine::with_limit(rt, place, limits.timeout) {
        Ok(line) => {
            let (status, _wire) = attach_tolerant_on(
                rt.alloc(),
                line,
                device,
                keys,
                limits.expect,
                output,
            );
            status
        }
        Err(error) => place.report(rt, &error),
    }
}
