//! The numbers of faults, as they are printed.

ghost use Rattle.std.specs.Prelude.{◌≡◌};
ghost use Rattle.cli_sessions.specs.FaultNumber.{wire_number, header_number, session_number, inbound_number, bind_number, fault_number};

use ds_inbound::Why;
use scr_check::BindFault;
use tn_session::{RunFault, SessionFault};
use tn_wire::{HeaderFault, WireFault};

fn wire_number(why: WireFault) -> &'static str
    ensures { result.now ≡ wire_number why }
{
    match why {
        WireFault::RecordTooLong => "W1",
        WireFault::SubTooLong => "W2",
        WireFault::BadSub => "W3",
    }
}

fn header_number(why: HeaderFault) -> &'static str
    ensures { result.now ≡ header_number why }
{
    match why {
        HeaderFault::ShortHeader => "H1",
        HeaderFault::UnknownType => "H2",
    }
}

fn session_number(why: SessionFault) -> &'static str
    ensures { result.now ≡ session_number why }
{
    match why {
        SessionFault::Rejected(_) => "N1",
        SessionFault::WrongList => "N2",
        SessionFault::BadSubnegotiation => "N3",
        SessionFault::OptionRefused(_) => "N4",
        SessionFault::NotReady => "N5",
        SessionFault::BadResponse => "N6",
        SessionFault::TooManyReads => "N7",
        SessionFault::LineFault => "N8",
        SessionFault::NoDevice => "N9",
        SessionFault::Closed => "N10",
        SessionFault::TerminalRefused(_) => "N11",
    }
}

fn inbound_number(why: Why) -> &'static str
    ensures { result.now ≡ inbound_number why }
{
    match why {
        Why::Empty => "I1",
        Why::UnknownAid => "I2",
        Why::Truncated => "I3",
        Why::BadAddress => "I4",
        Why::BadCharacter => "I5",
        Why::Null => "I6",
    }
}

fn bind_number(why: BindFault) -> &'static str
    ensures { result.now ≡ bind_number why }
{
    match why {
        BindFault::NotDeclared => "B1",
        BindFault::Longer => "B2",
        BindFault::Twice => "B3",
        BindFault::Lead => "B4",
    }
}

/// The number of a run's fault: its letter and its count, as `N5`. Out of memory has none, and gives the empty text.
pub fn fault_number(fault: RunFault) -> &'static str
    ensures { result.now ≡ fault_number fault }
{
    match fault {
        RunFault::Wire(why) => wire_number(why),
        RunFault::Header(why) => header_number(why),
        RunFault::Session(why) => session_number(why),
        RunFault::Inbound(refused) => inbound_number(refused.why),
        RunFault::Bind(why) => bind_number(why),
        RunFault::OutOfMemory => "",
    }
}
