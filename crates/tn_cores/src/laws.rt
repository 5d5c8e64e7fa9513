//! Laws on the two cores together. These functions do nothing: their contracts are the laws.

ghost use Rattle.tn_cores.specs.Pair.{strict, tolerant, IsSettled, IsSettledTolerant, PairsAgree, PairsSettle, PairsEnd};
ghost use Rattle.tn_cores.specs.Pair.{TerminalIsHeard, TolerantIsHeard, HostIsHeard, OpeningIsHeard, StormsAreBounded};
ghost use Rattle.tn_cores.specs.Traced.{TerminalsAreTold, HostsAreTold};

/// Whatever a terminal's device, a host's layout, and the choices that both are made with, and in whatever order the
/// events between them arrive: if both are ready, they hold the same. Where nothing is on its way, both are ready, or the
/// terminal's device was rejected as one that does not fit, or the host found no device that fits.
pub fn pair_law()
    ensures agree { PairsAgree strict }
    ensures settle { PairsSettle strict IsSettled }
{}

/// Delivery ends: no pair of cores takes more than 14 events.
pub fn delivery_law()
    ensures { PairsEnd strict }
{}

/// The same of a tolerant terminal and a host. Where nothing is on its way, both are ready, or the host, which rejected the
/// terminal's device, refused that it then gave TN3270E up, or the host found no device that fits; and delivery ends.
pub fn tolerant_pair_law()
    ensures agree { PairsAgree tolerant }
    ensures settle { PairsSettle tolerant IsSettledTolerant }
    ensures end { PairsEnd tolerant }
{}

/// A peer can't make a tolerant terminal amplify: whatever events come, and however many, it answers no more bytes than came,
/// but for 64 an event.
pub fn storm_law()
    ensures { StormsAreBounded }
{}

/// What an end writes is heard as it was said: the bytes of each reply, and of the host's opening, tell exactly the events
/// of its tokens, and leave nothing open. So the laws on pairs, which speak of events, hold of bytes in any pieces.
pub fn reply_law()
    ensures terminal { TerminalIsHeard }
    ensures tolerant { TolerantIsHeard }
    ensures host { HostIsHeard }
    ensures opening { OpeningIsHeard }
{}

/// A trace that shows both sides tells of a session what its ends hold. Whatever events come to a terminal, if it refuses
/// none and is ready, the rule for traces (`tn_traces::negotiated_after`), over these events with the terminal's reply
/// behind each, says that the session is enhanced exactly where the terminal holds that it is; and so it is with a host.
pub fn trace_law()
    ensures terminals { TerminalsAreTold }
    ensures hosts { HostsAreTold }
{}
