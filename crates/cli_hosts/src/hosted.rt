//! A host's session in a hub.

ghost use Rattle.std.specs.Prelude.{◌≡◌, ◌+◌, ◌<◌, ℕ, true, map, None, IfOk, IfErr, OnOk};
ghost use Rattle.session_hub.specs.Hubs.{At, Opens, Steps, seat_at};
ghost use Rattle.tn_session.specs.HostTalk.{host_talk, first_said, outcome_in};
ghost use Rattle.tn_session.specs.HostView.{some_outcome};
ghost use Rattle.cli_hosts.specs.Hosting.{Hosting, HostTakes, hosting};

use scr_layout::Layout;
use session_hub::{Came, Hub, Session};
use std::alloc::Global;
use std::marker::Model;
use tn_session::{HostOutcome, HostSession, Progress, RunFault};

/// A host's session, with why it failed.
#[derive(Drop)]
pub struct Hosted<'a> {
    host: HostSession<'a>,
    fault: Option<RunFault>,
}

impl<'a> Model for Hosted<'a> {
    ghost use Rattle.tn_session.specs.HostTalk.{HasCome};
    ghost use Rattle.cli_hosts.specs.Hosting.{Hosting};

    ghost Value = { Hosting };

    ghost view = { λ h. record { talk = h.host; fault = h.fault } };
}

impl<'a> Hosted<'a> {
    /// A session at its beginning.
    pub fn new(host: HostSession<'a>) -> Hosted<'a>
        ensures { result ≡ hosting host.entry }
    {
        Hosted { host, fault: None }
    }

    /// Why the session failed, where it did.
    pub(crate) fn fault(&self) -> Option<RunFault>
        ensures { result ≡ self.now.fault }
    {
        self.fault
    }

    /// What came of the session, where it is over.
    pub(crate) fn into_outcome(self) -> Option<HostOutcome>
        ensures { some_outcome result ≡ outcome_in self.entry.talk }
    {
        let Hosted { host, .. } = self;
        host.into_outcome()
    }
}

impl<'a> Session for Hosted<'a> {
    ghost use Rattle.cli_hosts.specs.Hosting.{HostTakes};

    ghost takes = { HostTakes };

    fn take(&mut self, alloc: Global, bytes: &[u8], due: &mut Vec<u8>) -> Came {
        match self.host.take(alloc, bytes, due) {
            Ok(Progress::More) => Came::More,
            Ok(Progress::Done { .. }) => Came::Over,
            Err(why) => {
                self.fault = Some(why);
                Came::Over
            }
        }
    }
}

/// A terminal came: a host's session begins for it, that asks for TN3270E with RESPONSES, and sends these records.
///
/// # Errors
///
/// `NoDevice` where no model has the layout's sizes, else `OutOfMemory`. The terminal did not come then.
pub fn open_host<'a>(
    alloc: Global,
    hub: &mut Hub<Hosted<'a>>,
    layout: &'a Layout,
    records: &'a [&'a [u8]],
    now: u64,
) -> Result<usize, RunFault>
    requires { hub.old.came < u64.MAX }
    ensures opened { IfOk result (λ token.
        let talk = host_talk layout.now (map (λ bytes. bytes.now) records.now) true true in
        Steps HostTakes hub.old.limits (At token (Opens (hub.old.came + 1) now (hosting talk) (first_said talk)))
        hub.old.seats hub.new.seats) }
    ensures free { IfOk result (λ token. seat_at token hub.old.seats ≡ None) }
    ensures counted { OnOk result (hub.new.came ≡ hub.old.came + 1) }
    ensures limits { hub.new.limits ≡ hub.old.limits }
    ensures refused { IfErr result (λ e. (t : ℕ) → seat_at t hub.new.seats
        ≡ seat_at t hub.old.seats) }
    ensures uncounted { IfErr result (λ e. hub.new.came ≡ hub.old.came) }
{
    let host = HostSession::new(alloc, layout, records, true, true)?;
    let mut opening = Vec::new(alloc);
    host.begin(&mut opening)?;
    let token = hub.open(now, Hosted::new(host), opening)?;
    Ok(token)
}
