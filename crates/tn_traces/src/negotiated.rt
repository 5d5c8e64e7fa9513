//! Whether a session is enhanced, by the events of its stream (RFC 2355, section 7).

ghost use Rattle.std.specs.Prelude.{◌≡◌};
ghost use Rattle.tn_wire.specs.Calls.{told_of};
ghost use Rattle.tn_wire.specs.Verbs.{verb_code};
ghost use Rattle.tn_traces.specs.Negotiated.{names_device, agrees_functions, agreed, after_words, off_verb, turns_off, negotiated_after};

use tn_wire::{Event, Verb};

/// The option TN3270E.
const TN3270E: u8 = 40;

/// Who sent an event, and whether the other side is seen as well.
#[derive(Clone, Copy, Debug, PartialEq, Eq)]
pub enum Sender {
    /// The host, where both sides are seen, in the order in which their events passed.
    Host,
    /// The terminal, where both sides are seen.
    Terminal,
    /// The host, and the terminal isn't seen.
    OnlyHost,
    /// The terminal, and the host isn't seen.
    OnlyTerminal,
}

/// How far TN3270E is agreed.
#[derive(Clone, Copy, Debug, PartialEq, Eq)]
pub enum Negotiated {
    /// It is not: records have no header.
    Classic,
    /// The terminal has a device name; its functions are not agreed.
    Named,
    /// It is: each record begins with a header.
    Enhanced,
}

fn names_device(sender: Sender, first: u8, second: u8) -> bool
    ensures { result ≡ names_device sender first second }
{
    match sender {
        Sender::Host | Sender::OnlyHost => first == 2 && second == 4,
        Sender::Terminal => false,
        Sender::OnlyTerminal => first == 2 && second == 7,
    }
}

fn agrees_functions(sender: Sender, first: u8, second: u8) -> bool
    ensures { result ≡ agrees_functions sender first second }
{
    match sender {
        Sender::Host | Sender::Terminal => first == 3 && second == 4,
        Sender::OnlyHost | Sender::OnlyTerminal => first == 3 && (second == 4 || second == 7),
    }
}

fn agreed(now: Negotiated) -> Negotiated
    ensures { result ≡ agreed now }
{
    match now {
        Negotiated::Classic => Negotiated::Classic,
        Negotiated::Named | Negotiated::Enhanced => Negotiated::Enhanced,
    }
}

/// A subnegotiation of TN3270E.
fn after_words(sender: Sender, now: Negotiated, words: &[u8]) -> Negotiated
    ensures { result ≡ after_words sender now words.now }
{
    let Some((first, rest)) = words.split_first() else {
        return now;
    };
    let Some((second, _rest)) = rest.split_first() else {
        return now;
    };
    if names_device(sender, *first, *second) {
        Negotiated::Named
    } else if agrees_functions(sender, *first, *second) {
        agreed(now)
    } else {
        now
    }
}

/// Whether a verb ends TN3270E, which is the terminal's option: the host's DONT, and the terminal's
/// WONT.
pub fn is_tn3270e_off(sender: Sender, verb: Verb, option: u8) -> bool
    ensures { result ≡ turns_off sender (verb_code verb) option }
{
    match (sender, verb) {
        (Sender::Host | Sender::OnlyHost, Verb::Dont) => option == TN3270E,
        (Sender::Terminal | Sender::OnlyTerminal, Verb::Wont) => option == TN3270E,
        _ => false,
    }
}

/// How far TN3270E is agreed after an event.
///
/// The host's DEVICE-TYPE IS names the device, and FUNCTIONS IS, of either side, agrees the
/// functions; the host's DONT of TN3270E and the terminal's WONT go back to a classic session.
/// Where one side alone is seen, its DEVICE-TYPE REQUEST and FUNCTIONS REQUEST count as well: what
/// it sends after them shows that the other agreed.
pub fn negotiated_after(sender: Sender, now: Negotiated, event: &Event<'_>) -> Negotiated
    ensures { result ≡ negotiated_after sender now (told_of event.now) }
{
    match event {
        Event::Verb(verb, option) if is_tn3270e_off(sender, *verb, *option) => Negotiated::Classic,
        Event::Sub(option, words) if *option == TN3270E => after_words(sender, now, words),
        _ => now,
    }
}
