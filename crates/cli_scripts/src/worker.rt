//! The actions of a script at its terminal.

ghost use Rattle.std.specs.Prelude.{◌≡◌, map, is_some, IfOk, OnOk};
ghost use Rattle.script_keys.specs.Actions.{read_action};
ghost use Rattle.cli_scripts.specs.Acts.{Acts, MayRead, PressesAs, PressesNone, PressesOnly};
ghost use Rattle.cli_scripts.specs.Desks.{Keeps};
ghost use Rattle.cli_scripts.specs.Machines.{HearsCame};
ghost use Rattle.cli_scripts.specs.Performs.{Goes};
ghost use Rattle.cli_scripts.specs.Workers.{ActsSet, ClosedOn, GoesOn, HeardAt, HearsOn, KeepsSet, SetsAs, ToldOn, new_worker};
ghost use Rattle.cli_scripts.specs.Waits.{ActsWait, BeginsAsked, ClosesWait, HearsWait, TellsWait, WaitsAs, WaitsOn};
ghost use Rattle.script_screens.specs.Lines.{failed};
ghost use Rattle.cli_scripts.specs.Answers.{printed_text};
ghost use Rattle.cli_scripts.specs.Says.{EndsSaying, ActsSaying, Answers, EndsAnswering, Others, Prints, Reads, printing_of};
ghost use Rattle.cli_scripts.specs.Desks.{TellsQuery};
ghost use Rattle.cli_scripts.specs.TypedTexts.{ActsTexts, OthersTexts, TypesArguments, TypesText};
ghost use Rattle.cli_scripts.specs.Keying.{ActsKeys, OthersKeys, SaysKeyOf, TypesKeyOf, bad_key};
ghost use Rattle.script_requests.specs.Waits.{read_wait};

use crate::answer::Saying;
use crate::came::{Came, Need};
use crate::connecting::{connect, connected, disconnected, unconnected};
use crate::desk::Desk;
use crate::doing::{Doing, Step, Typing};
use crate::files::{Printing, printing_of, read_layout, unwritten, write_page};
use crate::kept::KeptScreen;
use crate::keys::{after_sent, press, type_code};
use crate::kind::{Kind, kind_of};
use crate::reading::{read, snap};
use crate::settings::{FIRST, Settings, change};
use crate::typing::type_text;
use crate::waiting::{arrived, wait, wait_closed, wait_heard, wait_late};
use script_keys::{Action, push_fault, read_action};
use script_lines::{Found, next_action};
use script_requests::read_wait;
use script_screens::{CodePage, Outcome, Query, Reading, Typed, key_of};
use std::alloc::{AllocError, Global};

/// What does the actions of a script: its terminal, what was set and kept, and what is said.
#[derive(Drop)]
pub(crate) struct Worker {
    pub(crate) desk: Desk,
    code_page: CodePage,
    settings: Settings,
    kept: Option<KeptScreen>,
    /// The data lines of the line that is under way.
    pub(crate) saying: Saying,
}

impl Worker {
    pub(crate) fn new(alloc: Global, desk: Desk, code_page: CodePage) -> Worker
        ensures { result ≡ new_worker desk code_page }
    {
        Worker {
            desk,
            code_page,
            settings: FIRST,
            kept: None,
            saying: Saying::new(alloc),
        }
    }

    /// Does an action.
    pub(crate) fn act(
        &mut self,
        alloc: Global,
        name: &[u8],
        arguments: &[Vec<u8>],
    ) -> Result<Step, AllocError>
        ensures keeps { Keeps self.old.desk self.new.desk }
        ensures page { self.new.code_page ≡ self.old.code_page }
        ensures set { ActsSet (read_action name.now
            (map (λ argument. argument.items) arguments.now)) self.old self.new }
        ensures acts { OnOk result (Acts (read_action name.now
            (map (λ argument. argument.items) arguments.now)) self.old.desk self.new.desk) }
        ensures waits { IfOk result (λ step. ActsWait (read_action name.now
            (map (λ argument. argument.items) arguments.now)) self.old.desk step self.old.saying
            self.new.saying) }
        ensures says { IfOk result (λ step. ActsSaying (read_action name.now
            (map (λ argument. argument.items) arguments.now)) self.old step self.new) }
        ensures keys { IfOk result (λ step. ActsKeys (read_action name.now
            (map (λ argument. argument.items) arguments.now)) self.old step self.new) }
        ensures texts { IfOk result (λ step. ActsTexts (read_action name.now
            (map (λ argument. argument.items) arguments.now)) self.old step self.new) }
    {
        match read_action(name, arguments) {
            Ok(Action::Keys(keys)) => press(alloc, &mut self.desk, &keys, &mut self.saying),
            Ok(Action::Connect(text)) => connect(alloc, &self.desk, text, &mut self.saying),
            Ok(Action::Disconnect) => {
                self.desk.close();
                Ok(Step::Ended(Outcome::Done))
            }
            Ok(Action::Quit) => Ok(Step::Quits),
            Ok(Action::Other(name, arguments)) => {
                self.act_otherwise(alloc, kind_of(name), arguments)
            }
            Err(fault) => {
                let mut words = Vec::new(alloc);
                push_fault(&mut words, &fault)?;
                Ok(Step::Ended(self.saying.fail(alloc, &words)?))
            }
        }
    }

    /// Does the actions of a line in turn, up to one that doesn't end well: how far that one has come, and what is left after it.
    pub(crate) fn perform<'a>(
        &mut self,
        alloc: Global,
        line: &'a [u8],
    ) -> Result<(Step, &'a [u8]), AllocError>
        ensures keeps { Keeps self.old.desk self.new.desk }
        ensures page { self.new.code_page ≡ self.old.code_page }
        ensures goes { IfOk result (λ stop. Goes line.now self.old stop.0 stop.1.now self.new) }
    {
        let mut rest = line;
        'actions: for _turn in 0..line.len() {
            match next_action(alloc, rest)? {
                Found::Ends => return Ok((Step::Ended(Outcome::Done), rest)),
                Found::Fault(fault) => {
                    let outcome = self.saying.fail_at(alloc, fault)?;
                    return Ok((Step::Ended(outcome), rest));
                }
                Found::Action(action, after) => {
                    rest = after;
                    match self.act(alloc, action.name, &action.arguments)? {
                        Step::Ended(Outcome::Done) => {}
                        other => return Ok((other, rest)),
                    }
                }
            }
        }
        Ok((Step::Ended(Outcome::Done), rest))
    }

    /// Does an action that may wait and presses no key of its name.
    fn act_otherwise(
        &mut self,
        alloc: Global,
        kind: Kind,
        arguments: &[Vec<u8>],
    ) -> Result<Step, AllocError>
        ensures keeps { Keeps self.old.desk self.new.desk }
        ensures page { self.new.code_page ≡ self.old.code_page }
        ensures set { SetsAs kind self.old self.new }
        ensures acts { OnOk result (PressesAs kind self.old.desk self.new.desk) }
        ensures waits { IfOk result (λ step. WaitsAs kind
            (map (λ argument. argument.items) arguments.now) self.old.desk step self.old.saying
            self.new.saying) }
        ensures says { IfOk result (λ step. Others kind
            (map (λ argument. argument.items) arguments.now) self.old step self.new) }
        ensures keys { IfOk result (λ step. OthersKeys kind
            (map (λ argument. argument.items) arguments.now) self.old step self.new) }
        ensures texts { IfOk result (λ step. OthersTexts kind
            (map (λ argument. argument.items) arguments.now) self.old step self.new) }
    {
        match kind {
            Kind::Types => self.type_arguments(alloc, arguments),
            Kind::TypesKey => self.type_key(alloc, arguments),
            Kind::Waits => self.begin_wait(alloc, arguments),
            Kind::Prints => self.print(alloc, arguments),
            Kind::Checks => read_layout(alloc, arguments),
            other => self.end_with(alloc, other, arguments),
        }
    }

    /// Does an action that waits for nothing.
    fn end_with(
        &mut self,
        alloc: Global,
        kind: Kind,
        arguments: &[Vec<u8>],
    ) -> Result<Step, AllocError>
        ensures keeps { Keeps self.old.desk self.new.desk }
        ensures page { self.new.code_page ≡ self.old.code_page }
        ensures set { SetsAs kind self.old self.new }
        ensures acts { PressesAs kind self.old.desk self.new.desk }
        ensures says { IfOk result (λ step. EndsAnswering kind
            (map (λ argument. argument.items) arguments.now) self.old step self.new) }
    {
        let outcome = self.answer(alloc, kind, arguments)?;
        Ok(Step::Ended(outcome))
    }

    /// Types what the arguments of String say, put together.
    fn type_arguments(&mut self, alloc: Global, arguments: &[Vec<u8>]) -> Result<Step, AllocError>
        ensures keeps { Keeps self.old.desk self.new.desk }
        ensures page { self.new.code_page ≡ self.old.code_page }
        ensures set { KeepsSet self.old self.new }
        ensures deeds { OnOk result (PressesOnly self.old.desk self.new.desk) }
        ensures typed { IfOk result (λ step. TypesArguments self.old.code_page
            self.old.settings.blank_fill (map (λ argument. argument.items) arguments.now) step
            self.old.desk self.new.desk self.old.saying self.new.saying) }
    {
        let mut text = Vec::new(alloc);
        'arguments: for argument in arguments {
            text.extend_from_slice(argument)?;
        }
        let typing = Typing {
            text,
            after_send: false,
        };
        self.type_on(alloc, typing)
    }

    fn type_on(&mut self, alloc: Global, typing: Typing) -> Result<Step, AllocError>
        ensures keeps { Keeps self.old.desk self.new.desk }
        ensures page { self.new.code_page ≡ self.old.code_page }
        ensures set { KeepsSet self.old self.new }
        ensures deeds { OnOk result (PressesOnly self.old.desk self.new.desk) }
        ensures typed { IfOk result (λ step. TypesText self.old.code_page
            self.old.settings.blank_fill typing step self.old.desk self.new.desk self.old.saying
            self.new.saying) }
    {
        let fills = self.settings.blank_fill;
        type_text(
            alloc,
            &mut self.desk,
            self.code_page,
            fills,
            typing,
            &mut self.saying,
        )
    }

    /// Types the characters that the arguments of Key say, in turn.
    fn type_key(&mut self, alloc: Global, arguments: &[Vec<u8>]) -> Result<Step, AllocError>
        ensures keeps { Keeps self.old.desk self.new.desk }
        ensures page { self.new.code_page ≡ self.old.code_page }
        ensures set { KeepsSet self.old self.new }
        ensures deeds { OnOk result (PressesOnly self.old.desk self.new.desk) }
        ensures typed { OnOk result (TypesKeyOf self.old.code_page self.old.settings.blank_fill
            (map (λ argument. argument.items) arguments.now) self.old.desk self.new.desk) }
        ensures says { IfOk result (λ step. SaysKeyOf self.old.code_page
            self.old.settings.blank_fill (map (λ argument. argument.items) arguments.now)
            self.old.desk.host self.old.desk.talk step self.old.saying self.new.saying) }
    {
        let [argument] = arguments else {
            return Ok(Step::Ended(Outcome::Done));
        };
        match key_of(self.code_page, argument) {
            Typed::Code(code) => {
                let fills = self.settings.blank_fill;
                type_code(alloc, &mut self.desk, fills, code, &mut self.saying)
            }
            Typed::NoCode => Ok(Step::Ended(Outcome::Done)),
            Typed::Unknown => self.refuse_key(alloc, argument),
        }
    }

    /// Says that there is no such key.
    fn refuse_key(&mut self, alloc: Global, argument: &[u8]) -> Result<Step, AllocError>
        ensures keeps { Keeps self.old.desk self.new.desk }
        ensures page { self.new.code_page ≡ self.old.code_page }
        ensures set { KeepsSet self.old self.new }
        ensures deeds { PressesNone self.old.desk self.new.desk }
        ensures says { IfOk result (λ step. EndsSaying
            (failed (printed_text (bad_key argument.now))) step self.old.saying self.new.saying) }
    {
        let mut words = Vec::new(alloc);
        words.extend_from_slice(b"Key(): Nonexistent or invalid name:")?;
        if !argument.is_empty() {
            words.extend_from_slice(b" ")?;
            words.extend_from_slice(argument)?;
        }
        Ok(Step::Ended(self.saying.fail(alloc, &words)?))
    }

    fn begin_wait(&mut self, alloc: Global, arguments: &[Vec<u8>]) -> Result<Step, AllocError>
        ensures keeps { Keeps self.old.desk self.new.desk }
        ensures page { self.new.code_page ≡ self.old.code_page }
        ensures set { KeepsSet self.old self.new }
        ensures deeds { PressesNone self.old.desk self.new.desk }
        ensures waits { IfOk result (λ step.
            BeginsAsked (read_wait (map (λ argument. argument.items) arguments.now)) self.old.desk
            step self.old.saying self.new.saying) }
    {
        match read_wait(arguments) {
            Ok(asked) => wait(alloc, &self.desk, asked, &mut self.saying),
            Err(fault) => Ok(Step::Ended(self.saying.fail(alloc, fault.text().as_bytes())?)),
        }
    }

    /// Prints the screen.
    fn print(&mut self, alloc: Global, arguments: &[Vec<u8>]) -> Result<Step, AllocError>
        ensures keeps { Keeps self.old.desk self.new.desk }
        ensures page { self.new.code_page ≡ self.old.code_page }
        ensures set { KeepsSet self.old self.new }
        ensures deeds { MayRead self.old.desk self.new.desk }
        ensures says { IfOk result (λ step.
            Prints (printing_of (map (λ argument. argument.items) arguments.now)) self.old step
            self.new) }
    {
        match printing_of(arguments) {
            Printing::Lines => {
                let outcome = self.read(alloc, Reading::Ascii, &[])?;
                Ok(Step::Ended(outcome))
            }
            Printing::Page(path) => write_page(alloc, path),
            Printing::Fault(words) => Ok(Step::Ended(self.saying.fail(alloc, words)?)),
        }
    }

    /// Says what an action says that waits for nothing.
    fn answer(
        &mut self,
        alloc: Global,
        kind: Kind,
        arguments: &[Vec<u8>],
    ) -> Result<Outcome, AllocError>
        ensures keeps { Keeps self.old.desk self.new.desk }
        ensures page { self.new.code_page ≡ self.old.code_page }
        ensures set { SetsAs kind self.old self.new }
        ensures acts { PressesAs kind self.old.desk self.new.desk }
        ensures says { IfOk result (λ outcome. Answers kind
            (map (λ argument. argument.items) arguments.now) self.old outcome self.new) }
    {
        match kind {
            Kind::Reads(reading) => self.read(alloc, reading, arguments),
            Kind::Snaps => snap(
                alloc,
                &self.desk,
                &mut self.kept,
                self.code_page,
                arguments,
                &mut self.saying,
            ),
            Kind::Tells(query) => self.tell(alloc, query, arguments),
            Kind::Sets(verb) => change(
                alloc,
                &mut self.settings,
                verb,
                arguments,
                &mut self.saying,
            ),
            Kind::Expects => self.saying.fail(
                alloc,
                b"Expect() is valid only when connected in NVT mode",
            ),
            Kind::Rings => {
                self.saying.say(alloc, b"(ding)")?;
                Ok(Outcome::Done)
            }
            Kind::Types
            | Kind::TypesKey
            | Kind::Waits
            | Kind::Prints
            | Kind::Checks
            | Kind::Rests => Ok(Outcome::Done),
        }
    }

    fn read(
        &mut self,
        alloc: Global,
        reading: Reading,
        arguments: &[Vec<u8>],
    ) -> Result<Outcome, AllocError>
        ensures keeps { Keeps self.old.desk self.new.desk }
        ensures page { self.new.code_page ≡ self.old.code_page }
        ensures set { KeepsSet self.old self.new }
        ensures deeds { MayRead self.old.desk self.new.desk }
        ensures reads { IfOk result (λ outcome. Reads self.old.code_page reading
            (map (λ argument. argument.items) arguments.now) self.old.desk self.old.saying outcome
            self.new.desk self.new.saying) }
    {
        let page = self.code_page;
        read(
            alloc,
            &mut self.desk,
            page,
            reading,
            arguments,
            &mut self.saying,
        )
    }

    fn tell(
        &mut self,
        alloc: Global,
        asked: Query,
        arguments: &[Vec<u8>],
    ) -> Result<Outcome, AllocError>
        ensures keeps { Keeps self.old.desk self.new.desk }
        ensures page { self.new.code_page ≡ self.old.code_page }
        ensures set { KeepsSet self.old self.new }
        ensures deeds { PressesNone self.old.desk self.new.desk }
        ensures tells { IfOk result (λ outcome. TellsQuery self.old.desk asked
            (map (λ argument. argument.items) arguments.now) self.old.saying self.new.saying
            outcome) }
    {
        self.saying.query(alloc, &self.desk, asked, arguments)
    }

    /// Goes on with what is under way.
    pub(crate) fn resume(
        &mut self,
        alloc: Global,
        doing: Doing,
        came: Came<'_>,
    ) -> Result<Step, AllocError>
        ensures heard { HearsCame came.entry self.old.desk self.new.desk }
        ensures page { self.new.code_page ≡ self.old.code_page }
        ensures set { KeepsSet self.old self.new }
        ensures waits { IfOk result (λ step.
            WaitsOn doing came.entry self.new.desk step self.old.saying self.new.saying) }
        ensures goes { IfOk result (λ step. GoesOn doing came.entry self.old step self.new) }
    {
        match came {
            Came::Bytes(bytes) => {
                let shown = self.desk.hear(alloc, bytes)?;
                self.heard(alloc, doing, shown)
            }
            Came::Closed => {
                self.desk.close();
                self.closed(alloc, doing)
            }
            other => self.told(alloc, doing, other),
        }
    }

    /// Goes on after bytes of the host, of which it is known whether a record was shown.
    fn heard(&mut self, alloc: Global, doing: Doing, shown: bool) -> Result<Step, AllocError>
        ensures keeps { Keeps self.old.desk self.new.desk }
        ensures page { self.new.code_page ≡ self.old.code_page }
        ensures set { KeepsSet self.old self.new }
        ensures waits { IfOk result (λ step.
            HearsWait doing self.new.desk step self.old.saying self.new.saying) }
        ensures goes { IfOk result (λ step. HearsOn doing shown self.old step self.new) }
    {
        match doing {
            Doing::Arriving => Ok(arrived(&self.desk)),
            Doing::Waiting(asked) => wait_heard(alloc, &self.desk, asked, &mut self.saying),
            other => self.heard_for(alloc, other, shown),
        }
    }

    /// Goes on after bytes of the host with anything but a wait.
    fn heard_for(&mut self, alloc: Global, doing: Doing, shown: bool) -> Result<Step, AllocError>
        ensures keeps { Keeps self.old.desk self.new.desk }
        ensures page { self.new.code_page ≡ self.old.code_page }
        ensures set { KeepsSet self.old self.new }
        ensures goes { IfOk result (λ step.
            HeardAt (is_some self.old.desk.host) doing shown self.old step self.new) }
    {
        if !self.desk.is_connected() {
            return self.closed(alloc, doing);
        }
        match doing {
            Doing::Opening if shown => Ok(Step::Ended(Outcome::Done)),
            Doing::Opening => Ok(Step::Waits(Doing::Opening, Need::Bytes)),
            Doing::Sent => Ok(after_sent(&self.desk)),
            Doing::Pressing(keys) => press(alloc, &mut self.desk, &keys, &mut self.saying),
            Doing::TypingCode(code) => {
                let fills = self.settings.blank_fill;
                type_code(alloc, &mut self.desk, fills, code, &mut self.saying)
            }
            Doing::Typing(typing) => self.type_on(alloc, typing),
            Doing::Calling(host) => Ok(Step::Waits(Doing::Calling(host), Need::Connection)),
            Doing::Writing(path) => Ok(Step::Waits(Doing::Writing(path), Need::Page)),
            Doing::Checking(path) => Ok(Step::Waits(Doing::Checking(path), Need::Layout)),
            Doing::Arriving | Doing::Waiting(_) => Ok(Step::Ended(Outcome::Done)),
        }
    }

    /// Goes on after the line to the host ended.
    fn closed(&mut self, alloc: Global, doing: Doing) -> Result<Step, AllocError>
        ensures keeps { Keeps self.old.desk self.new.desk }
        ensures page { self.new.code_page ≡ self.old.code_page }
        ensures set { KeepsSet self.old self.new }
        ensures waits { IfOk result (λ step.
            ClosesWait doing step self.old.saying self.new.saying) }
        ensures goes { IfOk result (λ step. ClosedOn doing self.old step self.new) }
    {
        match doing {
            Doing::Opening | Doing::Calling(_) => disconnected(alloc, &mut self.saying),
            Doing::Typing(typing) => self.type_on(alloc, typing),
            Doing::Waiting(asked) => wait_closed(alloc, asked, &mut self.saying),
            Doing::Arriving
            | Doing::Sent
            | Doing::Pressing(_)
            | Doing::TypingCode(_)
            | Doing::Writing(_)
            | Doing::Checking(_) => Ok(Step::Ended(Outcome::Done)),
        }
    }

    /// Goes on after something else than the host's bytes.
    fn told(&mut self, alloc: Global, doing: Doing, came: Came<'_>) -> Result<Step, AllocError>
        ensures keeps { Keeps self.old.desk self.new.desk }
        ensures page { self.new.code_page ≡ self.old.code_page }
        ensures set { KeepsSet self.old self.new }
        ensures waits { IfOk result (λ step.
            TellsWait doing came.entry step self.old.saying self.new.saying) }
        ensures goes { IfOk result (λ step. ToldOn doing came.entry self.old step self.new) }
    {
        match (doing, came) {
            (Doing::Calling(host), Came::Connected) => connected(alloc, &mut self.desk, host),
            (Doing::Calling(host), Came::Unconnected(why)) => {
                unconnected(alloc, &host, why, &mut self.saying)
            }
            (Doing::Waiting(asked), Came::Late) => wait_late(alloc, asked, &mut self.saying),
            (Doing::Writing(path), Came::Unwritten(why)) => {
                let outcome = unwritten(alloc, &path, why, &mut self.saying)?;
                Ok(Step::Ended(outcome))
            }
            (Doing::Checking(path), Came::Layout(text)) => {
                let outcome = self.saying.check(alloc, &self.desk, &path, text)?;
                Ok(Step::Ended(outcome))
            }
            _ => Ok(Step::Ended(Outcome::Done)),
        }
    }
}
