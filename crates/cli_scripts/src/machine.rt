//! A terminal that lines of a script work.

ghost use Rattle.std.specs.Prelude.{◌≡◌, ◌++◌, [], ◌∷◌, None, true, false, is_some, option_map, IfOk, IfSome, OnErr, OnOk};
ghost use Rattle.cli_scripts.specs.Answers.{AreAnswers, handed_lines, printed_text};
ghost use Rattle.cli_scripts.specs.Desks.{DidAll, Keeps, handed_due, handed_screens, desk_of, new_desk, opened};
ghost use Rattle.tn_session.specs.TerminalTalk.{OfStanding};
ghost use Rattle.cli_scripts.specs.declared.came.Wants.TheVariants.{Line};
ghost use Rattle.cli_scripts.specs.Machines.{HearsNext, AnswersSo, DrainsFirst, IsDrained, IsKept, StopsAt, TellsOf, TellsSo, file_wanted, goes_on, host_named, host_wanted, scripted};
ghost use Rattle.cli_scripts.specs.declared.doing.Doing.TheVariants.{Arriving};
ghost use Rattle.cli_scripts.specs.Performs.{BeginsLine, GoesOnWith, Performs, StopsWith, TakesBy, worker_of};

use crate::answer::Answers;
use crate::came::{Came, Need, Wants};
use crate::desk::Desk;
use crate::doing::{Doing, Step};
use crate::host::Host;
use crate::sent_screen::SentScreen;
use crate::worker::Worker;
use ds_screen::{PlaneCells, Screen};
use script_screens::{CodePage, Outcome};
use std::alloc::{AllocError, Global};
use std::marker::Model;
use tn_session::{Device, RunFault};

/// A line of the script that is under way.
#[derive(Debug, Drop)]
struct Job {
    /// What is left of it, after the action that is under way.
    rest: Vec<u8>,
    doing: Doing,
}

/// A terminal that is worked by lines of a script, without a line to a host and without files: it is given what came, and tells what it
/// wants next. Contracts see its terminal, with all that was done at it, what was set and kept, its answers, and what is under way of a line.
#[derive(Drop)]
pub struct Machine {
    worker: Worker,
    job: Option<Job>,
    answers: Answers,
}

impl Model for Machine {
    ghost use Rattle.std.specs.Prelude.{is_some};
    ghost use Rattle.cli_scripts.specs.Machines.{Scripted};

    ghost Value = { Scripted };

    ghost view = { λ m. record {
      desk = m.worker.desk;
      code_page = m.worker.code_page;
      settings = m.worker.settings;
      kept = m.worker.kept;
      saying = m.worker.saying;
      telling = m.answers;
      job = m.job;
      is_busy = is_some m.job;
    } };
}

/// Said of a line of more than 65,536 bytes.
const TOO_LONG: &[u8] = b"line too long";

/// A terminal of this device, not connected, and whether its screens are to be judged.
fn begun(
    alloc: Global,
    device: Device,
    code_page: CodePage,
    collects: bool,
) -> Result<Machine, AllocError>
    ensures { IfOk result (λ machine. machine ≡ scripted (desk_of device collects) code_page) }
{
    let desk = Desk::new(alloc, device, collects)?;
    Ok(Machine {
        worker: Worker::new(alloc, desk, code_page),
        job: None,
        answers: Answers::new(alloc),
    })
}

impl Machine {
    /// A terminal of this device, not connected.
    pub fn new(alloc: Global, device: Device, code_page: CodePage) -> Result<Machine, AllocError>
        ensures { IfOk result (λ machine. machine ≡ scripted (new_desk device) code_page) }
    {
        begun(alloc, device, code_page, false)
    }

    /// A terminal of this device, not connected, whose screens are to be judged: of each on which Enter, a PF or a PA key sends a copy is
    /// kept, as it was before the key.
    pub fn judged(alloc: Global, device: Device, code_page: CodePage) -> Result<Machine, AllocError>
        ensures { IfOk result (λ machine. machine ≡ scripted (desk_of device true) code_page) }
    {
        begun(alloc, device, code_page, true)
    }

    /// Begins a session with a host that was connected before the script's first line.
    pub fn attach(&mut self, alloc: Global, name: &[u8], port: u16) -> Result<(), AllocError>
        ensures desk { Keeps self.old.desk self.new.desk }
        ensures rest { self.new ≡ record self.old { desk = self.new.desk } }
        ensures opened { OnOk result
            (self.new.desk ≡ opened self.old.desk (host_named (printed_text name.now) port)) }
        ensures same { OnErr result (self.new ≡ self.old) }
    {
        let host = Host::new(alloc, name, port)?;
        self.worker.desk.open_session(alloc, host)
    }

    /// The screen.
    pub fn screen(&self) -> &Screen<PlaneCells>
        ensures { OfStanding (λ state. state.terminal) self.now.desk.talk result.now }
    {
        self.worker.desk.screen()
    }

    /// Whether the line to the host is kept.
    pub fn is_connected(&self) -> bool
        ensures { result ≡ is_some self.now.desk.host }
    {
        self.worker.desk.is_connected()
    }

    /// The host that is wanted: its name or number, and its port.
    pub fn wanted_host(&self) -> Option<(&[u8], u16)>
        ensures value { option_map (λ host. host_named host.0.now host.1) result
            ≡ host_wanted self.now.job }
        ensures busy { IfSome result (λ host. self.now.is_busy ≡ true) }
    {
        match &self.job {
            Some(
                Job {
                    doing: Doing::Calling(host),
                    ..
                },
            ) => Some((host.name(), host.port())),
            _ => None,
        }
    }

    /// The file that is wanted.
    pub fn wanted_file(&self) -> Option<&[u8]>
        ensures value { option_map (λ path. path.now) result ≡ file_wanted self.now.job }
        ensures busy { IfSome result (λ path. self.now.is_busy ≡ true) }
    {
        match &self.job {
            Some(
                Job {
                    doing: Doing::Writing(path) | Doing::Checking(path),
                    ..
                },
            ) => Some(path),
            _ => None,
        }
    }

    /// The answers that were not handed out.
    pub fn lines(&self) -> &[u8]
        ensures value { result.now ≡ self.now.telling.lines }
        ensures answers { AreAnswers self.now.telling.outcomes
            (self.now.telling.gone ++ self.now.telling.lines) }
    {
        self.answers.lines()
    }

    /// Notes that they were handed out.
    pub fn hand_out_lines(&mut self)
        ensures { self.new ≡ record self.old { telling = handed_lines self.old.telling } }
    {
        self.answers.hand_out();
    }

    /// The bytes that are due to the host.
    pub fn due(&self) -> &[u8]
        ensures value { result.now ≡ self.now.desk.due }
        ensures did { DidAll self.now.desk }
    {
        self.worker.desk.due()
    }

    /// Notes that they were handed out.
    pub fn hand_out_due(&mut self)
        ensures { self.new ≡ record self.old { desk = handed_due self.old.desk } }
    {
        self.worker.desk.hand_out();
    }

    /// The screens on which keys sent that are to be judged, and were not handed out.
    pub fn sent_screens(&self) -> &[SentScreen]
        ensures value { result.now ≡ self.now.desk.unjudged }
        ensures did { DidAll self.now.desk }
    {
        self.worker.desk.sent_screens()
    }

    /// Notes that they were handed out.
    pub fn hand_out_screens(&mut self)
        ensures { self.new ≡ record self.old { desk = handed_screens self.old.desk } }
    {
        self.worker.desk.hand_out_screens();
    }

    /// Why the last session failed, once.
    pub fn take_fault(&mut self) -> Option<RunFault>
        ensures fault { result ≡ self.old.desk.fault }
        ensures rest { self.new
            ≡ record self.old { desk = record self.old.desk { fault = None } } }
    {
        self.worker.desk.take_fault()
    }

    /// Takes what came, and tells what is wanted next.
    pub fn take(&mut self, alloc: Global, came: Came<'_>) -> Result<Wants, AllocError>
        ensures heard { HearsNext self.old.is_busy came.entry self.old.desk self.new.desk }
        ensures page { self.new.code_page ≡ self.old.code_page }
        ensures gone { self.new.telling.gone ≡ self.old.telling.gone }
        ensures answered { IfOk result (λ wants.
            AnswersSo (goes_on self.old.is_busy came.entry) self.old wants self.new) }
        ensures tells { IfOk result (λ wants.
            TellsSo (goes_on self.old.is_busy came.entry) self.old wants self.new) }
        // At a terminal that is connected a line begins with what has arrived of the host.
        ensures drains { self.old.is_busy ≡ false → IfOk result (λ wants.
            DrainsFirst came.entry self.old.desk wants self.new.desk) }
        ensures takes { IfOk result (λ wants.
            TakesBy self.old.job came.entry self.old wants self.new) }
    {
        match self.job.take() {
            None => self.take_line(alloc, came),
            Some(Job { rest, doing }) => {
                let step = self.worker.resume(alloc, doing, came)?;
                self.go_on(alloc, step, &rest)
            }
        }
    }

    /// Takes the next line of the script.
    fn take_line(&mut self, alloc: Global, came: Came<'_>) -> Result<Wants, AllocError>
        requires idle { self.old.is_busy ≡ false }
        requires job { self.old.job ≡ None }
        ensures desk { Keeps self.old.desk self.new.desk }
        ensures page { self.new.code_page ≡ self.old.code_page }
        ensures gone { self.new.telling.gone ≡ self.old.telling.gone }
        ensures answered { IfOk result (λ wants.
            AnswersSo (goes_on false came.entry) self.old wants self.new) }
        ensures tells { IfOk result (λ wants.
            TellsSo (goes_on false came.entry) self.old wants self.new) }
        ensures drains { IfOk result (λ wants.
            DrainsFirst came.entry self.old.desk wants self.new.desk) }
        ensures takes { IfOk result (λ wants. TakesBy None came.entry self.old wants self.new) }
    {
        match came {
            Came::Line(line) => self.begin(alloc, line),
            Came::LongLine => {
                self.worker.saying.say(alloc, TOO_LONG)?;
                self.end_line(alloc, Outcome::Failed)
            }
            _ => Ok(Wants::Line),
        }
    }

    /// Begins a line: what has arrived of the host comes first.
    fn begin(&mut self, alloc: Global, line: &[u8]) -> Result<Wants, AllocError>
        requires idle { self.old.is_busy ≡ false }
        requires job { self.old.job ≡ None }
        ensures desk { Keeps self.old.desk self.new.desk }
        ensures page { self.new.code_page ≡ self.old.code_page }
        ensures gone { self.new.telling.gone ≡ self.old.telling.gone }
        ensures answered { IfOk result (λ wants. AnswersSo true self.old wants self.new) }
        ensures tells { IfOk result (λ wants. TellsSo true self.old wants self.new) }
        ensures drains { is_some self.old.desk.host ≡ true → IfOk result (λ wants.
            IsDrained self.old.desk wants self.new.desk) }
        ensures kept { is_some self.old.desk.host ≡ true → OnOk result
            (IsKept Arriving line.now self.new.job) }
        ensures begins { IfOk result (λ wants.
            BeginsLine (is_some self.old.desk.host) line.now self.old wants self.new) }
    {
        if self.worker.desk.is_connected() {
            let rest = line.to_vec(alloc)?;
            self.job = Some(Job {
                rest,
                doing: Doing::Arriving,
            });
            Ok(Wants::Need(Need::Arrived))
        } else {
            self.perform(alloc, line)
        }
    }

    /// Ends a line's answer.
    fn end_line(&mut self, alloc: Global, outcome: Outcome) -> Result<Wants, AllocError>
        ensures desk { self.new.desk ≡ self.old.desk }
        ensures page { self.new.code_page ≡ self.old.code_page }
        ensures gone { self.new.telling.gone ≡ self.old.telling.gone }
        ensures busy { self.new.is_busy ≡ self.old.is_busy }
        ensures job { self.new.job ≡ self.old.job }
        ensures wants { IfOk result (λ wants. wants ≡ Line) }
        ensures outcomes { OnOk result
            (self.new.telling.outcomes ≡ self.old.telling.outcomes ++ outcome ∷ []) }
        ensures tells { OnOk result
            (TellsOf self.old.desk self.old.saying outcome self.old self.new) }
        ensures worker { OnOk result
            (worker_of self.new ≡ record (worker_of self.old) { saying = [] }) }
    {
        let Worker { desk, saying, .. } = &mut self.worker;
        self.answers.finish(alloc, saying, desk, outcome)?;
        Ok(Wants::Line)
    }

    /// Goes on with a line after a step of its action.
    fn go_on(&mut self, alloc: Global, step: Step, rest: &[u8]) -> Result<Wants, AllocError>
        requires idle { self.old.is_busy ≡ false }
        requires job { self.old.job ≡ None }
        ensures desk { Keeps self.old.desk self.new.desk }
        ensures page { self.new.code_page ≡ self.old.code_page }
        ensures gone { self.new.telling.gone ≡ self.old.telling.gone }
        ensures answered { IfOk result (λ wants. AnswersSo true self.old wants self.new) }
        ensures tells { IfOk result (λ wants. TellsSo true self.old wants self.new) }
        ensures goes { IfOk result (λ wants.
            GoesOnWith step rest.now (worker_of self.old) self.old wants self.new) }
    {
        match step {
            Step::Ended(Outcome::Done) => self.perform(alloc, rest),
            other => self.stop_at(alloc, other, rest),
        }
    }

    /// Stops in a line where an action failed, waits, or ends the script.
    fn stop_at(&mut self, alloc: Global, step: Step, rest: &[u8]) -> Result<Wants, AllocError>
        requires idle { self.old.is_busy ≡ false }
        requires job { self.old.job ≡ None }
        ensures desk { Keeps self.old.desk self.new.desk }
        ensures page { self.new.code_page ≡ self.old.code_page }
        ensures gone { self.new.telling.gone ≡ self.old.telling.gone }
        ensures answered { IfOk result (λ wants. AnswersSo true self.old wants self.new) }
        ensures tells { IfOk result (λ wants. TellsSo true self.old wants self.new) }
        ensures stops { IfOk result (λ wants. StopsAt step rest.now wants self.new.job) }
        ensures becomes { IfOk result (λ wants.
            StopsWith (worker_of self.old) step rest.now self.old wants self.new) }
    {
        match step {
            Step::Ended(outcome) => self.end_line(alloc, outcome),
            Step::Waits(doing, need) => {
                let rest = rest.to_vec(alloc)?;
                self.job = Some(Job { rest, doing });
                Ok(Wants::Need(need))
            }
            Step::Quits => {
                self.end_line(alloc, Outcome::Done)?;
                self.worker.desk.close();
                Ok(Wants::Nothing)
            }
        }
    }

    /// Does the actions of a line in turn.
    fn perform(&mut self, alloc: Global, line: &[u8]) -> Result<Wants, AllocError>
        requires idle { self.old.is_busy ≡ false }
        requires job { self.old.job ≡ None }
        ensures desk { Keeps self.old.desk self.new.desk }
        ensures page { self.new.code_page ≡ self.old.code_page }
        ensures gone { self.new.telling.gone ≡ self.old.telling.gone }
        ensures answered { IfOk result (λ wants. AnswersSo true self.old wants self.new) }
        ensures tells { IfOk result (λ wants. TellsSo true self.old wants self.new) }
        ensures performs { IfOk result (λ wants.
            Performs line.now (worker_of self.old) self.old wants self.new) }
    {
        match self.worker.perform(alloc, line) {
            Ok((step, rest)) => self.stop_at(alloc, step, rest),
            Err(error) => Err(error),
        }
    }
}
