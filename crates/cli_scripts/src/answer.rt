//! The answers of lines: data lines, a status line, and `ok` or `error`.

ghost use Rattle.std.specs.Prelude.{◌≡◌, ◌++◌, [], true, map, IfOk, OnOk, codes};
ghost use Rattle.script_screens.specs.Laws.{LinkIsWhole, is_whole};
ghost use Rattle.script_screens.specs.Lines.{data_line, failed, Says};
ghost use Rattle.script_screens.specs.Query.{said_of_query};
ghost use Rattle.script_screens.specs.Status.{link_seen};
ghost use Rattle.cli_scripts.specs.Desks.{TellsQuery};
ghost use Rattle.cli_scripts.specs.Says.{Checks, TellsAnswer};
ghost use Rattle.script_checks.specs.ReadSeen.{read_seen};
ghost use Rattle.cli_scripts.specs.Answers.{printed_byte, printed_text, name_byte, printed_name, syntax_words, syntax_text, last_line, AreData, IsAnswer};

use crate::desk::Desk;
use crate::kept::KeptScreen;
use ds_screen::{PlaneCells, Screen};
use itoa::Buffer;
use script_checks::{LayoutText, push_check};
use script_lines::{SyntaxFault, SyntaxWhy};
use script_screens::{
    CodePage, Connection, Device, Kept, Outcome, Query, Reading, SnapFault, StringFault, lines_law,
    push_kept, push_query, push_reading, push_snap_fault, push_status, push_string_fault,
};
use std::alloc::{AllocError, Global};
use std::marker::Model;
use tn_session::History;

/// What is printed for a byte of a text: a control is `?`, so that a line stays one.
fn printed_byte(byte: u8) -> u8
    ensures { result ≡ printed_byte byte }
{
    if byte < 0x20 { 0x3F } else { byte }
}

/// What is printed for a byte of a logical unit's name.
fn name_byte(byte: u8) -> u8
    ensures { result ≡ name_byte byte }
{
    if byte < 0x7F {
        printed_byte(byte)
    } else {
        0x3F
    }
}

/// A logical unit's name as it is told: each byte that is no printable character of ASCII is `?`.
fn printed_name(alloc: Global, name: &[u8]) -> Result<Vec<u8>, AllocError>
    ensures { IfOk result (λ told. told.items ≡ printed_name name.now) }
{
    let mut told = Vec::new(alloc);
    'bytes: for byte in name {
        told.push(name_byte(*byte))?;
    }
    Ok(told)
}

/// Adds a text, without controls.
pub(crate) fn push_printed(lines: &mut Vec<u8>, text: &[u8]) -> Result<(), AllocError>
    ensures { OnOk result (lines.new.items ≡ lines.old.items ++ printed_text text.now) }
{
    'bytes: for byte in text {
        lines.push(printed_byte(*byte))?;
    }
    Ok(())
}

/// Adds a data line of a text, without controls.
fn push_data(lines: &mut Vec<u8>, text: &[u8]) -> Result<(), AllocError>
    ensures { OnOk result (lines.new.items ≡ lines.old.items ++ data_line (printed_text text.now)) }
{
    lines.extend_from_slice(b"data: ")?;
    push_printed(lines, text)?;
    lines.extend_from_slice(b"\n")
}

/// What s3270 says of a fault of syntax, up to its column.
fn syntax_words(why: SyntaxWhy) -> &'static str
    ensures { result.now ≡ syntax_words why }
{
    match why {
        SyntaxWhy::NoName => "Action name must begin with an alphanumeric character",
        SyntaxWhy::BadName => "Syntax error in action name",
        SyntaxWhy::Close => "Syntax error: \")\" expected",
        SyntaxWhy::CloseOrComma => "Syntax error: \")\" or \",\" expected",
        SyntaxWhy::Unclosed => "Syntax error: unclosed \"",
    }
}

/// Adds the data line of a fault of syntax.
fn push_syntax(lines: &mut Vec<u8>, fault: SyntaxFault) -> Result<(), AllocError>
    ensures { OnOk result (lines.new.items ≡ lines.old.items ++ data_line (syntax_text fault)) }
{
    let SyntaxFault { why, column } = fault;
    let mut digits = Buffer::new();
    lines.extend_from_slice(b"data: ")?;
    lines.extend_from_slice(syntax_words(why).as_bytes())?;
    lines.extend_from_slice(b" at column ")?;
    lines.extend_from_slice(digits.format(column).as_bytes())?;
    lines.extend_from_slice(b"\n")
}

/// The last line of an answer.
fn last_line(outcome: Outcome) -> &'static str
    ensures { result.now ≡ last_line outcome }
{
    match outcome {
        Outcome::Done => "ok\n",
        Outcome::Failed => "error\n",
    }
}

/// The data lines of an answer, so far. Contracts see their text.
#[derive(Drop)]
pub(crate) struct Saying {
    lines: Vec<u8>,
}

impl Model for Saying {
    ghost use Rattle.std.specs.Prelude.{ℕ, List};
    ghost use Rattle.cli_scripts.specs.Answers.{AreData};

    ghost Value = { List ℕ };

    ghost view = { λ s. s.lines.items };

    ghost invariant = { λ s. AreData s.lines.items };
}

impl Saying {
    ghost use Rattle.script_screens.specs.Reading.{said_of_reading};
    ghost use Rattle.script_screens.specs.Snap.{said_of_kept, snap_fault_words};
    ghost use Rattle.script_screens.specs.Pieces.{fault_words};
    ghost use Rattle.cli_scripts.specs.Desks.{link_of_host, TellsQuery};
    ghost use Rattle.cli_scripts.specs.Says.{Checks};
    ghost use Rattle.script_checks.specs.ReadSeen.{read_seen};

    /// Nothing yet.
    pub(crate) fn new(alloc: Global) -> Saying
        ensures { result ≡ [] }
    {
        Saying {
            lines: Vec::new(alloc),
        }
    }

    /// Adds data lines.
    fn add(&mut self, text: &[u8]) -> Result<(), AllocError>
        requires { AreData text.now }
        ensures { OnOk result (self.new ≡ self.old ++ text.now) }
    {
        self.lines.extend_from_slice(text)
    }

    /// Adds a data line of a text, in which a control is `?`.
    pub(crate) fn say(&mut self, alloc: Global, text: &[u8]) -> Result<(), AllocError>
        ensures { OnOk result (self.new ≡ self.old ++ data_line (printed_text text.now)) }
    {
        let mut line = Vec::new(alloc);
        push_data(&mut line, text)?;
        self.add(&line)
    }

    /// Adds a data line of a fault.
    pub(crate) fn fail(&mut self, alloc: Global, text: &[u8]) -> Result<Outcome, AllocError>
        ensures { IfOk result (λ outcome. Says self.old self.new outcome
            (failed (printed_text text.now))) }
    {
        self.say(alloc, text)?;
        Ok(Outcome::Failed)
    }

    /// Adds the data line of a fault of syntax.
    pub(crate) fn fail_at(
        &mut self,
        alloc: Global,
        fault: SyntaxFault,
    ) -> Result<Outcome, AllocError>
        ensures { IfOk result (λ outcome. Says self.old self.new outcome
            (failed (syntax_text fault))) }
    {
        let mut line = Vec::new(alloc);
        push_syntax(&mut line, fault)?;
        self.add(&line)?;
        Ok(Outcome::Failed)
    }

    /// Adds the data line of a fault in a text of String.
    pub(crate) fn fault_in_string(
        &mut self,
        alloc: Global,
        fault: StringFault,
    ) -> Result<(), AllocError>
        ensures { OnOk result
            (self.new ≡ self.old ++ data_line (codes "String(): " ++ fault_words fault)) }
    {
        let mut line = Vec::new(alloc);
        push_string_fault(&mut line, fault)?;
        self.add(&line)
    }

    /// Adds what an action reads of a screen.
    pub(crate) fn read(
        &mut self,
        alloc: Global,
        screen: &Screen<PlaneCells>,
        code_page: CodePage,
        reading: Reading,
        arguments: &[Vec<u8>],
    ) -> Result<Outcome, AllocError>
        ensures { IfOk result (λ outcome. Says self.old self.new outcome
            (said_of_reading code_page screen.now reading
            (map (λ argument. argument.items) arguments.now))) }
    {
        let mut text = Vec::new(alloc);
        lines_law();
        let outcome = push_reading(&mut text, screen, code_page, reading, arguments)?;
        self.add(&text)?;
        Ok(outcome)
    }

    /// Adds what Snap reads of a screen that was kept.
    pub(crate) fn read_kept(
        &mut self,
        alloc: Global,
        kept: &KeptScreen,
        code_page: CodePage,
        asked: Kept,
        arguments: &[Vec<u8>],
    ) -> Result<Outcome, AllocError>
        ensures { IfOk result (λ outcome. Says self.old self.new outcome
            (said_of_kept code_page kept.now.screen (link_of_host kept.now.host kept.now.protocol [])
            kept.now.model asked (map (λ argument. argument.items) arguments.now))) }
    {
        let mut text = Vec::new(alloc);
        lines_law();
        let connection = kept.connection();
        let outcome = push_kept(
            &mut text,
            &kept.screen,
            connection,
            kept.model,
            code_page,
            asked,
            arguments,
        )?;
        self.add(&text)?;
        Ok(outcome)
    }

    /// Adds a fault of Snap.
    pub(crate) fn fail_snap(
        &mut self,
        alloc: Global,
        fault: SnapFault,
    ) -> Result<Outcome, AllocError>
        ensures { IfOk result (λ outcome. Says self.old self.new outcome
            (failed (codes "Snap(): " ++ snap_fault_words fault))) }
    {
        let mut text = Vec::new(alloc);
        let outcome = push_snap_fault(&mut text, fault)?;
        self.add(&text)?;
        Ok(outcome)
    }

    /// Adds what Query says.
    pub(crate) fn query(
        &mut self,
        alloc: Global,
        desk: &Desk,
        query: Query,
        arguments: &[Vec<u8>],
    ) -> Result<Outcome, AllocError>
        ensures { IfOk result (λ outcome. TellsQuery desk.now query
            (map (λ argument. argument.items) arguments.now) self.old self.new outcome) }
    {
        let mut text = Vec::new(alloc);
        let outcome = push_told(alloc, &mut text, desk, query, arguments)?;
        self.add(&text)?;
        Ok(outcome)
    }

    /// Adds what Check says of the screen and a layout.
    pub(crate) fn check(
        &mut self,
        alloc: Global,
        desk: &Desk,
        path: &[u8],
        layout: LayoutText<'_>,
    ) -> Result<Outcome, AllocError>
        ensures { IfOk result (λ outcome.
            Checks desk.now path.now (read_seen layout.entry) self.old self.new outcome) }
    {
        let mut text = Vec::new(alloc);
        let outcome = push_checked(alloc, &mut text, desk, path, layout)?;
        self.add(&text)?;
        Ok(outcome)
    }

    /// What is there.
    fn lines(&self) -> &[u8]
        ensures value { result.now ≡ self.now }
        ensures data { AreData self.now }
    {
        &self.lines
    }

    /// Begins anew.
    fn clear(&mut self)
        ensures { self.new ≡ [] }
    {
        self.lines.clear();
    }
}

/// Adds what Query says of a screen and a connection, at the beginning of a text. The device is named.
fn push_asked(
    alloc: Global,
    text: &mut Vec<u8>,
    screen: &Screen<PlaneCells>,
    connection: Option<Connection<'_>>,
    name: &[u8],
    query: Query,
    arguments: &[Vec<u8>],
) -> Result<Outcome, AllocError>
    requires begins { text.old.items ≡ [] }
    requires link { LinkIsWhole (link_seen connection) }
    requires name { is_whole name.now ≡ true }
    ensures data { OnOk result (AreData text.new.items) }
    ensures said { IfOk result (λ outcome. Says text.old.items text.new.items outcome
        (said_of_query screen.now (link_seen connection.entry)
        (record { name = name.now; version = codes "Takvorn 1.0.0" }) query
        (map (λ argument. argument.items) arguments.now))) }
{
    lines_law();
    let device = Device {
        name,
        version: b"Takvorn 1.0.0",
    };
    push_query(alloc, text, screen, connection, device, query, arguments)
}

/// Adds what Query says of a terminal, at the beginning of a text.
fn push_told(
    alloc: Global,
    text: &mut Vec<u8>,
    desk: &Desk,
    query: Query,
    arguments: &[Vec<u8>],
) -> Result<Outcome, AllocError>
    requires { text.old.items ≡ [] }
    ensures data { OnOk result (AreData text.new.items) }
    ensures told { IfOk result (λ outcome. TellsQuery desk.now query
        (map (λ argument. argument.items) arguments.now) text.old.items text.new.items outcome) }
{
    let lu_name = printed_name(alloc, desk.lu_name())?;
    let name = desk.device().name();
    let connection = desk.connection_of(&lu_name);
    push_asked(
        alloc,
        text,
        desk.screen(),
        connection,
        &name,
        query,
        arguments,
    )
}

/// Adds what Check says of the screen and a layout, at the beginning of a text.
fn push_checked(
    alloc: Global,
    text: &mut Vec<u8>,
    desk: &Desk,
    path: &[u8],
    layout: LayoutText<'_>,
) -> Result<Outcome, AllocError>
    requires { text.old.items ≡ [] }
    ensures data { OnOk result (AreData text.new.items) }
    ensures said { IfOk result (λ outcome.
        Checks desk.now path.now (read_seen layout.entry) text.old.items text.new.items outcome) }
{
    script_checks::lines_law();
    push_check(
        alloc,
        text,
        desk.turns(),
        desk.device().geometry(),
        path,
        layout,
    )
}

/// The answer of these data lines, with the status line of a terminal.
fn answer_of(
    alloc: Global,
    saying: &Saying,
    desk: &Desk,
    outcome: Outcome,
) -> Result<Vec<u8>, AllocError>
    ensures answer { IfOk result (λ text. IsAnswer outcome text.items) }
    ensures value { IfOk result (λ text. TellsAnswer desk.now saying.now outcome text.items) }
{
    let mut text = Vec::new(alloc);
    lines_law();
    text.extend_from_slice(saying.lines())?;
    push_status(&mut text, desk.screen(), desk.connection(), desk.model())?;
    text.extend_from_slice(last_line(outcome).as_bytes())?;
    Ok(text)
}

/// Answers that are whole. Contracts see how each ended, the text of those that were handed out, and of those that weren't.
#[derive(Drop)]
pub(crate) struct Answers {
    lines: Vec<u8>,
    outcomes: History<Outcome>,
    gone: History<u8>,
}

impl Model for Answers {
    ghost use Rattle.std.specs.Prelude.{◌++◌};
    ghost use Rattle.cli_scripts.specs.Answers.{AreAnswers, Telling};

    ghost Value = { Telling };

    ghost view = { λ a. record { outcomes = a.outcomes.items; gone = a.gone.items; lines = a.lines.items } };

    ghost invariant = { λ a. AreAnswers a.outcomes.items (a.gone.items ++ a.lines.items) };
}

/// Adds bytes to a history.
pub(crate) fn add_bytes(history: &mut History<u8>, bytes: &[u8])
    ensures { history.new.items ≡ history.old.items ++ bytes.now }
{
    'bytes: for byte in bytes {
        *history = history.and(byte);
    }
}

impl Answers {
    ghost use Rattle.std.specs.Prelude.{[], ◌∷◌};
    ghost use Rattle.cli_scripts.specs.Answers.{AreAnswers, handed_lines, nothing_told};
    ghost use Rattle.cli_scripts.specs.Says.{TellsNext};

    /// No answer yet.
    pub(crate) fn new(alloc: Global) -> Answers
        ensures { result ≡ nothing_told }
    {
        Answers {
            lines: Vec::new(alloc),
            outcomes: History::new(),
            gone: History::new(),
        }
    }

    /// Adds an answer that is whole.
    fn add(&mut self, text: &[u8], outcome: Outcome) -> Result<(), AllocError>
        requires { IsAnswer outcome text.now }
        ensures outcomes { OnOk result (self.new.outcomes ≡ self.old.outcomes ++ outcome ∷ []) }
        ensures gone { self.new.gone ≡ self.old.gone }
        ensures lines { OnOk result (self.new.lines ≡ self.old.lines ++ text.now) }
    {
        self.lines.extend_from_slice(text)?;
        self.outcomes = self.outcomes.and(&outcome);
        Ok(())
    }

    /// Adds the answer of these data lines, with the status line of a terminal, and takes them away.
    pub(crate) fn finish(
        &mut self,
        alloc: Global,
        saying: &mut Saying,
        desk: &Desk,
        outcome: Outcome,
    ) -> Result<(), AllocError>
        ensures outcomes { OnOk result (self.new.outcomes ≡ self.old.outcomes ++ outcome ∷ []) }
        ensures gone { self.new.gone ≡ self.old.gone }
        ensures tells { OnOk result (TellsNext desk.now saying.old outcome self.old self.new) }
        ensures none { OnOk result (saying.new ≡ []) }
    {
        let text = answer_of(alloc, saying, desk, outcome)?;
        self.add(&text, outcome)?;
        saying.clear();
        Ok(())
    }

    /// The answers that were not handed out.
    pub(crate) fn lines(&self) -> &[u8]
        ensures value { result.now ≡ self.now.lines }
        ensures answers { AreAnswers self.now.outcomes (self.now.gone ++ self.now.lines) }
    {
        &self.lines
    }

    /// Notes that they were handed out.
    pub(crate) fn hand_out(&mut self)
        ensures { self.new ≡ handed_lines self.old }
    {
        add_bytes(&mut self.gone, &self.lines);
        self.lines.clear();
    }
}
