//! `draft --turns --out`: a file for each turn.

use crate::commands::output;
use crate::reasons::{HeardInput, heard_input, told};
use cli_commands::{Answer, CommandError, Status, finish, read_text};
use cli_reasons::Lines;
use cli_turns::each_draft;
use std::fs::File;
use std::io;
use std::io::Write;

/// Writes a new file. One that is there already is left as it is.
fn write_new(rt: &HostRuntime, path: &str, text: &str) -> io::Result<()> {
    let mut file = File::create_new(rt, path)?;
    file.write_all(text.as_bytes())?;
    file.flush()
}

/// Writes the layout of a turn, or adds what no layout can mend to what is printed.
fn write_turn(
    rt: &HostRuntime,
    folder: &str,
    turn: usize,
    draft: &Answer,
    told: &mut String,
) -> Result<(), CommandError> {
    let text = draft.text.as_str();
    if !matches!(draft.status, Status::Done) {
        write!(told, "# turn {turn}\n{text}")?;
        return Ok(());
    }
    let path = format!(in rt.alloc(); "{folder}/turn-{turn}.toml")?;
    if let Err(error) = write_new(rt, path.as_str(), text) {
        let _ = eprintln!(rt; "term3270: {path}: {error}");
        return Err(CommandError::from(error));
    }
    Ok(())
}

/// What is printed once the layouts are written: of each turn that has none, what no layout can mend.
fn written(
    rt: &HostRuntime,
    folder: &str,
    records: &mut HeardInput<'_>,
) -> Result<Answer, CommandError> {
    let text = read_text(rt.alloc(), records)?;
    let drafts = each_draft(rt.alloc(), text.as_slice())?;
    let mut answer = Answer {
        text: String::new(rt.alloc()),
        status: Status::Done,
    };
    for (turn, draft) in drafts.as_slice().iter().enumerate() {
        write_turn(rt, folder, turn, draft, &mut answer.text)?;
        if matches!(answer.status, Status::Done) {
            answer.status = draft.status;
        }
    }
    Ok(answer)
}

/// `draft` of each turn, into files of a folder.
pub(crate) fn draft_files(rt: &HostRuntime, folder: &str) -> Status {
    let mut records = heard_input(rt, Lines::SizedTurns);
    let answer = written(rt, folder, &mut records);
    let status = finish(rt.alloc(), &mut output(rt), answer);
    told(rt, status, &mut records)
}
