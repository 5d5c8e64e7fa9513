//! Laws on runs over a line. These functions do nothing: their contracts are the laws.

ghost use Rattle.tn_session.specs.TerminalLog.{TerminalRunning};
ghost use Rattle.tn_session.specs.HostLog.{HostRunning};
ghost use Rattle.tn_session.specs.OneLog.{HaveOneLog, LogsGoOn};
ghost use Rattle.tn_session.specs.Pieces.{PiecesHaveLog, CutsAgree};
ghost use Rattle.tn_session.specs.Acts.{WorkAgrees, RunsAreWorked};
ghost use Rattle.tn_session.specs.KeyStrokes.{StrokesAreKeys, RunsOfKeysAgree};
ghost use Rattle.tn_session.specs.declared.terminal_state.TerminalState.{TerminalState};
ghost use Rattle.tn_session.specs.Outcomes.{AnswersFinish, AnswersEndLogs, OutcomesAreTouched};

/// The bytes that a stream makes due, and how a run then stands, hang on the stream alone and on no cut of it. Whatever an
/// event does to a state, bytes have one log at most, with one state in which it failed, if it did; and the log of a front
/// of them is followed by the log of the whole: one that goes on by the log of the other bytes, and one that ended by
/// nothing. So it is with a terminal's run, and with a host's.
pub fn one_log<S>()
    ensures one { HaveOneLog S }
    ensures front { LogsGoOn S }
    ensures terminal { HaveOneLog TerminalRunning × LogsGoOn TerminalRunning }
    ensures host { HaveOneLog HostRunning × LogsGoOn HostRunning }
{}

/// How what a session hears is cut into calls doesn't matter. After any calls of `take`, from the beginning of a stream and
/// with whatever pieces, all bytes that were given are due by the log of the whole, and so the session stands, where memory
/// was not refused: two sessions that were given the same bytes agree, also where they failed. So it is of a host's session,
/// and of a terminal's.
pub fn pieces_law<S>()
    ensures log { PiecesHaveLog S }
    ensures cuts { CutsAgree S }
    ensures host { CutsAgree HostRunning }
    ensures terminal { CutsAgree TerminalState }
{}

/// A terminal that somebody works. Two terminals that are told the same from the beginning of a session, keys or strokes and
/// between two of them the same bytes, cut in any two ways, give the same bytes and stand alike: they show the same picture,
/// and are both in insert mode or neither is, also after they failed. And what a run over a line does with its list of keys
/// or strokes is what a terminal does that is worked so: it hears the run's events, and is pressed the run's keys, or struck
/// its strokes, in turn.
pub fn work_law()
    ensures agrees { WorkAgrees }
    ensures runs { RunsAreWorked }
{}

/// Without insert mode a stroke that is a key does what the key does, in a terminal that somebody works; and a run over a line
/// whose strokes are keys goes as the run that presses them: the same bytes are due, and it stands and ends alike.
pub fn key_law()
    ensures worked { StrokesAreKeys }
    ensures runs { RunsOfKeysAgree }
{}

/// What comes of a host's run at a checked screen. Where `check` says yes, and the operator's keys, of which none sends, are
/// followed by Enter or a PF key on a free keyboard, the host that reads what the terminal sends is done: its outcome has
/// that key, and for each field that the keys touched, in rising position, and for no other, its entry and its characters.
pub fn outcome_law()
    ensures finishes { AnswersFinish }
    ensures log { AnswersEndLogs }
    ensures outcome { OutcomesAreTouched }
{}
