//! Laws on what is done at the terminal of a script, on what is said, and on whole scripts. These functions do nothing: their contracts are the laws.

ghost use Rattle.cli_scripts.specs.DeedLaws.{DeedsAgree};
ghost use Rattle.cli_scripts.specs.RunLaws.{AnswersEach, RunsAgree, TurnsAgree, YesHolds};
ghost use Rattle.cli_scripts.specs.SayLaws.{SayingAgrees};

/// What goes to a host hangs on what is done at the terminal, and on the bytes that are heard: two terminals at which the same was done and heard
/// in a session, however the host's bytes were cut into reads, gave the same bytes, and their sessions stand alike, also where they failed. Whether
/// their screens are judged is nothing to either; nor is it to what is said of an action that neither presses keys nor waits.
pub fn deeds_law()
    ensures deeds { DeedsAgree }
    ensures saying { SayingAgrees }
{}

/// What a script leads to hangs on its lines and on what hosts, files and clocks gave: where the same came in turn, from one terminal, the lines to
/// the tool and the bytes to the hosts are the same, and the same is wanted next, also after sessions that failed. Each line has one answer. What an
/// action types is a run of keys, which keeps what `check` promises of the screen on a yes.
pub fn runs_law()
    ensures turns { TurnsAgree }
    ensures runs { RunsAgree }
    ensures answers { AnswersEach }
    ensures promise { YesHolds }
{}
