//! What the program says of its commands and of their arguments.

pub(crate) const LAYOUT_HELP: &str = "The file of the layout, in TOML";

pub(crate) const KEYS_HELP: &str = "The file of the keys, one a line";

pub(crate) const STATUSES: &str = "Statuses:
  0  done, or yes
  1  check, talk, suite, draft, serve or script --layouts has findings, or attach --expect isn't met
  2  bad input, or a fault of the command line
  3  a file, a read, a write, a connection or a session failed
  4  out of memory";

pub(crate) const SHOW: &str = "Input:
  Records in hexadecimal, one a line, on standard input. Spaces, empty lines and lines that begin with '#'
  are ignored. The first other line may be 'size RxC' or 'size RxC RxC': the default and the alternate size,
  24x80 without it. A last word '16' is for addresses of 16 bits.

Example:
  $ printf 'size 2x10\\nF5C21D60C11D40131140C61DF0\\n' | term3270 show
  screen 2x10 cursor 3 keyboard free aid 60
  field 0 attr 20 place 1 length 1
  field 2 attr 00 place 3 length 3
  field 6 attr 30 place 7 length 13
  |@A@...@...|
  |..........|

Forms:
  svg and html are a picture of the screen as a terminal shows it, json is one object, screen is the rows alone, as
  an operator sees them (docs/PICTURES.md). Text has the looks of its cells where standard output is a terminal and
  the environment doesn't say NO_COLOR.

  With --layout svg and html have the name of each field of the layout at its place, and a red frame at each
  finding of check, which tells its words. The sizes are the layout's.

  With --map the screen is that of a map, and svg and html have the names of its fields (docs/MAPS.md).

Statuses:
  0 done, 2 bad input, 3 a file can't be read, or a read or a write failed, 4 out of memory";

pub(crate) const CHECK: &str = "Input:
  The layout is a file in TOML (docs/LAYOUTS.md). Records are in hexadecimal, one a line, on standard input or
  in the file that --records names; the sizes are the layout's. Spaces, empty lines and lines that begin with
  '#' are ignored.

Example:
  $ term3270 check examples/signon.toml < examples/signon.hex
  yes

Forms:
  --explain prints under each finding where its field is on the screen, what it means, and what mends it.

  json is an object a line for each finding, with what its keys send, and one with the verdict; sarif is a log
  of SARIF 2.1.0, with the lines of the files at which findings stand (docs/FINDINGS.md). With --map they tell the
  map, the field, and the line and the column of its macro, and what to write (docs/MAPS.md).

Statuses:
  0 yes, 1 findings, 2 bad input, 3 a file can't be read, or a read or a write failed, 4 out of memory";

pub(crate) const TALK: &str = "Input:
  Each layout is a file in TOML (docs/LAYOUTS.md), of one turn, in order, and all are for one terminal. Records
  are in hexadecimal, one a line, on standard input, with a line 'turn' between two turns. Spaces, empty lines
  and lines that begin with '#' are ignored.

Output:
  'yes', or 'turn K', counted from 0, for the first turn with findings, and a line for each, as check prints
  them. After turn 0 the keys of a finding are 0 and 0.

Forms:
  --explain prints under each finding where its field is on the screen, what it means, and what mends it. json is an
  object a line for each finding, with its turn, and one with the verdict; sarif is a log of SARIF 2.1.0, whose messages
  begin with the turn (docs/FINDINGS.md).

Example:
  $ term3270 talk examples/signon.toml examples/menu.toml < examples/signon_menu.hex
  yes

Statuses:
  0 yes, 1 findings, 2 bad input, 3 a layout can't be read, or a read or a write failed, 4 out of memory";

pub(crate) const SUITE: &str = "Input:
  SUITE is a manifest in TOML, or a folder. A manifest names screens, each with its records and its layout, dialogues,
  sources of BMS maps, and findings that are accepted (docs/SUITE.md); its paths are relative to its folder. A folder
  stands for each NAME.hex with NAME.toml and each NAME.bms in it and below it.

Output:
  A line for each screen, NAME: yes, or its findings below NAME: N findings, as check, talk and check --map print
  them; then the accepted findings that come, and how many there are of each. A file that can't be read or is refused
  is told below NAME: refused, and the other screens are checked.

Forms:
  json is an object a line for each screen and one of the totals; junit is the XML that GitLab, Jenkins and GitHub's
  reporters read, a test case for each screen; sarif is one log of SARIF 2.1.0, a result for each finding at its line.

Example:
  $ term3270 suite examples/suite.toml
  signon: yes
  items: yes
  signon and menu: yes
  signon map: yes
  4 screens, 4 yes, 0 no, 0 findings, 0 accepted

Statuses:
  0 all yes, 1 findings, 2 bad input, 3 the manifest or the folder can't be read, or a write failed, 4 out of memory";

pub(crate) const PRESS: &str = "Input:
  Keys are one a line: 'type XX' (a code from 40 to FE), left, right, up, down, tab, backtab, newline, home,
  eraseeof, eraseinput, delete, reset, enter, clear, pf1 to pf24, pa1 to pa3. Records are in hexadecimal, one
  a line, on standard input, as for show. Empty lines and lines that begin with '#' are ignored.
  With --strokes lines are also 'string HELLO' (its characters, from the space to the tilde, typed one by one),
  'insert' (insert mode, until reset or a key that sends), 'dup' (the character 1C, and then Tab) and 'fieldmark' (1E).

Example:
  $ printf 'type C2\\nenter\\n' > keys
  $ printf 'size 2x10\\nF5C21D60C11D40131140C61DF0\\n' | term3270 press keys
  done 4
  sent 7D40C41140C3C2

Statuses:
  0 done, 2 bad input, 3 the keys can't be read, or a read or a write failed, 4 out of memory";

pub(crate) const CONVERT: &str = "Input:
  Records in hexadecimal, one a line, on standard input, as for show. With --back the lines that convert
  prints: a command, an order a line, an empty line.
  With --chars texts are characters between quotes, as 'TEXT 'USER' 00 'ID'' is USER, a null and ID. A quote stands
  twice; bytes that have none of the characters from the space to the tilde are digits. --back --chars reads both.

Example:
  $ printf 'F5C21D60C1\\n' | term3270 convert
  EW C2
  SF 20
  TEXT C1

  $ printf 'EW C2\\nSF 20\\nTEXT C1C2\\n' | term3270 convert --back
  F5C21D60C1C2

Statuses:
  0 done, 2 bad input, 3 a read or a write failed, 4 out of memory";

pub(crate) const DRAFT: &str = "Input:
  Records in hexadecimal, one a line, on standard input, as for show.

Output:
  A layout in TOML (docs/LAYOUTS.md), with a field for each that an operator can change or that is sent, named
  by the text before it; these records conform to it if they do to any. Or what no layout can mend, as check prints it.
  With --map the screen is that of a map: fields without a label are named too, as 'map --layout' doesn't.
  With --turns a line '# turn K' and a layout for each turn, whose screen the records up to it make; with --out
  a file turn-K.toml for each, and no file that is there already is overwritten.

Example:
  $ term3270 draft < examples/signon.hex > signon.toml

Statuses:
  0 done, 1 findings, 2 bad input, 3 a read or a write failed, 4 out of memory";

pub(crate) const BIND: &str = "Input:
  The layout is a file in TOML (docs/LAYOUTS.md). Answers of a terminal are in hexadecimal, one a line, on
  standard input; the sizes are the layout's. Spaces, empty lines and lines that begin with '#' are ignored.

Output:
  'answer K aid XX cursor N' for each answer, counted from 0 (no cursor for a short one), and 'NAME HEX' for
  each field that it has; or 'answer K refused at A' and the refusal, or 'answer K unbound' and the fault.
  With --turns a line 'turn K' before the answers of each turn, which are bound by its layout.

Example:
  $ printf '7DC4C811C4C3E4E2C5D9F1\\n' | term3270 bind examples/signon.toml --text
  answer 0 aid 7D cursor 264
  userid USER1

Statuses:
  0 done, 2 bad input, or an answer is refused or unbound, 3 the layout can't be read, or a read or a write
  failed, 4 out of memory";

pub(crate) const MAP: &str = "Input:
  The source of BMS maps: DFHMSD, DFHMDI and DFHMDF as an assembler reads them (docs/MAPS.md).

Output:
  For each map a comment with its name, the line of its DFHMDI and its screen, and the record that SEND MAP
  MAPONLY ERASE sends, in hexadecimal, as show, press and check take it. With --layout the layout of the one map:
  what the symbolic map says that the program reads.

Example:
  $ term3270 map examples/signon.bms | term3270 show
  screen 24x80 cursor 259 keyboard free aid 60
  ..

Statuses:
  0 done, 2 the source is refused, 3 the file can't be read, or a write failed, 4 out of memory";

pub(crate) const FREEKB_HELP: &str =
    "SEND MAP says FREEKB: the keyboard is freed, whatever CTRL says";

pub(crate) const FRSET_HELP: &str =
    "SEND MAP says FRSET: modified data tags are reset, whatever CTRL says";

pub(crate) const WITH_FREEKB_HELP: &str =
    "With --map: SEND MAP says FREEKB: the keyboard is freed, whatever CTRL says";

pub(crate) const WITH_FRSET_HELP: &str =
    "With --map: SEND MAP says FRSET: modified data tags are reset, whatever CTRL says";

pub(crate) const EXPLAIN_HELP: &str =
    "Print under each finding where its field is, what it means, and what mends it";

pub(crate) const RECORDS: &str = "Input:
  A trace of x3270, s3270 or c3270 (-trace -tracefile FILE), or with --from stream pieces of what one side
  sent, in hexadecimal, one a line, on standard input. Other lines of a trace are passed over. With --from buffer
  what s3270 answers to ReadBuffer(Ebcdic).

Output:
  A comment and a line of hexadecimal for each record, as the other commands read them; a comment alone for a
  record that isn't of 3270 data, and for structured fields, with their names. With --turns the dialogue of a
  trace, for talk: 'term3270 records --turns < FILE | term3270 talk signon.toml menu.toml'.

Example:
  $ printf '< 0x0   f5c21d60c1ffef\\n' | term3270 records
  # record 0 at line 1
  F5C21D60C1

Statuses:
  0 done, 2 bad input, 3 a read or a write failed, 4 out of memory";

pub(crate) const SERVE: &str = "Input:
  A layout and records as for check. They are checked first, and a model must have the layout's sizes. With
  --turns the manifest of an application of several screens, with --any records of which nothing is checked.

Output:
  'terminal K aid XX' for each terminal, counted from 1, and 'NAME HEX' for each field that it sent; or
  'terminal K fault' and the fault's number (docs/SESSIONS.md). With --turns 'terminal K screen NAME aid XX'.

Example:
  $ term3270 serve examples/signon.toml --port 3270 --count 1 < examples/signon.hex

Statuses:
  0 done, 1 findings, 2 bad input, 3 the layout can't be read, the port can't be bound, or a session, a read
  or a write failed, 4 out of memory";

pub(crate) const ATTACH: &str = "Input:
  Keys are a file, one a line, as for press, with --strokes those of press --strokes. They are pressed as soon
  as the keyboard is free.

Output:
  'answers A passed B refused C end E': what the terminal sent, the records that it ignored and refused, and
  keys or closed; or 'fault' and the fault's number (docs/SESSIONS.md). With --tolerant 'ignored D inhibited F'
  stand before 'end': what came before the session was ready, and keys that couldn't act.

Example:
  $ term3270 attach localhost keys --port 3270

Statuses:
  0 done, 1 fewer answers than --expect says, 2 bad input, 3 the keys can't be read, the host can't be
  reached, or the session, a read or a write failed, 4 out of memory";

pub(crate) const SCRIPT: &str = "Input:
  Actions are lines on standard input, one action or more a line, as s3270 takes them (docs/SCRIPT.md).

Output:
  for each line its data lines, a status line, and 'ok' or 'error'.

Report:
  With --layouts each screen on which Enter, a PF or a PA key sends is judged before it does, as check and talk do, by
  the layout of the folder that it matches: its size, and a field at each entry. The report has a line for each screen,
  'screen K NAME.toml yes', 'screen K NAME.toml no' and its findings, or 'screen K none'; json is an object a line,
  junit the XML that GitLab, Jenkins and GitHub's reporters read.

Example:
  $ printf 'Connect(localhost:3270)\nString(ANNA)\nAscii(3,19,8)\n' | term3270 script

Statuses:
  0 done, 1 a screen had findings, 2 a fault of the command line, or a layout is refused, 3 a layout can't be read, or a read
  or a write failed, 4 out of memory";

pub(crate) const TAP: &str = "Output:
  '# terminal K connected' and '# terminal K ended'; between them what 'records --turns' prints of the host's
  side, with K in place of a line of a trace, and each record of the terminal as '# answer HEX'. Other commands
  read it: talk, show, draft, convert. With --layouts after each answer '# screen NAME: yes' of NAME.toml or its
  findings, and '# NAME TEXT' for each field of the answer; '# screen unknown' where no layout matches.

Example:
  $ term3270 tap mainframe --port 23 --listen-port 3271 --count 1 > session.hex

Statuses:
  0 done, 2 a fault of the command line, or a layout is refused, 3 a port or a host can't be had, a layout can't be read, or a
  write failed, 4 out of memory";
