//! The commands, arguments and options of the program, and what help says of them.
ghost use Rattle.std.specs.Prelude.{◌≡◌, IfOk, Some, false};
ghost use Rattle.clap.specs.Words.{App, app_of, rule_of, with_subcommand};
ghost use Rattle.clap.specs.declared.builder.texts.Texts.TheVariants.{One};
ghost use Rattle.alog_program.specs.CommandLine.{StandsFor, alog_app, argument_of, check_app, flag_of, format_app, load_app, needed_option_of, option_of, origin_options, pipe_app, replay_app, with_rules};

use clap::{Arg, ArgAction, Command};
use std::alloc::{AllocError, Global};

/// The program's command line.
pub(crate) fn alog<'a>(alloc: Global) -> Result<Command<'a>, AllocError>
    ensures { IfOk result (λ command. app_of command ≡ alog_app) }
{
    let command = Command::new(alloc, "alog")
        .version("0.1.0")
        .about("The back end of an asynchronous logger, step by step")
        .subcommand_required(true);
    let command = with(command, replay(alloc))?;
    let command = with(command, format(alloc))?;
    let command = with(command, check(alloc))?;
    let command = with(command, load(alloc))?;
    with(command, pipe(alloc))
}

/// The command with this one below it, if this one could be made.
fn with<'a>(
    command: Command<'a>,
    below: Result<Command<'a>, AllocError>,
) -> Result<Command<'a>, AllocError>
    ensures { (app own : App) → StandsFor command.entry app → IfOk below.entry (λ b. StandsFor b own)
        → IfOk result (λ with. StandsFor with (with_subcommand app own.top)) }
{
    command.subcommand(below?)
}

/// The command `alog replay`.
fn replay<'a>(alloc: Global) -> Result<Command<'a>, AllocError>
    ensures { IfOk result (λ command. StandsFor command replay_app) }
{
    Command::new(alloc, "replay")
        .about("Replay a schedule script from standard input")
        .long_about(REPLAY_HELP)
        .arg(option(alloc, "config", "FILE", CONFIG_HELP))
}

/// The command `alog format`. Help lists its options in the order in which they are added.
fn format<'a>(alloc: Global) -> Result<Command<'a>, AllocError>
    ensures { IfOk result (λ command. StandsFor command format_app) }
{
    let command = Command::new(alloc, "format")
        .about("Print the line of a message by a pattern")
        .long_about(FORMAT_HELP)
        .arg(argument(alloc, "PATTERN", "The pattern of the line"))?
        .arg(argument(alloc, "TEXT", "The text of the message"))?
        .arg(option(alloc, "time", "N", TIME_HELP))?
        .arg(option(alloc, "offset", "N", OFFSET_HELP))?
        .arg(option(alloc, "zone", "RULE", ZONE_HELP))?
        .arg(option(alloc, "name", "N", "The name of the logger [none]"))?;
    with_origin(alloc, command)
}

/// The command with the options of `alog format` that say what a message is of.
fn with_origin<'a>(alloc: Global, command: Command<'a>) -> Result<Command<'a>, AllocError>
    ensures { (app : App) → StandsFor command.entry app
        → IfOk result (λ with. StandsFor with (with_rules app origin_options)) }
{
    command
        .arg(option(alloc, "level", "L", LEVEL_HELP))?
        .arg(option(alloc, "thread", "N", "The number of the thread [0]"))?
        .arg(option(alloc, "process", "N", "The number of the process [0]"))?
        .arg(option(alloc, "file", "F", "The file of the source"))?
        .arg(option(alloc, "line", "N", LINE_HELP))?
        .arg(option(alloc, "function", "F", "The function of the source"))?
        .arg(option(alloc, "previous", "N", PREVIOUS_HELP))
}

/// The command `alog check`.
fn check<'a>(alloc: Global) -> Result<Command<'a>, AllocError>
    ensures { IfOk result (λ command. StandsFor command check_app) }
{
    Command::new(alloc, "check")
        .about("Say whether a file has a configuration, or what is wrong with it")
        .long_about(CHECK_HELP)
        .arg(argument(alloc, "FILE", "The configuration, in TOML"))
}

/// The command `alog load`.
fn load<'a>(alloc: Global) -> Result<Command<'a>, AllocError>
    ensures { IfOk result (λ command. StandsFor command load_app) }
{
    Command::new(alloc, "load")
        .about("Log from several threads at once, and print what became of it")
        .long_about(LOAD_HELP)
        .arg(argument(alloc, "CONFIG", "The configuration, in TOML"))?
        .arg(option(alloc, "producers", "N", PRODUCERS_HELP))?
        .arg(option(alloc, "messages", "N", MESSAGES_HELP))?
        .arg(option(alloc, "folder", "DIR", FOLDER_HELP))
}

/// The command `alog pipe`.
fn pipe<'a>(alloc: Global) -> Result<Command<'a>, AllocError>
    ensures { IfOk result (λ command. StandsFor command pipe_app) }
{
    Command::new(alloc, "pipe")
        .about("Log each line of standard input")
        .long_about(PIPE_HELP)
        .arg(argument(alloc, "CONFIG", "The configuration, in TOML"))?
        .arg(needed_option(alloc, "folder", "DIR", PIPE_FOLDER_HELP))?
        .arg(option(alloc, "logger", "NAME", LOGGER_HELP))?
        .arg(option(alloc, "level", "L", LEVEL_HELP))?
        .arg(flag(alloc, "totals", TOTALS_HELP))
}

/// An argument that is needed.
fn argument<'a>(alloc: Global, name: &'a str, help: &'a str) -> Arg<'a>
    ensures rule { rule_of result ≡ argument_of name.entry.now }
    ensures global { result.global ≡ false }
    ensures help { result.help ≡ Some help.entry }
{
    Arg::new(alloc, name).required(true).help(help)
}

/// An option with a value.
fn option<'a>(alloc: Global, name: &'a str, value: &'a str, help: &'a str) -> Arg<'a>
    ensures rule { rule_of result ≡ option_of name.entry.now }
    ensures global { result.global ≡ false }
    ensures value { result.val_names ≡ One value.entry }
    ensures help { result.help ≡ Some help.entry }
{
    Arg::new(alloc, name)
        .long(name)
        .value_name(value)
        .help(help)
}

/// An option with a value that is needed.
fn needed_option<'a>(alloc: Global, name: &'a str, value: &'a str, help: &'a str) -> Arg<'a>
    ensures rule { rule_of result ≡ needed_option_of name.entry.now }
    ensures global { result.global ≡ false }
    ensures value { result.val_names ≡ One value.entry }
    ensures help { result.help ≡ Some help.entry }
{
    option(alloc, name, value, help).required(true)
}

/// An option without a value.
fn flag<'a>(alloc: Global, name: &'a str, help: &'a str) -> Arg<'a>
    ensures rule { rule_of result ≡ flag_of name.entry.now }
    ensures global { result.global ≡ false }
    ensures help { result.help ≡ Some help.entry }
{
    Arg::new(alloc, name)
        .long(name)
        .action(ArgAction::SetTrue)
        .help(help)
}

const TIME_HELP: &str = "Nanoseconds since 1970 UTC; where negative, as --time=N [0]";

const OFFSET_HELP: &str = "Minutes east of UTC, -1439 to 1439; where negative, as --offset=N [0]";

const ZONE_HELP: &str =
    "The POSIX rule of the zone, as CET-1CEST,M3.5.0,M10.5.0/3, in place of --offset [none]";

const LEVEL_HELP: &str = "trace, debug, info, warning, error, critical or off [info]";

const LINE_HELP: &str = "The line of the source, which --line alone does not make [0]";

const PREVIOUS_HELP: &str = "The time of the message before, as --time has it [none]";

const CONFIG_HELP: &str =
    "The configuration, in TOML, whose loggers and sinks the script drives [none]";

const REPLAY_HELP: &str =
    "Replay a schedule script from standard input, and print what each step does.

A script is text, a command a line; empty lines and lines that begin with # are passed over. A is
an actor, 0 to 63; TEXT is the rest of the line. In each script may stand:

  work A                        begins a pop; what it takes goes to the sinks, a turn a step
  step A [K]                    K atomic steps, 1 to 512
  run A                         steps until the actor's call has ended, at most 512
  cells                         prints the cells of the queue in ticket order
  counts                        prints the losses: items that were overrun, and discarded

Without --config there is one sink, the memory file, and besides these stand:

  ring N FIRST                  first: a queue of N places, a power of two from 2 to 65536, and its
                                first ticket
  push A TEXT                   begins a push of the text
  pop A                         begins a pop
  post A POLICY TEXT            begins a post by block, overrun_oldest or discard_new

With --config the queue, the loggers and the sinks are those of the configuration in FILE, of which
`alog check --help` has the keys; all files are kept in memory. In place of these four stand:

  log A TIME LOGGER LEVEL TEXT  begins a log, at nanoseconds since 1970 UTC
  flush A LOGGER                begins a flush of the logger's sinks
  dump A TIME LOGGER            begins a dump of the logger's backtrace
  level LOGGER LEVEL            sets the logger's level at once

At the end the files of the sinks are printed. A line that may not stand where it stands is refused
with its number, after what was printed before it.

Exit status: 0 done, 1 a wrong command line, 2 a refused line or configuration, 3 a file that
cannot be read, a read fault or a write fault, 4 no memory. A fault prints `alog: refused N` on
standard error: 1 no memory, 33 a refused line (with ` at line K` behind it), 34 a read fault, 35 a
write fault. Of a file that is no configuration it says what `alog check` says, and the script is
not read.";

const FORMAT_HELP: &str =
    "Print the line of a message by a pattern, after spdlog's custom formatting.

PATTERN has at most 256 bytes, TEXT 2048, --name 64, --file 256 and --function 128. Negative numbers
are written with `=`: --time=N, --offset=N, --previous=N. A source is made by --file or --function;
--line alone makes none.

Flags of a pattern:

  %v text           %t thread         %P process        %n name of the logger
  %l level          %L its letter     %% a percent sign %+ the default format
  %a %A weekday     %b %B month       %d %m day, month  %C %Y year, two or four digits
  %D %x MM/DD/YY    %H %I hour        %M minute         %S second
  %e milliseconds   %f microseconds   %F nanoseconds    %p AM or PM
  %r 03:35:46 PM    %R HH:MM          %T %X HH:MM:SS    %c Sat Feb 3 15:35:46 2024
  %z offset +02:00  %E epoch seconds  %@ file:line      %s %g file, its last part or whole
  %# line           %! function       %^ %$ nothing

Since the message before, rounded down, and 0 without one or where time went back:

  %u nanoseconds    %i microseconds   %o milliseconds   %O seconds

Between % and the flag may stand a side (- left, = centre, else right), a width of at most 64, and
behind the width a ! that cuts what is longer: %8l, %-8l, %=8l, %3!l.

Exit status: 0 done, 1 a wrong command line, 2 refused input, 3 a write fault, 4 no memory. A fault
prints `alog: refused N` on standard error: 1 no memory, 2 a text that is too long, 3 a name, file or
function that is, 17 a pattern that is, 18 a pattern whose line may have more than 65536 bytes,
35 a write fault.";

const CHECK_HELP: &str = "Say whether a file has a configuration: `ok`, or what is wrong with it.

A configuration is a document in TOML. Its tables, keys, values and defaults:

  top        queue (a power of two from 2 to 65536) [8192], workers (1 to 64) [1], text (64 to 8192) [2048],
             offset (minutes, -1439 to 1439) [0], or in its place zone (a POSIX rule of 1 to 64 bytes, as
             CET-1CEST,M3.5.0,M10.5.0/3), process (0 to 4294967295) [0], retry (0 to 1000000) [of a pipe
             without end, else 0]
  [[sink]]   name, kind (memory, rotating, daily, fan), level [trace]
    no fan   pattern [%+], file [for memory the name of the sink]
    rotating max_size (1 to 1099511627776), max_files (0 to 1000)
    daily    hour [0], minute [0], max_files (0 to 1000) [0]
    fan      of (1 to 16 names of earlier sinks)
  [[logger]] name, level [info], policy (block, overrun_oldest, discard_new) [block], sinks (1 to 16 names),
             flush_on (a level) [off], backtrace (0 to 4096) [0]

Exit status: 0 ok, 1 a wrong command line, 2 a refused configuration, 3 a file that cannot be read or a
write fault, 4 no memory. A fault prints `alog: refused N` on standard error: 1 no memory, 24 a name that
is taken, 28 no TOML, 29 an unknown key, 30 a bad value, 31 a missing key, 32 an unknown sink, 35 a write
fault; behind 24 and 29 to 32 stands ` in top`, ` in sink I` or ` in logger I`, with I from 0, and a second
line says what is wrong.";

const PRODUCERS_HELP: &str = "How many producers, 1 to 64 [1]";

const MESSAGES_HELP: &str = "How many messages each producer logs, 0 to 1000000 [100]";

const FOLDER_HELP: &str = "The folder for the files of the sinks [kept in memory]";

const LOAD_HELP: &str = "Log from several threads at once, and print what became of it.

CONFIG is a configuration, of which `alog check --help` has the keys. Its workers have threads of their
own, and so has each producer. The producers are numbered from 0, and go round among the loggers: producer
P logs to the logger whose number is P modulo how many there are. Its messages are numbered from 0 too:
message I has the text `P I`, the level info, and the time I in nanoseconds since 1970 UTC. When all are
logged, the workers handle what is left in the queue, and the files are brought to where they are kept.

Five lines are printed, each number modulo 2^64. They count texts; the flushes that come of
flush_on, and a message below its logger's level, are not counted:

  asked N                       posted or discarded
  posted N                      put into the queue: overrun or handled
  discarded N                   refused, since the queue was full
  overrun N                     taken out of the queue by a post, to make room
  handled N                     taken out of the queue by a worker, and given to the sinks

Without --folder the files of the sinks are kept in memory. With it they are files of the folder DIR, which
has to be there, and is held by one load, pipe or server at a time; lines are written behind what a file has.

Exit status: 0 done, 1 a wrong command line, or a number of producers or messages that is out of its bounds,
2 a refused configuration, 3 a file that cannot be read, a folder that takes no files or is held by another,
a store that failed or a write fault, 4 no memory.
A fault prints `alog: refused N` on standard error: 1 no memory, 20 a number that is out of its bounds, 22 a
store that failed, 35 a write fault. Where a store failed in the course of the load, 22 stands behind the
five lines. Of a file that is no configuration it says what `alog check` says, and there is no load.";

const PIPE_FOLDER_HELP: &str = "The folder for the files of the sinks";

const LOGGER_HELP: &str = "The name of the logger [the first]";

const TOTALS_HELP: &str = "Print the totals on standard output, and not on standard error";

const PIPE_HELP: &str = "Log each line of standard input, up to its end.

CONFIG is a configuration, of which `alog check --help` has the keys. Each line is logged to the logger, at the
level and at the time of the read that brought its end; the last line may lack its newline. What is not UTF-8
becomes U+FFFD, and a line that is longer than the text limit goes in pieces, cut before a character that does
not fit. Lines are in the files as soon as nothing is left to write.

Under the policy block a line waits for room in the queue. Under the others none waits: where lines are refused,
the log has a line at level warning in their place, as soon as there is room and before the next line:
`N lines are missing here`. Where overrun_oldest takes lines out of the queue, such a line says so in front of
the next one that is there. One worker writes, whatever `workers` says, so lines stand in the order they came in.

The files of the sinks are files of the folder DIR, which has to be there, and is held by one pipe, load or
server at a time; lines are written behind what a file has. A call on a file that fails, as where the disk is
full, is tried again, without end or as often as the key `retry` says, and standard error says so; a name that
the system refuses is not. To let a service end, close its output: with `trap '' INT TERM` before it a pipe goes
on to the end of its input.

At the end it prints, on standard error:

  lines N                       read
  bytes N                       of their texts
  mended N                      U+FFFD for what is not UTF-8
  cut N                         cuts of lines that were too long
  missing N                     lines or pieces that were refused, or had no memory for a copy

and behind them the five totals that `alog load --help` has. Here they count the lines that say what is missing,
too. A line below the logger's level counts in the first four numbers alone.

Exit status: 0 all was read, no store failed and the files were flushed, whatever the policy lost, 1 a wrong
command line or a logger that is not there, 2 a refused configuration, 3 a file that cannot be read, a folder
that takes no files or is held by another, a read fault, a store that failed or a write fault, 4 no memory.";
