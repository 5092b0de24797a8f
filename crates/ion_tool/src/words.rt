//! The words of the command line.
ghost use Rattle.std.specs.Prelude.{◌≡◌, ◌≢◌, ◌≤◌, false, true, IfOk, IfSome, OnErr, None, List, [], Some, codes, map, option_map, string_bytes};
ghost use Rattle.clap.specs.Words.{Row, app_of, first_of, found_of, kind_of, rows_of, rule_of, fault_of, FailsBy, new_app, subcommand_of, subcommand_rows_of, with_rule, with_subcommand};
ghost use Rattle.clap.specs.declared.builder.command.Command.TheViews.{out-Command};
ghost use Rattle.ion_meter.specs.Limits.{AreChecked};
ghost use Rattle.ion_tool.specs.Words.{action_app, with_limits, action_name, all_named, bare_app, catalog_in, catalog_rule, file_for, files_in, files_rule, form_in, has_one_form, form_rule, form_word, ion_app, limit_in, limit_rule, limits_in, lines_in, lines_rule, floats_rule, is_pretty, is_rewritten, is_set, pretty_in, pretty_rule, profile_in, rewrite_in, rewrite_rule, Asks, AnswersError, IsRequestFor};
ghost use Rattle.ion_tool.specs.Words.{go_together, reads_input_once};

use crate::lines::escape;
use clap::builder::ValueParser;
use clap::error::ErrorKind;
use clap::{Arg, ArgAction, ArgMatches, Command, Error};
use ion_meter::limits::Limits;
use ion_meter::profile::Profile;
use ion_transcode::to::Form;
use std::alloc::{AllocError, Global};

/// What is done with the stream.
#[derive(Clone, Copy, Debug, PartialEq, Eq)]
pub enum Action {
    /// Its canonical text is written.
    Show,
    /// Its text for people is written, each member of a container on a line of its own.
    ShowPretty,
    /// It is read, and the number of its values is written.
    Check,
    /// It is written in this form, or where none is named in the other one: text as binary, and
    /// binary as text.
    Convert(Option<Form>),
    /// It is written in the form that is named, text, as text for people.
    ConvertPretty,
    /// It is written in the form that is named, binary, also where it is binary.
    Rewrite,
}

/// What is done with the stream, which values of Ion it may have, and what is said of its fault.
#[derive(Clone, Copy, Debug, PartialEq, Eq)]
pub struct Task {
    pub action: Action,
    pub profile: Profile,
    /// Whether the line on a refusal says the line and the column too, if the stream is text.
    pub lines: bool,
}

/// One run of the program.
#[derive(Debug, Drop)]
pub struct Job {
    pub task: Task,
    pub limits: Limits,
    /// The words for the files that are read. Without one it is standard input.
    pub files: Vec<String>,
}

/// What the words ask for.
#[derive(Debug, Drop)]
pub enum Request {
    /// A run, with the catalogue of shared tables in the file of this name, if there is one.
    Run(Option<String>, Job),
    /// This text, on standard output.
    Help(String),
    /// Nothing that there is: this text, for standard error, says why.
    Usage(String),
}

/// A run as `clap` has read it.
#[derive(Clone, Copy)]
struct Asked<'m, 'a> {
    task: Task,
    limits: Limits,
    catalog: Option<&'a str>,
    files: Option<&'m [&'a str]>,
}

const ABOUT: &str = "Shows, checks and converts Amazon Ion 1.0, a data format like JSON with more
types and a binary form. A stream that begins with the byte E0 is binary.

Memory stays small and bounded. A stream that is not valid, passes a limit or,
without --floats, has a float is refused: standard error then says why, and at
which byte offset. JSON is read too; its numbers with an exponent, as 1e3, are
floats.";

/// How the program is called, which `clap` also says of wrong words.
const USAGE: &str = "ion <show|check|convert> [OPTIONS] [FILE]...
       as in: ion show data.ion";

/// What stands in an error of `clap` before how the program is called.
const BEFORE_USAGE: &str = "\n\nUsage: ";

const AFTER: &str = "Without a command and arguments, ion shows standard input.

Exit status:
  0  the stream is accepted
  1  it is refused, or the catalogue is
  2  the command line is not understood
  3  memory ran out, or reading or writing failed

Examples:
  ion show data.ion
  ion check < data.10n
  ion convert data.ion > data.10n
  ion convert --to text data.10n > data.ion
  ion show --catalog tables.ion data.10n";

/// An option `--NAME N`, where N is at most this number. Help lists it unless it is hidden.
fn limit_arg<'a>(alloc: Global, name: &'a str, most: u64, help: &'a str, is_hidden: bool) -> Arg<'a>
    ensures rule { rule_of result ≡ limit_rule name.entry.now most }
    ensures own { result.global ≡ false }
{
    Arg::new(alloc, name)
        .long(name)
        .value_name("N")
        .value_parser(ValueParser::unsigned(0, most))
        .help(help)
        .hide(is_hidden)
}

/// The option `--to FORM`. Which words name a form is seen later.
fn form_arg<'a>(alloc: Global) -> Arg<'a>
    ensures rule { rule_of result ≡ form_rule }
    ensures own { result.global ≡ false }
{
    Arg::new(alloc, "to")
        .long("to")
        .value_name("FORM")
        .help("Form to write, text or binary [default: the other one]")
}

/// The option `--pretty`.
fn pretty_arg<'a>(alloc: Global) -> Arg<'a>
    ensures rule { rule_of result ≡ pretty_rule }
    ensures own { result.global ≡ false }
{
    Arg::new(alloc, "pretty")
        .long("pretty")
        .action(ArgAction::SetTrue)
        .help("Write each member on its own line; convert needs --to text")
}

/// The option `--rewrite`.
fn rewrite_arg<'a>(alloc: Global) -> Arg<'a>
    ensures rule { rule_of result ≡ rewrite_rule }
    ensures own { result.global ≡ false }
{
    Arg::new(alloc, "rewrite")
        .long("rewrite")
        .action(ArgAction::SetTrue)
        .help("Write binary also of a binary stream; needs --to binary")
}

/// The option `--catalog FILE`.
fn catalog_arg<'a>(alloc: Global) -> Arg<'a>
    ensures rule { rule_of result ≡ catalog_rule }
    ensures own { result.global ≡ false }
{
    Arg::new(alloc, "catalog")
        .long("catalog")
        .value_name("FILE")
        .help("File of shared symbol tables, in either form, without floats")
}

/// The option `--floats`.
fn floats_arg<'a>(alloc: Global) -> Arg<'a>
    ensures rule { rule_of result ≡ floats_rule }
    ensures own { result.global ≡ false }
{
    Arg::new(alloc, "floats")
        .long("floats")
        .action(ArgAction::SetTrue)
        .help("Accept floats, as 1.5e0, which are refused without it")
}

/// The option `--lines`.
fn lines_arg<'a>(alloc: Global) -> Arg<'a>
    ensures rule { rule_of result ≡ lines_rule }
    ensures own { result.global ≡ false }
{
    Arg::new(alloc, "lines")
        .long("lines")
        .action(ArgAction::SetTrue)
        .help("Say also the line and column where text is refused")
}

/// The argument FILE, which may be there more than once.
fn files_arg<'a>(alloc: Global) -> Arg<'a>
    ensures rule { rule_of result ≡ files_rule }
    ensures own { result.global ≡ false }
{
    Arg::new(alloc, "FILE")
        .action(ArgAction::Append)
        .help("Files to read; none, or - once, is standard input")
}

/// A command with the options for the limits. The one for values in binary is taken by each, but
/// listed only in the help of the one that writes binary.
fn with_limits<'a>(
    alloc: Global,
    command: Command<'a>,
    writes_binary: bool,
) -> Result<Command<'a>, AllocError>
    ensures app { IfOk result (λ c. app_of c ≡ with_limits (app_of command.entry)) }
    ensures own { IfOk result (λ c. (out-Command command.entry).has_globals ≡ false
        → (out-Command c).has_globals ≡ false) }
{
    let most = 1_073_741_824;
    let depth = "Containers open at once, up to 65535 [default: 64]";
    let scalar = "Bytes in one scalar, up to 1073741824 [default: 1048576]";
    let symbols = "Bytes of symbols, up to 1073741824 [default: 1048576]";
    let value = "Bytes in one value, up to 1073741824 [default: 16777216]";
    command
        .arg(limit_arg(alloc, "depth", 65_535, depth, false))?
        .arg(limit_arg(alloc, "scalar", most, scalar, false))?
        .arg(limit_arg(alloc, "symbols", most, symbols, false))?
        .arg(limit_arg(alloc, "value", most, value, !writes_binary))
}

/// A subcommand with its texts, and the options that each has after its own.
fn action_command<'a>(
    alloc: Global,
    command: Command<'a>,
    about: &'a str,
    example: &'a str,
    writes_binary: bool,
) -> Result<Command<'a>, AllocError>
    requires { (out-Command command).has_globals ≡ false }
    ensures app { IfOk result (λ c. app_of c ≡ action_app (app_of command.entry)) }
    ensures own { IfOk result (λ c. (out-Command c).has_globals ≡ false) }
{
    let command = command.about(about).after_help(example);
    let command = command.arg(floats_arg(alloc))?.arg(catalog_arg(alloc))?;
    let command = command.arg(lines_arg(alloc))?;
    with_limits(alloc, command, writes_binary)?.arg(files_arg(alloc))
}

/// The program's name, with its texts.
fn top_command<'a>(alloc: Global) -> Command<'a>
    ensures { app_of result ≡ bare_app }
{
    Command::new(alloc, "ion")
        .no_binary_name(true)
        .subcommand_required(true)
        .version("0.2.0, canonical text 2")
        .override_usage(USAGE)
        .about(ABOUT)
        .after_help(AFTER)
}

/// A command with this subcommand.
fn with_action<'a>(
    alloc: Global,
    command: Command<'a>,
    action: Command<'a>,
    about: &'a str,
    example: &'a str,
    writes_binary: bool,
) -> Result<Command<'a>, AllocError>
    requires { (out-Command action).has_globals ≡ false }
    ensures app { IfOk result (λ c.
        app_of c ≡ with_subcommand (app_of command.entry) (action_app (app_of action.entry)).top) }
{
    let action = action_command(alloc, action, about, example, writes_binary)?;
    command.subcommand(action)
}

/// The subcommand that shows, with the options of its own.
fn show_command<'a>(alloc: Global) -> Result<Command<'a>, AllocError>
    ensures app { IfOk result (λ c. app_of c ≡ with_rule (new_app (codes "show")) pretty_rule) }
    ensures own { IfOk result (λ c. (out-Command c).has_globals ≡ false) }
{
    Command::new(alloc, "show").arg(pretty_arg(alloc))
}

/// The subcommand that converts, with the options of its own.
fn convert_command<'a>(alloc: Global) -> Result<Command<'a>, AllocError>
    ensures app { IfOk result (λ c. app_of c
        ≡ with_rule (with_rule (with_rule (new_app (codes "convert")) form_rule) pretty_rule)
        rewrite_rule) }
    ensures own { IfOk result (λ c. (out-Command c).has_globals ≡ false) }
{
    Command::new(alloc, "convert")
        .arg(form_arg(alloc))?
        .arg(pretty_arg(alloc))?
        .arg(rewrite_arg(alloc))
}

/// The whole command.
fn command<'a>(alloc: Global) -> Result<Command<'a>, AllocError>
    ensures app { IfOk result (λ c. app_of c ≡ ion_app) }
{
    let about = "Writes the values as canonical Ion text, a line each";
    let example = "Example: ion show data.ion";
    let show = show_command(alloc)?;
    let command = with_action(alloc, top_command(alloc), show, about, example, false)?;
    let about = "Reads the whole stream and counts its values, as in: ok 6 values";
    let example = "Example: ion check < data.10n";
    let check = Command::new(alloc, "check");
    let command = with_action(alloc, command, check, about, example, false)?;
    let about = "Writes the values in the other form: text as binary, binary as text";
    let example = "Example: ion convert --to binary data.ion > data.10n";
    let convert = convert_command(alloc)?;
    with_action(alloc, command, convert, about, example, true)?.bin_name("ion")
}

/// The matches of the words.
fn matches_of<'a>(alloc: Global, words: &'a [String]) -> Result<ArgMatches<'a>, Error>
    ensures matches { IfOk result
        (λ m. subcommand_rows_of m ≡ subcommand_of ion_app (map string_bytes words.entry.now)) }
    ensures kinds { FailsBy (fault_of ion_app (map string_bytes words.entry.now)) result }
{
    command(alloc)?.try_get_matches_from(words)
}

/// What `clap` says of an error, or a text that is there in any case.
fn text_of(alloc: Global, error: &Error, other: &str) -> Result<String, AllocError>
    requires { other.now ≢ [] }
    ensures { IfOk result (λ text. string_bytes text ≢ []) }
{
    let text = error.to_string(alloc)?;
    if text.is_empty() {
        return String::from_str(alloc, other);
    }
    Ok(text)
}

/// What `clap` says of a first word that is no command, and how a file of that name is shown.
fn with_tip(alloc: Global, text: &str, word: &str) -> Result<String, AllocError>
    requires { text.now ≢ [] }
    ensures { IfOk result (λ hinted. string_bytes hinted ≢ []) }
{
    let Some((first, usage)) = text.split_once(BEFORE_USAGE) else {
        return String::from_str(alloc, text);
    };
    // It may have a tip already, that another command has such a name.
    let gap = if first.contains("\n  tip: ") {
        "\n"
    } else {
        "\n\n"
    };
    let mut hinted = String::from_str(alloc, first)?;
    hinted.push_str(gap)?;
    hinted.push_str("  tip: to show a file, use 'ion show ")?;
    hinted.push_str(word)?;
    hinted.push_str("'")?;
    hinted.push_str(BEFORE_USAGE)?;
    hinted.push_str(usage)?;
    if hinted.is_empty() {
        return String::from_str(alloc, text);
    }
    Ok(hinted)
}

/// Adds a character of a word, as it stands in a line where it is of a name.
fn add_shown(text: &mut String, character: char) -> Result<(), AllocError> {
    if character.is_control() || character == '\\' {
        let mut room = [0; 4];
        for byte in character.encode_utf8(&mut room).as_bytes() {
            for letter in escape(*byte).as_slice() {
                text.push(char::from(*letter))?;
            }
        }
        return Ok(());
    }
    text.push(character)
}

/// The words, of which nothing ends a line or controls a terminal.
fn shown(alloc: Global, words: &[String]) -> Result<Vec<String>, AllocError> {
    let mut shown = Vec::new(alloc);
    for word in words {
        let mut text = String::new(alloc);
        for character in word.as_str().chars() {
            add_shown(&mut text, character)?;
        }
        shown.push(text)?;
    }
    Ok(shown)
}

/// What is said of wrong words, which `clap` reads once more as they are shown.
#[inline(never)]
fn usage_of(alloc: Global, error: &Error, words: &[String]) -> Result<String, AllocError>
    ensures { IfOk result (λ text. string_bytes text ≢ []) }
{
    let shown = shown(alloc, words)?;
    match matches_of(alloc, shown.as_slice()) {
        Err(error) => match error.kind() {
            ErrorKind::OutOfMemory => Err(AllocError),
            _ => usage_text(alloc, &error, shown.as_slice()),
        },
        Ok(_) => text_of(alloc, error, USAGE),
    }
}

/// What is said of these wrong words.
fn usage_text(alloc: Global, error: &Error, words: &[String]) -> Result<String, AllocError>
    ensures { IfOk result (λ text. string_bytes text ≢ []) }
{
    let text = text_of(alloc, error, USAGE)?;
    match (error.kind(), words) {
        (ErrorKind::InvalidSubcommand, [word, ..]) if word.as_str() != "help" => {
            with_tip(alloc, text.as_str(), word.as_str())
        }
        _ => Ok(text),
    }
}

/// What is answered where there are no matches.
fn request_of(alloc: Global, error: &Error, words: &[String]) -> Result<Request, AllocError>
    ensures { IfOk result (AnswersError (kind_of error.now)) }
{
    match error.kind() {
        ErrorKind::OutOfMemory => Err(AllocError),
        ErrorKind::DisplayHelp | ErrorKind::DisplayVersion => {
            Ok(Request::Help(text_of(alloc, error, ABOUT)?))
        }
        _ => Ok(Request::Usage(usage_of(alloc, error, words)?)),
    }
}

/// The number that an option is given, or without one the usual number. `clap` refuses first what
/// has no number here.
fn limit_of(options: &ArgMatches<'_>, name: &str, most: u64, usual: u64) -> Option<u64>
    requires { usual ≤ most }
    ensures value { result ≡ limit_in name.now most usual (rows_of (found_of options.now)) }
    ensures range { IfSome result (λ n. n ≤ most) }
{
    match options.try_get_one::<u64>(name) {
        Ok(Some(number)) if number <= most => Some(number),
        Ok(None) => Some(usual),
        _ => None,
    }
}

/// The limits that the options of a subcommand give.
fn limits_of(options: &ArgMatches<'_>) -> Option<Limits>
    ensures value { result ≡ limits_in (rows_of (found_of options.now)) }
    ensures checked { IfSome result AreChecked }
{
    let most = 1_073_741_824;
    let usual = Limits::default();
    let depth = limit_of(options, "depth", 65_535, u64::from(usual.depth))?;
    let scalar = limit_of(options, "scalar", most, usual.scalar)?;
    let symbols = limit_of(options, "symbols", most, usual.symbols)?;
    let value = limit_of(options, "value", most, usual.value)?;
    Some(Limits {
        depth: depth as u32,
        scalar,
        symbols,
        value,
        input: usual.input,
    })
}

/// Whether the option of this name stands, which takes no word: `clap` says "true" where it does, and
/// else "false", or nothing of a subcommand without that option.
fn is_set(options: &ArgMatches<'_>, name: &str) -> bool
    ensures { result ≡ is_set (first_of name.now (rows_of (found_of options.now))) }
{
    match options.get_str(name) {
        Some(word) => word == "true",
        None => false,
    }
}

/// The action that a subcommand stands for, with the word that `--to` gives it, and where `--pretty`
/// and `--rewrite` stand.
fn action_of(name: &str, form: Option<&str>, pretty: bool, rewrite: bool) -> Option<Action>
    ensures some { IfSome result (λ a. (name.now ≡ action_name a)
        × (option_map (λ s. s.now) form.entry ≡ form_word a) × (pretty ≡ is_pretty a)
        × (rewrite ≡ is_rewritten a)) }
    ensures none { result ≡ None → (a : Action) → name.now ≡ action_name a
        → option_map (λ s. s.now) form.entry ≡ form_word a → pretty ≡ is_pretty a
        → rewrite ≢ is_rewritten a }
{
    match (name, form, pretty, rewrite) {
        ("show", None, false, false) => Some(Action::Show),
        ("show", None, true, false) => Some(Action::ShowPretty),
        ("check", None, false, false) => Some(Action::Check),
        ("convert", None, false, false) => Some(Action::Convert(None)),
        ("convert", Some("text"), false, false) => Some(Action::Convert(Some(Form::Text))),
        ("convert", Some("text"), true, false) => Some(Action::ConvertPretty),
        ("convert", Some("binary"), false, false) => Some(Action::Convert(Some(Form::Binary))),
        ("convert", Some("binary"), false, true) => Some(Action::Rewrite),
        _ => None,
    }
}

/// The file that this word names: `-` names none, but standard input.
pub fn file_of(word: &str) -> Option<&str>
    ensures { option_map (λ s. s.now) result ≡ file_for word.now }
{
    if word == "-" {
        return None;
    }
    Some(word)
}

/// Whether this is done with so many files: several are converted to one form alone.
fn has_one_form(action: Action, files: Option<&[&str]>) -> bool
    ensures { result ≡ has_one_form action (all_named files.entry) }
{
    match (action, files) {
        (Action::Convert(None), Some([_, _, ..])) => false,
        _ => true,
    }
}

/// Whether standard input, by its word, stands once at most among these files.
fn reads_input_once(files: Option<&[&str]>) -> bool
    ensures { result ≡ reads_input_once (all_named files.entry) }
{
    match files {
        Some(words) => words.iter().filter(|word| file_of(word).is_none()).count() <= 1,
        None => true,
    }
}

/// Whether these files are read one after another.
fn go_together(action: Action, files: Option<&[&str]>) -> bool
    ensures { result ≡ go_together action (all_named files.entry) }
{
    has_one_form(action, files) && reads_input_once(files)
}

/// The run that the matches name.
fn asked_by<'m, 'a>(matches: &'m ArgMatches<'a>) -> Option<Asked<'m, 'a>>
    ensures some { IfSome result (λ a. (rows : List Row)
        × (subcommand_rows_of matches.now ≡ Some (action_name a.task.action, rows))
        × (form_in rows ≡ form_word a.task.action)
        × (pretty_in rows ≡ is_pretty a.task.action)
        × (rewrite_in rows ≡ is_rewritten a.task.action)
        × (profile_in rows ≡ a.task.profile)
        × (lines_in rows ≡ a.task.lines)
        × (limits_in rows ≡ Some a.limits) × AreChecked a.limits
        × (catalog_in rows ≡ option_map (λ s. s.now) a.catalog)
        × (files_in rows ≡ all_named a.files)
        × (go_together a.task.action (files_in rows) ≡ true)) }
    ensures none { result ≡ None → (action : Action) (rows : List Row)
        → subcommand_rows_of matches.now ≡ Some (action_name action, rows)
        → form_in rows ≡ form_word action
        → pretty_in rows ≡ is_pretty action
        → rewrite_in rows ≡ is_rewritten action
        → go_together action (files_in rows) ≡ true
        → limits_in rows ≡ None }
{
    let (name, options) = matches.subcommand()?;
    let pretty = is_set(options, "pretty");
    let rewrite = is_set(options, "rewrite");
    let lines = is_set(options, "lines");
    let action = action_of(name, options.get_str("to"), pretty, rewrite)?;
    let limits = limits_of(options)?;
    let files = options.get_strs("FILE");
    if !go_together(action, files) {
        return None;
    }
    let task = Task {
        action,
        profile: Profile {
            floats: is_set(options, "floats"),
        },
        lines,
    };
    let catalog = options.get_str("catalog");
    Some(Asked {
        task,
        limits,
        catalog,
        files,
    })
}

/// What is wrong with a form and flags that no action has.
fn wrong_form(form: Option<&str>, pretty: bool) -> &'static str {
    match (form, pretty) {
        (Some("text"), _) | (None, false) => "'--rewrite' needs '--to binary'",
        (Some("binary"), _) | (None, true) => "'--pretty' needs '--to text'",
        (Some(_), _) => "'--to <FORM>' takes text or binary",
    }
}

/// What is wrong with words that name no run, though `clap` finds no fault in them: it takes any word
/// after `--to`, `--pretty` and `--rewrite` with any form, several files without one, and any number
/// of `-`. No other words lead here: `clap` answers its own subcommand, `help`, by an error, and so
/// numbers that are past a limit.
fn mistake_in(matches: &ArgMatches<'_>) -> &'static str {
    let Some((name, options)) = matches.subcommand() else {
        return "there is no command";
    };
    let form = options.get_str("to");
    let pretty = is_set(options, "pretty");
    match action_of(name, form, pretty, is_set(options, "rewrite")) {
        Some(action) if has_one_form(action, options.get_strs("FILE")) => {
            "the file '-', standard input, cannot be used multiple times"
        }
        Some(_) => "several files need '--to <FORM>'",
        None => wrong_form(form, pretty),
    }
}

/// What is said of a mistake, in the manner of `clap`.
fn error_text(alloc: Global, mistake: &str) -> Result<String, AllocError>
    ensures { IfOk result (λ text. string_bytes text ≢ []) }
{
    let mut text = String::from_str(alloc, "error: ")?;
    text.push_str(mistake)?;
    text.push_str("\n\nFor more information, try '--help'.\n")?;
    Ok(text)
}

/// A copy of a name, which needs its words no more.
fn owned(alloc: Global, name: Option<&str>) -> Result<Option<String>, AllocError>
    ensures { IfOk result
        (λ own. option_map string_bytes own ≡ option_map (λ s. s.now) name.entry) }
{
    match name {
        Some(name) => Ok(Some(String::from_str(alloc, name)?)),
        None => Ok(None),
    }
}

/// Copies of names, which need their words no more.
fn copies(alloc: Global, names: &[&str]) -> Result<Vec<String>, AllocError>
    ensures { IfOk result
        (λ own. map string_bytes own.items ≡ map (λ s. s.now) names.now) }
{
    let mut own = Vec::new(alloc);
    for name in names {
        own.push(String::from_str(alloc, name)?)?;
    }
    Ok(own)
}

/// Copies of names, if there are any, which need their words no more.
fn all_owned(alloc: Global, names: Option<&[&str]>) -> Result<Vec<String>, AllocError>
    ensures { IfOk result (λ own. map string_bytes own.items ≡ all_named names.entry) }
{
    match names {
        Some(names) => copies(alloc, names),
        None => Ok(Vec::new(alloc)),
    }
}

/// The request for a run, which needs its words no more.
fn request_for(alloc: Global, asked: Asked<'_, '_>) -> Result<Request, AllocError>
    ensures { IfOk result (IsRequestFor asked.entry.task asked.entry.limits
        (option_map (λ s. s.now) asked.entry.catalog)
        (all_named asked.entry.files)) }
{
    let catalog = owned(alloc, asked.catalog)?;
    let files = all_owned(alloc, asked.files)?;
    let job = Job {
        task: asked.task,
        limits: asked.limits,
        files,
    };
    Ok(Request::Run(catalog, job))
}

/// Reads the words after the program's name. It fails only where it is out of memory.
// In line its 12 KB of stack would be there during the run.
#[inline(never)]
pub fn read_words(alloc: Global, words: &[String]) -> Result<Request, AllocError>
    ensures asks { IfOk result (Asks (map string_bytes words.now)) }
    ensures some_words { OnErr result (map string_bytes words.now ≢ []) }
{
    if words.is_empty() {
        let task = Task {
            action: Action::Show,
            profile: Profile::strict(),
            lines: false,
        };
        let job = Job {
            task,
            limits: Limits::default(),
            files: Vec::new(alloc),
        };
        return Ok(Request::Run(None, job));
    }
    let matches = match matches_of(alloc, words) {
        Ok(matches) => matches,
        Err(error) => return request_of(alloc, &error, words),
    };
    match asked_by(&matches) {
        Some(asked) => request_for(alloc, asked),
        None => Ok(Request::Usage(error_text(alloc, mistake_in(&matches))?)),
    }
}
