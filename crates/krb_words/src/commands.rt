//! The options and words of the commands, for `clap`.

ghost use Rattle.std.specs.Prelude.{◌≡◌, false, map, IfOk};
ghost use Rattle.clap.specs.Words.{app_of, new_app, rule_of, with_subcommand};
ghost use Rattle.clap.specs.declared.builder.command.Command.TheViews.{out-Command};
ghost use Rattle.krb_words.specs.Words.{now_option, option, number_option, limit_option, port_option, packet_option, flag, file_names, file_option, json_flag, keep_going_flag, lines_flag, names_flag, only_option, fields_option, header_flag, strict_flag, unframed_flag, with_filename_flag, krbls_top, krbls};
ghost use Rattle.krb_words.specs.inner.Makes.{Makes};
ghost use Rattle.krb_words.specs.inner.Parts.{app_for, apps, rule_for, with_apps, with_rules};

use crate::help::{
    CAPTURE_HELP, CCACHE_HELP, CommandHelp, DECODE_HELP, ENCODE_HELP, ITEMS_HELP, KEYTAB_HELP,
    KRBLS_HELP, LIST_HELP, MESSAGE_HELP, STREAM_HELP,
};
use clap::builder::ValueParser;
use clap::{Arg, ArgAction, Command, value_parser};
use std::alloc::{AllocError, Global};

/// The version of the program.
pub const VERSION: &str = "1.0.0";

/// Returns a command with its help and no options yet.
fn new_command<'a>(alloc: Global, name: &'a str, help: &CommandHelp) -> Command<'a>
    ensures app { app_of result ≡ new_app name.entry.now }
    ensures local { (out-Command result).has_globals ≡ false }
{
    Command::new(alloc, name)
        .about(help.about)
        .override_usage(help.usage)
        .after_help(help.below)
}

/// Returns the command `krbls` with no commands yet.
fn top<'a>(alloc: Global) -> Command<'a>
    ensures { app_of result ≡ krbls_top }
{
    new_command(alloc, "krbls", &KRBLS_HELP)
        .no_binary_name(true)
        .disable_help_subcommand(true)
        .subcommand_required(true)
        .version(VERSION)
}

/// Returns an option whose value is any text.
fn text_option<'a>(alloc: Global, name: &'a str, value: &'a str, help: &'a str) -> Arg<'a>
    ensures rule { rule_of result ≡ option name.entry.now }
    ensures local { result.global ≡ false }
{
    Arg::new(alloc, name)
        .long(name)
        .action(ArgAction::Set)
        .value_name(value)
        .help(help)
}

/// Returns the option `--now WHEN`.
fn now_option<'a>(alloc: Global) -> Arg<'a>
    ensures rule { rule_of result ≡ now_option }
    ensures local { result.global ≡ false }
{
    text_option(
        alloc,
        "now",
        "WHEN",
        "Compares expiry with now, a date or seconds since 1970",
    )
}

/// Returns the words `FILE..`, which come after all options of a command.
fn file_names<'a>(alloc: Global) -> Arg<'a>
    ensures rule { rule_of result ≡ file_names }
    ensures local { result.global ≡ false }
{
    Arg::new(alloc, "file names")
        .num_args(0..)
        .value_name("FILE")
        .help("Files to read, - for the standard input [-]")
}

/// Returns an option with no value.
fn flag<'a>(alloc: Global, name: &'a str, help: &'a str) -> Arg<'a>
    ensures rule { rule_of result ≡ flag name.entry.now }
    ensures local { result.global ≡ false }
{
    Arg::new(alloc, name)
        .long(name)
        .action(ArgAction::SetTrue)
        .help(help)
}

/// Returns the option `--strict` of a command that lists messages with their notes.
fn strict_flag<'a>(alloc: Global) -> Arg<'a>
    ensures rule { rule_of result ≡ strict_flag }
    ensures local { result.global ≡ false }
{
    flag(
        alloc,
        "strict",
        "Refuses messages that have a note (krbls help stream)",
    )
}

/// Returns the option `--strict` of a command that turns messages into another form, without notes.
fn strict_form_flag<'a>(alloc: Global) -> Arg<'a>
    ensures rule { rule_of result ≡ strict_flag }
    ensures local { result.global ≡ false }
{
    flag(
        alloc,
        "strict",
        "Refuses messages that `krbls stream` lists with a note",
    )
}

/// Returns the option `--names`.
fn names_flag<'a>(alloc: Global) -> Arg<'a>
    ensures rule { rule_of result ≡ names_flag }
    ensures local { result.global ≡ false }
{
    flag(
        alloc,
        "names",
        "Adds the names of numbers: 18:aes256-cts-hmac-sha1-96",
    )
}

/// Returns the option `--json`.
fn json_flag<'a>(alloc: Global) -> Arg<'a>
    ensures rule { rule_of result ≡ json_flag }
    ensures local { result.global ≡ false }
{
    flag(
        alloc,
        "json",
        "Prints each line as a JSON object, with the names",
    )
}

/// Returns the option `--only KIND,..`.
fn only_option<'a>(alloc: Global) -> Arg<'a>
    ensures rule { rule_of result ≡ only_option }
    ensures local { result.global ≡ false }
{
    text_option(
        alloc,
        "only",
        "KIND,..",
        "Keeps records of these kinds, or with one inside",
    )
}

/// Returns the option `--fields NAME,..`.
fn fields_option<'a>(alloc: Global) -> Arg<'a>
    ensures rule { rule_of result ≡ fields_option }
    ensures local { result.global ≡ false }
{
    text_option(
        alloc,
        "fields",
        "NAME,..",
        "Prints these members of objects, with tabs between",
    )
}

/// Returns the option `--header`.
fn header_flag<'a>(alloc: Global) -> Arg<'a>
    ensures rule { rule_of result ≡ header_flag }
    ensures local { result.global ≡ false }
{
    flag(
        alloc,
        "header",
        "Prints the names of --fields as a first row",
    )
}

/// Returns the option `-H`, `--with-filename`.
fn with_filename_flag<'a>(alloc: Global) -> Arg<'a>
    ensures rule { rule_of result ≡ with_filename_flag }
    ensures local { result.global ≡ false }
{
    flag(
        alloc,
        "with-filename",
        "Begins each line with its file: file=NAME",
    )
    .short('H')
}

/// Returns an option whose value is a number that a parser accepts.
fn number_option<'a>(
    alloc: Global,
    name: &'a str,
    parser: ValueParser<'a>,
    value: &'a str,
    help: &'a str,
) -> Arg<'a>
    ensures rule { rule_of result ≡ number_option name.entry.now parser.entry }
    ensures local { result.global ≡ false }
{
    Arg::new(alloc, name)
        .long(name)
        .action(ArgAction::Set)
        .value_parser(parser)
        .value_name(value)
        .help(help)
}

/// Returns the option `--limit OCTETS`.
fn limit_option<'a>(alloc: Global) -> Arg<'a>
    ensures rule { rule_of result ≡ limit_option }
    ensures local { result.global ≡ false }
{
    number_option(
        alloc,
        "limit",
        value_parser!(u32).range(1..=2147483647),
        "OCTETS",
        "Greatest length of a frame, 1 to 2147483647 [16777216]",
    )
}

/// Returns the option `--port PORT`.
fn port_option<'a>(alloc: Global) -> Arg<'a>
    ensures rule { rule_of result ≡ port_option }
    ensures local { result.global ≡ false }
{
    number_option(
        alloc,
        "port",
        value_parser!(u16).range(1..),
        "PORT",
        "Port of Kerberos, 1 to 65535 [88]",
    )
}

/// Returns the option `--packet N`.
fn packet_option<'a>(alloc: Global) -> Arg<'a>
    ensures rule { rule_of result ≡ packet_option }
    ensures local { result.global ≡ false }
{
    number_option(
        alloc,
        "packet",
        value_parser!(u32).range(1..),
        "N",
        "Only messages that end in packet N of a capture",
    )
}

/// Returns the option `--file PATH`.
fn file_option<'a>(alloc: Global) -> Arg<'a>
    ensures rule { rule_of result ≡ file_option }
    ensures local { result.global ≡ false }
{
    text_option(
        alloc,
        "file",
        "PATH",
        "Reads this file first; for a name that begins with -",
    )
}

/// Returns the option `--keep-going`.
fn keep_going_flag<'a>(alloc: Global) -> Arg<'a>
    ensures rule { rule_of result ≡ keep_going_flag }
    ensures local { result.global ≡ false }
{
    flag(
        alloc,
        "keep-going",
        "Goes on with the next frame after one that is refused",
    )
}

/// Returns the option `--lines`.
fn lines_flag<'a>(alloc: Global) -> Arg<'a>
    ensures rule { rule_of result ≡ lines_flag }
    ensures local { result.global ≡ false }
{
    flag(alloc, "lines", "Reads each line as a message of its own")
}

/// Returns the option `--unframed`.
fn unframed_flag<'a>(alloc: Global) -> Arg<'a>
    ensures rule { rule_of result ≡ unframed_flag }
    ensures local { result.global ≡ false }
{
    flag(
        alloc,
        "unframed",
        "Reads or writes one message, with no length before it",
    )
}

/// What a command takes: an option, or the words that name files.
#[derive(Clone, Copy)]
pub(crate) enum Parameter {
    /// `--now WHEN`.
    Now,
    /// `--limit OCTETS`.
    Limit,
    /// `--port PORT`.
    Port,
    /// `--packet N`.
    Packet,
    /// `--keep-going`.
    KeepGoing,
    /// `--strict`, of messages that are listed.
    Strict,
    /// `--strict`, of messages that are turned into another form.
    StrictForm,
    /// `--lines`.
    Lines,
    /// `--unframed`.
    Unframed,
    /// `--names`.
    Names,
    /// `--json`.
    Json,
    /// `--only KIND,..`.
    Only,
    /// `--fields NAME,..`.
    Fields,
    /// `--header`.
    Header,
    /// `-H`, `--with-filename`.
    WithFilename,
    /// `--file PATH`.
    File,
    /// `FILE..`, after all options.
    FileNames,
}

impl Parameter {
    /// Returns the option or the words as `clap` takes them.
    fn arg<'a>(self, alloc: Global) -> Arg<'a>
        ensures rule { rule_of result ≡ rule_for self }
        ensures local { result.global ≡ false }
    {
        match self {
            Parameter::Now => now_option(alloc),
            Parameter::Limit => limit_option(alloc),
            Parameter::Port => port_option(alloc),
            Parameter::Packet => packet_option(alloc),
            Parameter::KeepGoing => keep_going_flag(alloc),
            Parameter::Strict => strict_flag(alloc),
            Parameter::StrictForm => strict_form_flag(alloc),
            Parameter::Lines => lines_flag(alloc),
            Parameter::Unframed => unframed_flag(alloc),
            Parameter::Names => names_flag(alloc),
            Parameter::Json => json_flag(alloc),
            Parameter::Only => only_option(alloc),
            Parameter::Fields => fields_option(alloc),
            Parameter::Header => header_flag(alloc),
            Parameter::WithFilename => with_filename_flag(alloc),
            Parameter::File => file_option(alloc),
            Parameter::FileNames => file_names(alloc),
        }
    }

    /// Returns whether it is the option of a name, which is written with its hyphens.
    pub(crate) fn is_named(self, name: &str) -> bool {
        match self {
            Parameter::Now => name == "--now",
            Parameter::Limit => name == "--limit",
            Parameter::Port => name == "--port",
            Parameter::Packet => name == "--packet",
            Parameter::KeepGoing => name == "--keep-going",
            Parameter::Strict | Parameter::StrictForm => name == "--strict",
            Parameter::Lines => name == "--lines",
            Parameter::Unframed => name == "--unframed",
            Parameter::Names => name == "--names",
            Parameter::Json => name == "--json",
            Parameter::Only => name == "--only",
            Parameter::Fields => name == "--fields",
            Parameter::Header => name == "--header",
            Parameter::WithFilename => name == "-H" || name == "--with-filename",
            Parameter::File => name == "--file",
            Parameter::FileNames => false,
        }
    }
}

/// A command of the program: its name, its help and what it takes, in the order of its help.
#[derive(Clone, Copy)]
pub(crate) struct Part {
    pub(crate) name: &'static str,
    help: &'static CommandHelp,
    pub(crate) parameters: &'static [Parameter],
}

/// The commands of the program.
static PARTS: [Part; 9] = [
    Part {
        name: "list",
        help: &LIST_HELP,
        parameters: &[
            Parameter::Now,
            Parameter::Names,
            Parameter::Json,
            Parameter::Only,
            Parameter::Fields,
            Parameter::Header,
            Parameter::WithFilename,
            Parameter::File,
            Parameter::FileNames,
        ],
    },
    Part {
        name: "stream",
        help: &STREAM_HELP,
        parameters: &[
            Parameter::Limit,
            Parameter::KeepGoing,
            Parameter::Strict,
            Parameter::Names,
            Parameter::Json,
            Parameter::Only,
            Parameter::Fields,
            Parameter::Header,
            Parameter::WithFilename,
            Parameter::File,
            Parameter::FileNames,
        ],
    },
    Part {
        name: "message",
        help: &MESSAGE_HELP,
        parameters: &[
            Parameter::Lines,
            Parameter::Strict,
            Parameter::Names,
            Parameter::Json,
            Parameter::Only,
            Parameter::Fields,
            Parameter::Header,
            Parameter::WithFilename,
            Parameter::File,
            Parameter::FileNames,
        ],
    },
    Part {
        name: "items",
        help: &ITEMS_HELP,
        parameters: &[
            Parameter::Strict,
            Parameter::Names,
            Parameter::Json,
            Parameter::WithFilename,
            Parameter::File,
            Parameter::FileNames,
        ],
    },
    Part {
        name: "keytab",
        help: &KEYTAB_HELP,
        parameters: &[
            Parameter::Names,
            Parameter::Json,
            Parameter::Only,
            Parameter::Fields,
            Parameter::Header,
            Parameter::WithFilename,
            Parameter::File,
            Parameter::FileNames,
        ],
    },
    Part {
        name: "ccache",
        help: &CCACHE_HELP,
        parameters: &[
            Parameter::Now,
            Parameter::Names,
            Parameter::Json,
            Parameter::Only,
            Parameter::Fields,
            Parameter::Header,
            Parameter::WithFilename,
            Parameter::File,
            Parameter::FileNames,
        ],
    },
    Part {
        name: "capture",
        help: &CAPTURE_HELP,
        parameters: &[
            Parameter::Limit,
            Parameter::Port,
            Parameter::Strict,
            Parameter::Names,
            Parameter::Json,
            Parameter::Only,
            Parameter::Fields,
            Parameter::Header,
            Parameter::WithFilename,
            Parameter::File,
            Parameter::FileNames,
        ],
    },
    Part {
        name: "decode",
        help: &DECODE_HELP,
        parameters: &[
            Parameter::Limit,
            Parameter::StrictForm,
            Parameter::Unframed,
            Parameter::KeepGoing,
            Parameter::Port,
            Parameter::Packet,
            Parameter::File,
            Parameter::FileNames,
        ],
    },
    Part {
        name: "encode",
        help: &ENCODE_HELP,
        parameters: &[
            Parameter::Limit,
            Parameter::StrictForm,
            Parameter::Unframed,
            Parameter::File,
            Parameter::FileNames,
        ],
    },
];

/// Returns the commands of the program.
pub(crate) fn parts() -> &'static [Part]
    ensures { map app_for result.now ≡ apps }
{
    &PARTS
}

/// Returns a command that takes parameters, too.
#[tactic(auto, unfolding(crate::specs::inner::Makes::Makes))]
fn with_parameters<'a>(
    alloc: Global,
    command: Command<'a>,
    parameters: &[Parameter],
) -> Result<Command<'a>, AllocError>
    requires { (out-Command command).has_globals ≡ false }
    ensures { Makes result (with_rules (app_of command.entry) parameters.now) }
{
    let mut command = command;
    for parameter in parameters {
        command = command.arg(parameter.arg(alloc))?;
    }
    Ok(command)
}

/// Returns a command of the program.
#[tactic(auto, unfolding(crate::specs::inner::Makes::Makes))]
fn command_of<'a>(alloc: Global, part: &Part) -> Result<Command<'a>, AllocError>
    ensures { Makes result (app_for part.now) }
{
    let command = new_command(alloc, part.name, part.help);
    with_parameters(alloc, command, part.parameters)
}

/// Returns a command with a command of the program among its own.
#[tactic(auto, unfolding(crate::specs::inner::Makes::Makes))]
fn with_part<'a>(alloc: Global, whole: Command<'a>, part: &Part) -> Result<Command<'a>, AllocError>
    ensures { IfOk result (λ made. app_of made ≡ with_subcommand (app_of whole.entry) (app_for part.now).top) }
{
    let command = command_of(alloc, part)?;
    whole.subcommand(command)
}

/// Returns a command with commands of the program among its own.
fn with_parts<'a>(
    alloc: Global,
    whole: Command<'a>,
    parts: &[Part],
) -> Result<Command<'a>, AllocError>
    ensures { IfOk result (λ made. app_of made ≡ with_apps (app_of whole.entry) (map app_for parts.now)) }
{
    let mut whole = whole;
    for part in parts {
        whole = with_part(alloc, whole, part)?;
    }
    Ok(whole)
}

/// Returns the command `krbls`, which `clap` calls simple.
pub(crate) fn krbls_command<'a>(alloc: Global) -> Result<Command<'a>, AllocError>
    ensures { IfOk result (λ c. app_of c ≡ krbls) }
{
    with_parts(alloc, top(alloc), parts())
}
