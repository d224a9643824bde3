//! The forms of the commands, as a table.

ghost use Rattle.std.specs.Prelude.{◌≡◌, IfOk, List, false, fold};
ghost use Rattle.std.specs.Borrow.{Bor};
ghost use Rattle.clap.specs.Words.{Text, app_of, rule_of};
ghost use Rattle.shell_commands.specs.CommandLine.{AreKinds, shell_app, shell_top};
ghost use Rattle.shell_commands.specs.inner.Forms.{slot_rule, with_form, with_row};

use crate::help;
use clap::{Arg, ArgAction, Command};
use std::alloc::{AllocError, Global};

/// What a word of a command line is.
#[derive(Clone, Copy)]
enum Slot {
    /// A word that must be given.
    Word,
    /// A word that may be given.
    Maybe,
    /// One word or more.
    Words,
    /// One of these words, which must be given.
    OneOf(&'static [&'static str]),
    /// An option without a value.
    Flag,
    /// An option with a value, which help calls so.
    Value(&'static str),
    /// One that may be used several times.
    Values(&'static str),
    /// One that has a value if none is given: what help calls it, and that value.
    Default(&'static str, &'static str),
}

/// A command that is made, if memory does.
type Made<'a> = Result<Command<'a>, AllocError>;

/// A name, what has it, and what help says of it.
type Row = (&'static str, Slot, &'static str);

/// A command: its name, what help says of it first, and its words.
struct Form {
    name: &'static str,
    about: &'static str,
    rows: &'static [Row],
}

const SERVERS: Row = (
    "SERVERS",
    Slot::Word,
    "HOST:PORT, several with commas between them, and /PATH to go below it; may be left out",
);

const NODE: Row = ("PATH", Slot::Word, "The node's path, as /config");

const WAIT: Row = (
    "wait",
    Slot::Default("SECONDS", "10"),
    "How long to wait for the answer, in seconds, 1 to 4294967",
);

const JSON: Row = ("json", Slot::Flag, "Prints JSON, an object a line");

const DATA: Row = (
    "DATA",
    Slot::Maybe,
    "The data, as they are; after -- where they begin with a -",
);

const HEX: Row = (
    "hex",
    Slot::Flag,
    "DATA is hex, \\e for no bytes, or \\0 for null",
);

const NULL: Row = ("null", Slot::Flag, "The data are null, with no DATA");

const FROM: Row = (
    "from",
    Slot::Value("FILE"),
    "The data are the bytes of this file, as they are; - is standard input",
);

const VERSION: Row = (
    "version",
    Slot::Value("N"),
    "The version that the node is to have, 0 to 2147483647; else any",
);

/// The commands, in the order in which help lists them.
static FORMS: [Form; 13] = [
    Form {
        name: "show",
        about: "Prints the fields of a frame, and its bytes again",
        rows: &[
            (
                "KIND",
                Slot::OneOf(&[
                    "connect",
                    "accepted",
                    "request",
                    "notice",
                    "reply-exists",
                    "reply-setdata",
                    "reply-getdata",
                    "reply-getchildren",
                    "reply-getchildren2",
                    "reply-create",
                    "reply-header",
                ]),
                "What kind of payload the frame has",
            ),
            (
                "HEX",
                Slot::Word,
                "One whole frame with its length, in hex without spaces",
            ),
        ],
    },
    Form {
        name: "history",
        about: "Answers data and names of a history at any zxid",
        rows: &[],
    },
    Form {
        name: "replay",
        about: "Drives a client by a script, and prints what it says and keeps",
        rows: &[],
    },
    Form {
        name: "rehearse",
        about: "Drives a client by a script against servers in memory",
        rows: &[],
    },
    Form {
        name: "live",
        about: "Drives a client over TCP by a script, and prints what it says and keeps",
        rows: &[(
            "ADDRESS",
            Slot::Words,
            "A server's address in numbers, as 127.0.0.1:2181. Several are tried in turn",
        )],
    },
    Form {
        name: "watch",
        about: "Connects over TCP, and prints a line at each change of the nodes that it watches",
        rows: &[
            SERVERS,
            ("data", Slot::Values("PATH"), "A node whose data to watch"),
            (
                "children",
                Slot::Values("PATH"),
                "A node below which to watch the names",
            ),
            (
                "tree",
                Slot::Values("PATH"),
                "A node to watch with all below it",
            ),
            (
                "most",
                Slot::Default("N", "1000"),
                "How many nodes of one tree at most, 1 to 4294967295",
            ),
            (
                "timeout",
                Slot::Default("MS", "30000"),
                "The session timeout to ask for, in milliseconds, 1 to 2147483647",
            ),
            (
                "for",
                Slot::Value("SECONDS"),
                "How long to watch, in seconds, 1 to 4294967; else until standard output is closed",
            ),
            (
                "text",
                Slot::Flag,
                "Prints data in quotes where they are text",
            ),
            JSON,
        ],
    },
    Form {
        name: "get",
        about: "Prints the data of a node",
        rows: &[
            SERVERS,
            NODE,
            WAIT,
            JSON,
            (
                "hex",
                Slot::Flag,
                "Prints hex, \\e for no bytes, and \\0 for null",
            ),
            (
                "raw",
                Slot::Flag,
                "Prints the bytes as they are, and nothing else",
            ),
        ],
    },
    Form {
        name: "ls",
        about: "Prints the names below a node, a line each",
        rows: &[SERVERS, NODE, WAIT, JSON],
    },
    Form {
        name: "stat",
        about: "Prints what is known of a node, a line for each field",
        rows: &[SERVERS, NODE, WAIT, JSON],
    },
    Form {
        name: "tree",
        about: "Prints the path of a node and of each one below it, a line each",
        rows: &[
            SERVERS,
            NODE,
            WAIT,
            JSON,
            (
                "depth",
                Slot::Value("N"),
                "How many levels below PATH, 0 to 4294967295; else all",
            ),
            (
                "most",
                Slot::Default("N", "10000"),
                "How many nodes at most, 1 to 4294967295",
            ),
        ],
    },
    Form {
        name: "set",
        about: "Sets the data of a node",
        rows: &[SERVERS, NODE, WAIT, DATA, HEX, NULL, FROM, VERSION],
    },
    Form {
        name: "create",
        about: "Makes a node that stays, and prints its path",
        rows: &[
            SERVERS,
            NODE,
            WAIT,
            DATA,
            HEX,
            NULL,
            FROM,
            (
                "sequential",
                Slot::Flag,
                "Ends the name with a number that the server gives",
            ),
            JSON,
        ],
    },
    Form {
        name: "delete",
        about: "Deletes a node that has no children",
        rows: &[SERVERS, NODE, WAIT, VERSION],
    },
];

/// A word, as clap knows it.
fn arg_of<'a>(alloc: Global, row: &Row) -> Arg<'a>
    ensures rule { rule_of result ≡ slot_rule row.now.0.now row.now.1 }
    ensures local { result.global ≡ false }
{
    let (name, slot, about) = *row;
    let arg = Arg::new(alloc, name).help(about);
    match slot {
        Slot::Word => arg.required(true),
        Slot::Maybe => arg,
        Slot::Words => arg.required(true).action(ArgAction::Append),
        Slot::OneOf(names) => arg.required(true).value_parser(names),
        Slot::Flag => arg.long(name).action(ArgAction::SetTrue),
        Slot::Value(value) => arg.long(name).value_name(value),
        Slot::Values(value) => arg.long(name).value_name(value).action(ArgAction::Append),
        Slot::Default(value, word) => arg.long(name).value_name(value).default_value(word),
    }
}

/// A command with one more word.
fn with_row<'a>(alloc: Global, command: Command<'a>, row: &Row) -> Made<'a>
    ensures { IfOk result (λ r. app_of r ≡ with_row (app_of command.entry) row.now) }
{
    command.arg(arg_of(alloc, row))
}

/// A command with more words.
fn with_rows<'a>(alloc: Global, command: Command<'a>, rows: &[Row]) -> Made<'a>
    ensures { IfOk result (λ r. app_of r ≡ fold with_row (app_of command.entry) rows.now) }
{
    let mut made = command;
    for row in rows {
        made = with_row(alloc, made, row)?;
    }
    Ok(made)
}

/// A program with one more command.
fn with_form<'a>(alloc: Global, shell: Command<'a>, form: &Form) -> Made<'a>
    ensures { IfOk result (λ r. app_of r ≡ with_form (app_of shell.entry) form.now) }
{
    let new = Command::new(alloc, form.name)
        .about(form.about)
        .after_help(help::last_of(form.name));
    let command = with_rows(alloc, new, form.rows)?;
    shell.subcommand(command)
}

/// A program with more commands.
fn with_forms<'a>(alloc: Global, shell: Command<'a>, forms: &[Form]) -> Made<'a>
    ensures { IfOk result (λ r. app_of r ≡ fold with_form (app_of shell.entry) forms.now) }
{
    let mut made = shell;
    for form in forms {
        made = with_form(alloc, made, form)?;
    }
    Ok(made)
}

/// The program without its commands.
fn shell_top<'a>(alloc: Global) -> Command<'a>
    ensures { app_of result ≡ shell_top }
{
    Command::new(alloc, "zk_shell")
        .about("Reads, changes and watches nodes, shows frames, and drives a client by scripts")
        .version(help::VERSION)
        .after_help(help::SHELL)
        .subcommand_required(true)
}

/// The form of the command line.
pub(crate) fn shell_form<'a>(alloc: Global) -> Made<'a>
    ensures { IfOk result (λ r. (names : Bor (List (Bor Text))) × AreKinds names × (app_of r ≡ shell_app names)) }
{
    with_forms(alloc, shell_top(alloc), FORMS.as_slice())
}
