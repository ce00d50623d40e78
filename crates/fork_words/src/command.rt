//! The commands and words of the command line, as tables.

use clap::{Arg, ArgAction, Command};
use std::alloc::{AllocError, Global};

/// What the program is for.
const ABOUT: &str = "Shows and changes what the resource forks of old Macintosh files hold";

/// What its help ends with.
const EXAMPLES: &str =
    "FILE is a file that holds a resource fork, alone or in AppleSingle, AppleDouble, MacBinary or BinHex.
- is the standard input. Where no file has this name, IMAGE:PATH is a file in a disk image, which is
only read: in PATH / is between names, and : is a Macintosh's /.

Examples:
  resfork ls Game.rsrc                 all resources of a file
  resfork ls -t STR# -t TEXT *.rsrc    those of two types, of several files
  resfork get Game.rsrc TEXT 128       the bytes of a resource, by its id
  resfork get Game.rsrc TEXT 'Read me' -o readme.txt
  resfork ls -R disk.img               all folders and files in a disk image
  resfork ls 'disk.img:Games/Doom'     the resources of one of these files
  resfork info Game.bin                what a file is
  resfork check Game.rsrc              whether a fork is damaged, and where
  resfork salvage bad.rsrc -o OUT      all resources that can be read of a damaged fork
  resfork show Game.rsrc 'STR#' 128    the texts of a resource
  resfork show Game.rsrc ICN# 128 -o icon.png
  resfork page Game.rsrc -o game.html  a page that shows all of it
  resfork find -t vers --text 1.0 Games
                                       such resources of all files in a folder
  resfork unpack Game.rsrc game        each resource as a file in the folder game
  resfork pack game New.rsrc           a fork of what is in the folder game
  resfork put Game.rsrc TEXT 128 -i readme.txt
                                       other bytes for a resource, or a new one
  resfork set Game.rsrc TEXT 128 --name 'Read me' --attrs +purgeable,-locked
  resfork rm Game.rsrc 'snd ' 5 6      without these resources
  resfork cp Other.rsrc ICN# vers:1 Game.rsrc
                                       resources of another file, too
  resfork diff Old.rsrc Game.rsrc      what differs
  resfork derez Game.rsrc > Game.r     as a text; resfork rez Game.r -o New.rsrc
  resfork rez Some.r --into Game.rsrc --replace
                                       the resources of a text, and the file's others
  resfork texts Game.rsrc > de.txt     all texts; resfork texts Game.rsrc --put de.txt
  resfork convert Game.bin Game.hqx --to binhex --lossy
                                       in another container

Exit status:
  0  done
  1  there is no such resource, or it is there already; or files differ
  2  the words of the command line are bad
  3  a file holds no resource fork, or a damaged one
  4  a file can't be read, or the output can't be written";

/// A command: its name, what it does, and what its own help says, if that is more.
#[derive(Clone, Copy)]
struct CommandText {
    name: &'static str,
    about: &'static str,
    long_about: Option<&'static str>,
}

/// How a word is written: an operand, or an option with its long form and perhaps a letter.
#[derive(Clone, Copy)]
enum Form {
    Operand,
    Long(&'static str),
    Short(char, &'static str),
}

/// Which values a word has, and what the help calls one.
#[derive(Clone, Copy)]
enum Values {
    /// None.
    Flag,
    One(&'static str),
    /// One each time that the option is there.
    Each(&'static str),
    Many(&'static str),
}

/// Which values may begin with -.
#[derive(Clone, Copy)]
enum Dashes {
    Never,
    Numbers,
    Always,
}

/// A word of commands.
#[derive(Clone, Copy)]
struct Word {
    commands: &'static [&'static str],
    name: &'static str,
    form: Form,
    values: Values,
    dashes: Dashes,
    is_required: bool,
    /// A word beside which it can't be.
    rival: Option<&'static str>,
    help: &'static str,
}

/// The commands, in the order of the help.
const COMMANDS: &[CommandText] = &[
    CommandText {
        name: "ls",
        about: "Lists resources",
        long_about: Some(
            "Lists resources: a line for each, with its type, its id, how many bytes it has, its attributes, and its name in double quotes",
        ),
    },
    CommandText {
        name: "get",
        about: "Writes the bytes of a resource",
        long_about: None,
    },
    CommandText {
        name: "info",
        about: "Tells what a file is",
        long_about: Some(
            "Tells what a file is: its container, its name, type and creator, its Finder flags, its dates and its comment, how many bytes its forks have, and how many resources of each type there are",
        ),
    },
    CommandText {
        name: "check",
        about: "Tells all faults of a fork",
        long_about: Some(
            "Tells all faults of a fork, each with its place, and what is odd about it though it can be read: data that overlap, and bytes that no resource has",
        ),
    },
    CommandText {
        name: "salvage",
        about: "Shows what can still be read of a damaged file",
        long_about: Some(
            "Shows what can still be read of a damaged resource fork. Where the container is damaged, its fault is named, and the fork is read where the container says that it is, as far as its bytes are there",
        ),
    },
    CommandText {
        name: "show",
        about: "Shows what is in resources",
        long_about: Some(
            "Shows what is in resources: 'STR ', 'STR#', 'TEXT' and 'vers' as text, and others in hexadecimal digits; one 'ICON', 'ICN#', 'ics#', 'CURS' or 'SICN' as a PNG file, and one 'snd ' as a WAV file where that is asked for",
        ),
    },
    CommandText {
        name: "unpack",
        about: "Writes each resource to a file of its own",
        long_about: Some(
            "Writes each resource to a file DIR/TYPE/ID NAME.bin, and all else of the fork to DIR/resources.json. Nothing is overwritten",
        ),
    },
    CommandText {
        name: "page",
        about: "Writes a page of HTML that shows what is in files",
        long_about: Some(
            "Writes a page of HTML that shows what is in files: pictures, texts, and the first bytes of all else. It needs nothing else, and nothing is sent or fetched when it is opened",
        ),
    },
    CommandText {
        name: "find",
        about: "Finds resources in files and folders",
        long_about: Some(
            "Finds resources in files, and in all files below folders: a line for each as ls shows it, with the file's name before. What is given has to hold of a resource all at once. Files without resources are passed over below folders. The status is 1 where there is none",
        ),
    },
    CommandText {
        name: "put",
        about: "Replaces the bytes of a resource, or adds one",
        long_about: Some(
            "Replaces the bytes of the resource of this type and id, or adds it at the end of its type. Name and attributes stay where none are given; a new resource has none",
        ),
    },
    CommandText {
        name: "rm",
        about: "Removes resources",
        long_about: Some(
            "Removes the resources of a type with these ids. Where one isn't there, none is removed",
        ),
    },
    CommandText {
        name: "set",
        about: "Changes a resource's id, type, name or attributes",
        long_about: None,
    },
    CommandText {
        name: "cp",
        about: "Copies resources from a file to another",
        long_about: Some(
            "Copies resources from a file to another. Where a type and an id are there already, nothing is copied, unless one of --replace, --skip and --renumber is given",
        ),
    },
    CommandText {
        name: "diff",
        about: "Compares the resources of two files",
        long_about: Some(
            "Compares the resources of two files by type and id: - for one that only the first has, + for one that only the second has, ~ for one that differs, with what differs. The status is 1 where they differ",
        ),
    },
    CommandText {
        name: "pack",
        about: "Writes a fork of what unpack wrote",
        long_about: Some(
            "Writes a fork of the files in a folder, of which DIR/resources.json says what they are. unpack writes both. A file that it doesn't name is refused, unless --add takes it. --into FILE puts their resources into a file that is there. Where a type and an id are there already, nothing is written, unless --replace or --skip is given",
        ),
    },
    CommandText {
        name: "derez",
        about: "Writes resources as a text that rez reads",
        long_about: None,
    },
    CommandText {
        name: "rez",
        about: "Writes a fork of a text that derez wrote",
        long_about: Some(
            "Writes a fork of a text that derez wrote. --into FILE puts its resources into a file that is there. Where a type and an id are there already, nothing is written, unless --replace or --skip is given",
        ),
    },
    CommandText {
        name: "texts",
        about: "Writes all texts as lines, or puts lines in their place",
        long_about: Some(
            "Writes the texts of strings, texts, menus, dialogs, windows, controls and versions, and the names of resources: a line for each, with type, id, place, and the text in double quotes, in UTF-8. \\n is the end of a line, \\t a tab, \\xHH any other byte. With --put such lines take the place of the texts of a file: lines may be left out",
        ),
    },
    CommandText {
        name: "convert",
        about: "Writes a file in another container",
        long_about: Some(
            "Writes a file in another container. What this can't hold is named, and the file isn't written, unless --lossy leaves it out",
        ),
    },
];

/// A word: its commands, its name, its form, its values, and what else there is to it; then its help.
macro_rules! word {
    ($($command:literal)+, $name:literal, $form:expr, $values:expr $(, $field:ident: $value:expr)*; $help:literal) => {
        Word {
            $($field: $value,)*
            ..Word {
                commands: &[$($command),+],
                name: $name,
                form: $form,
                values: $values,
                dashes: Dashes::Never,
                is_required: false,
                rival: None,
                help: $help,
            }
        }
    };
}

/// The options of the commands.
const OPTIONS: &[Word] = &[
    word!("ls" "unpack" "derez" "find", "type", Form::Short('t', "type"), Values::Each("TYPE");
        "Only resources of this type, as ls shows it (STR is 'STR '); it may be given several times"),
    word!("ls", "types", Form::Long("types"), Values::Flag;
        "Lists types: a line for each, with how many resources it has"),
    word!("salvage", "list", Form::Long("list"), Values::Flag, rival: Some("output");
        "Lists what can be read, and why the rest can't be; so it does without -o"),
    word!("salvage", "data", Form::Long("data"), Values::One("OUT"), rival: Some("list");
        "The file that the bytes of the data fork are written to, as far as they are there"),
    word!("ls" "salvage", "raw", Form::Long("raw"), Values::Flag;
        "Shows letters that aren't ASCII as \\xHH, and not as the characters that they are in MacRoman"),
    word!("ls" "info" "check", "json", Form::Long("json"), Values::Flag;
        "One line of JSON for each file"),
    word!("ls", "recursive", Form::Short('R', "recursive"), Values::Flag, rival: Some("json");
        "Of a disk image or a folder in it: all that is below, and not only what is directly in it"),
    word!("ls", "paths", Form::Long("paths"), Values::Flag, rival: Some("json");
        "Each line begins with the file's name, also that of one file"),
    word!("ls", "sha256", Form::Long("sha256"), Values::Flag, rival: Some("types");
        "The SHA-256 digest of each resource's bytes, at the end of its line"),
    word!("info", "sha256", Form::Long("sha256"), Values::Flag;
        "The SHA-256 digests of both forks"),
    word!("diff", "json", Form::Long("json"), Values::Flag;
        "What differs as a line of JSON"),
    word!("ls", "data", Form::Long("data"), Values::One("FORM");
        "With --json: the bytes of each resource too, as base64"),
    word!("show", "as", Form::Long("as"), Values::One("FORM");
        "text, hex, png or wav, in place of what suits the type"),
    word!("get", "nth", Form::Long("nth"), Values::One("N");
        "Of several such resources the N-th, counted from 1"),
    word!("put", "input", Form::Short('i', "input"), Values::One("IN");
        "The file with the resource's bytes, in place of the standard input"),
    word!("find", "id", Form::Long("id"), Values::One("N"), dashes: Dashes::Numbers;
        "Only resources with this id"),
    word!("find", "name", Form::Long("name"), Values::One("TEXT");
        "Only resources with this somewhere in their name; letters as ls shows them"),
    word!("find", "text", Form::Long("text"), Values::One("TEXT");
        "Only resources with this somewhere in their bytes; letters as ls shows them in names, \\xHH any byte"),
    word!("set", "id", Form::Long("id"), Values::One("N"), dashes: Dashes::Numbers;
        "Its new id"),
    word!("set", "type", Form::Long("type"), Values::One("T");
        "Its new type; it goes to the end of that type"),
    word!("put", "name", Form::Long("name"), Values::One("N");
        "The resource's name, as ls shows it"),
    word!("set", "name", Form::Long("name"), Values::One("N");
        "Its new name, as ls shows it"),
    word!("set", "no-name", Form::Long("no-name"), Values::Flag, rival: Some("name");
        "It has no name any more"),
    word!("put" "set", "attrs", Form::Long("attrs"), Values::One("A"), dashes: Dashes::Always;
        "Its attributes: words of ls with commas between them, - for none, or +purgeable,-locked to change some"),
    word!("put", "new", Form::Long("new"), Values::Flag;
        "Refuses a type and an id that are there"),
    word!("put", "create", Form::Long("create"), Values::Flag;
        "Makes a new raw fork where there is no FILE"),
    word!("cp", "replace", Form::Long("replace"), Values::Flag, rival: Some("renumber");
        "Takes the place of a resource that is there"),
    word!("cp" "pack" "rez", "skip", Form::Long("skip"), Values::Flag, rival: Some("replace");
        "Leaves out a resource that is there"),
    word!("pack" "rez", "replace", Form::Long("replace"), Values::Flag;
        "Takes the place of a resource that is there"),
    word!("cp", "renumber", Form::Long("renumber"), Values::Flag, rival: Some("skip");
        "Gives a resource whose id is taken the lowest id from 128 on that is free"),
    word!("pack" "rez", "into", Form::Long("into"), Values::One("FILE"), rival: Some("output");
        "The file that is there into which the resources are put, in place of OUT; its others stay"),
    word!("pack" "rez", "force", Form::Long("force"), Values::Flag, rival: Some("into");
        "Replaces an OUT that is there, though resources or other parts of it are lost"),
    word!("pack", "like", Form::Long("like"), Values::One("FILE"), rival: Some("into");
        "Puts the fork in a file like this one, in its container"),
    word!("pack", "add", Form::Long("add"), Values::Flag;
        "Takes files that resources.json doesn't name, too: type, id and name are those of their paths, as unpack writes them"),
    word!("get", "output", Form::Short('o', "output"), Values::One("OUT");
        "The file that the bytes are written to, in place of the standard output"),
    word!("salvage", "output", Form::Short('o', "output"), Values::One("OUT"), rival: Some("data");
        "The file that a fork with all resources that can be read is written to"),
    word!("show" "page", "output", Form::Short('o', "output"), Values::One("OUT");
        "The file that is written, in place of the standard output"),
    word!("put" "rm" "set" "cp" "texts", "output", Form::Short('o', "output"), Values::One("OUT");
        "The file that is written, in place of the one that is read"),
    word!("texts", "put", Form::Long("put"), Values::One("LINES");
        "The file with the lines that take the place of texts; - is the standard input"),
    word!("rez", "output", Form::Short('o', "output"), Values::One("OUT");
        "The file that is written"),
    word!("put" "rm" "set" "cp" "pack" "rez" "texts", "backup", Form::Long("backup"), Values::Flag, rival: Some("output");
        "Keeps the old file as FILE~"),
    word!("convert", "to", Form::Long("to"), Values::One("KIND"), is_required: true;
        "The container: raw, appledouble, applesingle, macbinary or binhex"),
    word!("convert", "data", Form::Long("data"), Values::One("FILE");
        "The data fork, where it is a file of its own: read for an IN that is a fork alone or AppleDouble, and written for such an OUT"),
    word!("convert", "name", Form::Long("name"), Values::One("N");
        "The file's name, as ls shows names; else its own, or that of IN where OUT needs one"),
    word!("convert", "lossy", Form::Long("lossy"), Values::Flag;
        "Leaves out what the container can't hold, and names it"),
    word!("put" "rm" "set" "cp" "pack" "rez" "texts" "convert", "dry", Form::Short('n', "dry-run"), Values::Flag;
        "Says what would be done, and writes nothing"),
    word!("put" "rm" "set" "cp" "pack" "rez" "texts" "convert", "quiet", Form::Short('q', "quiet"), Values::Flag;
        "Doesn't say what was done"),
    word!("ls" "get" "info" "check" "salvage" "show" "unpack" "page" "find" "put" "rm" "set" "cp" "diff" "pack" "derez" "rez" "texts" "convert", "limit", Form::Long("limit"), Values::One("SIZE");
        "Refuses a file of more bytes than this: a number, which K, M or G after it counts in 1024s; else 1G"),
];

/// Their operands, in their order.
const OPERANDS: &[Word] = &[
    word!("ls" "info" "check" "page", "file", Form::Operand, Values::Many("FILE"), is_required: true;
        "The files; - is the standard input"),
    word!("find", "file", Form::Operand, Values::Many("FILE|DIR"), is_required: true;
        "The files, and folders of files; links below folders aren't followed"),
    word!("get" "salvage" "show" "unpack" "put" "rm" "set" "derez" "rez" "texts", "file", Form::Operand, Values::One("FILE"), is_required: true;
        "The file; - is the standard input"),
    word!("get" "put" "rm", "type", Form::Operand, Values::One("TYPE"), is_required: true;
        "The resource's type, as ls shows it (STR is 'STR ')"),
    word!("show", "type", Form::Operand, Values::One("TYPE");
        "Only resources of this type, as ls shows it (STR is 'STR ')"),
    word!("get", "key", Form::Operand, Values::One("ID|NAME"), is_required: true, dashes: Dashes::Numbers;
        "Its id, or its name; a name that is a number has double quotes"),
    word!("show", "key", Form::Operand, Values::One("ID|NAME"), dashes: Dashes::Numbers;
        "Only the one with this id, or this name"),
    word!("put", "id", Form::Operand, Values::One("ID"), is_required: true, dashes: Dashes::Numbers;
        "The resource's id, from -32768 to 32767"),
    word!("rm", "id", Form::Operand, Values::Many("ID"), is_required: true, dashes: Dashes::Numbers;
        "The ids of the resources, from -32768 to 32767"),
    word!("set", "old-type", Form::Operand, Values::One("TYPE"), is_required: true;
        "The resource's type, as ls shows it (STR is 'STR ')"),
    word!("set", "old-id", Form::Operand, Values::One("ID"), is_required: true, dashes: Dashes::Numbers;
        "The resource's id, from -32768 to 32767"),
    word!("unpack", "folder", Form::Operand, Values::One("DIR"), is_required: true;
        "The folder: a new one, or an empty one"),
    word!("pack", "folder", Form::Operand, Values::One("DIR"), is_required: true;
        "The folder"),
    word!("pack", "output", Form::Operand, Values::One("OUT");
        "The file that is written"),
    word!("cp", "from", Form::Operand, Values::One("FROM"), is_required: true;
        "The file that resources are copied from"),
    word!("cp", "words", Form::Operand, Values::Many("TYPE[:ID]|TO"), is_required: true;
        "Which resources, else all; and last the file that they are copied to"),
    word!("convert", "file", Form::Operand, Values::One("IN"), is_required: true;
        "The file that is read; - is the standard input"),
    word!("convert", "output", Form::Operand, Values::One("OUT"), is_required: true;
        "The file that is written"),
    word!("diff", "a", Form::Operand, Values::One("A"), is_required: true;
        "The first file"),
    word!("diff", "b", Form::Operand, Values::One("B"), is_required: true;
        "The second file"),
];

/// The forms of an option.
fn with_form<'a>(arg: Arg<'a>, form: Form) -> Arg<'a> {
    match form {
        Form::Operand => arg,
        Form::Long(long) => arg.long(long),
        Form::Short(short, long) => arg.long(long).short(short),
    }
}

/// The values of a word, where it has some.
fn with_values<'a>(arg: Arg<'a>, values: Values) -> Arg<'a> {
    match values {
        Values::Flag => arg.action(ArgAction::SetTrue),
        Values::One(name) => arg.value_name(name).action(ArgAction::Set),
        Values::Each(name) => arg.value_name(name).action(ArgAction::Append),
        Values::Many(name) => arg.value_name(name).num_args(1..).action(ArgAction::Append),
    }
}

/// Which values may begin with -.
fn with_dashes<'a>(arg: Arg<'a>, dashes: Dashes) -> Arg<'a> {
    match dashes {
        Dashes::Never => arg,
        Dashes::Numbers => arg.allow_negative_numbers(true),
        Dashes::Always => arg.allow_hyphen_values(true),
    }
}

/// A word, as clap takes it.
fn arg_of<'a>(alloc: Global, word: &Word) -> Result<Arg<'a>, AllocError> {
    let arg = Arg::new(alloc, word.name)
        .required(word.is_required)
        .help(word.help);
    let arg = with_form(arg, word.form);
    let arg = with_dashes(with_values(arg, word.values), word.dashes);
    match word.rival {
        Some(rival) => arg.conflicts_with(rival),
        None => Ok(arg),
    }
}

/// A command, without words.
fn bare_command<'a>(alloc: Global, text: &CommandText) -> Command<'a> {
    let command = Command::new(alloc, text.name).about(text.about);
    match text.long_about {
        Some(long) => command.long_about(long),
        None => command,
    }
}

/// A command with those of these words that are its own.
fn with_words<'a>(
    alloc: Global,
    command: Command<'a>,
    name: &str,
    words: &[Word],
) -> Result<Command<'a>, AllocError> {
    let mut command = command;
    for word in words {
        if word.commands.contains(&name) {
            command = command.arg(arg_of(alloc, word)?)?;
        }
    }
    Ok(command)
}

/// A command with its options.
fn with_options<'a>(
    alloc: Global,
    command: Command<'a>,
    name: &str,
) -> Result<Command<'a>, AllocError> {
    with_words(alloc, command, name, OPTIONS)
}

/// A command with its operands.
fn with_operands<'a>(
    alloc: Global,
    command: Command<'a>,
    name: &str,
) -> Result<Command<'a>, AllocError> {
    with_words(alloc, command, name, OPERANDS)
}

/// A command, with its words.
fn command_of<'a>(alloc: Global, text: &CommandText) -> Result<Command<'a>, AllocError> {
    let command = with_options(alloc, bare_command(alloc, text), text.name)?;
    with_operands(alloc, command, text.name)
}

/// The program, without commands.
fn bare_program<'a>(alloc: Global) -> Result<Command<'a>, AllocError> {
    Ok(
        Command::new(alloc, "resfork")
            .bin_name("resfork")?
            .version("0.1.0")
            .about(ABOUT)
            .after_long_help(EXAMPLES)
            .subcommand_required(true)
            .arg_required_else_help(true),
    )
}

/// The program, with its commands.
pub(crate) fn program<'a>(alloc: Global) -> Result<Command<'a>, AllocError> {
    let mut program = bare_program(alloc)?;
    for text in COMMANDS {
        program = program.subcommand(command_of(alloc, text)?)?;
    }
    Ok(program)
}
