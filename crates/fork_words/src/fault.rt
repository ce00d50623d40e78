//! What is wrong with a word of the command line.

use thiserror::Error;

/// Why a word asks for nothing.
#[derive(Clone, Copy, Debug, Error)]
pub enum Fault {
    /// There is no command.
    #[error("no such command; see 'resfork --help'")]
    NoCommand,
    /// A type is none.
    #[error("a type has four bytes, as TEXT or 'STR '; write it as resfork ls shows it, with \\xHH for a byte that isn't a letter")]
    NoType,
    /// A resource is named by nothing that may be an id or a name.
    #[error("a resource is named by its id, from -32768 to 32767, or by its name, as resfork ls shows it, with \\xHH for a byte that isn't a letter")]
    NoKey,
    /// What `--data` has is no form of bytes, or the list isn't of JSON.
    #[error("--data takes base64, and goes with --json")]
    NoData,
    /// A list of types has no form in JSON.
    #[error("--types doesn't go with --json")]
    NoTypesJson,
    /// A resource's id is none.
    #[error("an id is a number from -32768 to 32767")]
    NoId,
    /// The standard input is named twice.
    #[error("the standard input can be read once: name a file in place of one -")]
    TwoInputs,
    /// What is read from the standard input has no place.
    #[error("what is read from the standard input is written to the file that -o names")]
    NoOutput,
    /// The file that is written isn't named, or two are.
    #[error("name one file: a new one, which is written (rez: --output OUT), or by --into FILE one that is there, whose other resources stay")]
    OnePlace,
    /// The standard input can't be changed in its place.
    #[error("--into names a file that is there, and the standard input is none")]
    IntoInput,
    /// An option goes with a file that is there, and a new one is named.
    #[error("--backup, --replace and --skip go with --into FILE")]
    NotInto,
    /// What says how a file is changed is there, and no lines are put.
    #[error("-o, --backup, -n and -q go with --put LINES")]
    NotPut,
    /// Texts are put into the standard input.
    #[error("--put changes a file that is there, and the standard input is none")]
    PutInput,
    /// A name is too long.
    #[error("a name has at most 255 bytes")]
    LongName,
    /// Attributes are none.
    #[error("--attrs takes words of sysHeap, purgeable, locked, protected, preload, changed, bit7 and bit0 with commas between them, or - for none; or +WORD and -WORD with commas between them")]
    NoAttributes,
    /// What `--nth` has is no count from 1 on.
    #[error("--nth takes a count from 1 on")]
    NoCount,
    /// What `--limit` has is no size.
    #[error("--limit takes a number of bytes, or one with K, M or G after it, which counts in 1024s")]
    NoSize,
    /// What `--to` has is no container.
    #[error("--to takes raw, appledouble, applesingle, macbinary or binhex")]
    NoContainer,
    /// What `--as` has is no form.
    #[error("--as takes text, hex, png or wav")]
    NoForm,
    /// The output's name ends as that of a picture or a sound which isn't made.
    #[error("no file of this ending is made: show writes texts (--as text), hexadecimal digits (--as hex), as OUT.png pictures, and as OUT.wav 'snd '; get writes the bytes of a resource as they are")]
    NoEnding,
}
