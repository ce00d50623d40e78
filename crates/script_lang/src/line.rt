//! What the lines of a script say.

use crate::table::{
    BytesName, CallName, FileName, KindName, NumberName, PlainName, ResourceName, ThreeNumbersName,
    TwoNumbersName,
};
use mac_base::Span;
use mac_base::resource::ResType;
use std::marker::Model;

/// The name of a variable. A contract sees its place among the names of a script, in order of first assignment.
#[derive(Clone, Copy)]
pub struct Name(u32);

impl Model for Name {
    ghost use Rattle.std.specs.Prelude.{◌<◌, ℕ};
    ghost use Rattle.script_lang.specs.Names.{most_names};

    ghost Value = { ℕ };

    ghost view = { λ n. n.0 };

    ghost invariant = { λ n. n.0 < most_names };

    ghost inverse = { λ place. record { 0 = place } };
}

impl Name {
    ghost use Rattle.std.specs.Prelude.{◌≡◌, ◌<◌};
    ghost use Rattle.script_lang.specs.Names.{most_names};

    /// The name at this place.
    pub fn at(place: usize) -> Name
        requires { place < most_names }
        ensures { result ≡ place }
    {
        Name(place as u32)
    }

    /// The place of the name among all names of the script.
    pub fn place(self) -> u32
        ensures place { result ≡ self }
        ensures few { result < most_names }
    {
        self.0
    }
}

/// A number, or the value of a variable.
#[derive(Clone, Copy)]
pub enum NumberOperand {
    Number(u32),
    /// The value of a variable.
    Variable(Name),
}

/// The id of a resource, or the value of a variable.
#[derive(Clone, Copy)]
pub enum IdOperand {
    Id(i16),
    /// The value of a variable.
    Variable(Name),
}

/// A call with its operands as they are written.
#[derive(Drop)]
pub enum NamedCall<'a> {
    Plain(PlainName),
    Number(NumberName, NumberOperand),
    TwoNumbers(TwoNumbersName, NumberOperand, NumberOperand),
    ThreeNumbers(ThreeNumbersName, NumberOperand, NumberOperand, NumberOperand),
    /// A block and a start in it, a block and an offset in it, and a count.
    BlockMove(NumberOperand, NumberOperand, NumberOperand, NumberOperand, NumberOperand),
    /// A block, an offset in it, and bytes.
    Bytes(BytesName, NumberOperand, NumberOperand, Span<'a>),
    Resource(ResourceName, ResType, IdOperand),
    GetIndResource(ResType, NumberOperand),
    Kind(KindName, ResType),
    /// A handle, a type, an id and a name.
    AddResource(NumberOperand, ResType, IdOperand, Option<Span<'a>>),
    File(FileName, Option<NumberOperand>),
}

impl<'a> NamedCall<'a> {
    ghost use Rattle.std.specs.Prelude.{◌≡◌};
    ghost use Rattle.script_lang.specs.Lines.{name_of};

    /// The name of the call.
    pub fn name(&self) -> CallName
        ensures { result ≡ name_of self.now }
    {
        match self {
            NamedCall::Plain(call) => CallName::Plain(*call),
            NamedCall::Number(call, ..) => CallName::Number(*call),
            NamedCall::TwoNumbers(call, ..) => CallName::TwoNumbers(*call),
            NamedCall::ThreeNumbers(call, ..) => CallName::ThreeNumbers(*call),
            NamedCall::BlockMove(..) => CallName::BlockMove,
            NamedCall::Bytes(call, ..) => CallName::Bytes(*call),
            NamedCall::Resource(call, ..) => CallName::Resource(*call),
            NamedCall::GetIndResource(..) => CallName::GetIndResource,
            NamedCall::Kind(call, _) => CallName::Kind(*call),
            NamedCall::AddResource(..) => CallName::AddResource,
            NamedCall::File(call, _) => CallName::File(*call),
        }
    }
}

/// A line that makes a call, and may assign its first result.
#[derive(Drop)]
pub struct CallLine<'a> {
    pub assigned: Option<Name>,
    pub call: NamedCall<'a>,
}

/// The calls that an answer of the grow-zone procedure may make, by their names.
#[derive(Clone, Copy)]
pub enum ReleasingName {
    DisposeHandle,
    DisposePtr,
    EmptyHandle,
}

/// An answer has at most this many calls.
pub const MAX_CALLS: usize = 8;

/// A call of an answer as it is written.
#[derive(Clone, Copy)]
pub struct WrittenCall {
    pub call: ReleasingName,
    pub operand: NumberOperand,
}

/// The calls of an answer, first to last. A contract sees the list.
#[derive(Drop)]
pub struct WrittenCalls<'a> {
    calls: &'a [WrittenCall],
}

impl<'a> Model for WrittenCalls<'a> {
    ghost use Rattle.std.specs.Prelude.{List};
    ghost use Rattle.script_lang.specs.declared.line.WrittenCall.{WrittenCall};

    ghost Value = { List WrittenCall };

    ghost view = { λ c. c.calls.now };
}

impl<'a> WrittenCalls<'a> {
    ghost use Rattle.std.specs.Prelude.{◌≡◌};

    /// These calls.
    pub fn new(calls: &'a [WrittenCall]) -> WrittenCalls<'a>
        ensures { result ≡ calls.now }
    {
        WrittenCalls { calls }
    }

    /// The calls, first to last.
    pub fn as_slice(&self) -> &'a [WrittenCall]
        ensures { result.now ≡ self.now }
    {
        self.calls
    }
}

/// An answer of the grow-zone procedure as it is written: a value and calls.
#[derive(Drop)]
pub struct WrittenAnswer<'a> {
    pub value: NumberOperand,
    pub calls: WrittenCalls<'a>,
}

/// A line that queues an answer, which has at most eight calls. A contract sees the answer as it is written.
#[derive(Drop)]
pub struct AnswerLine<'a> {
    written: WrittenAnswer<'a>,
}

impl<'a> Model for AnswerLine<'a> {
    ghost use Rattle.std.specs.Prelude.{◌≤◌, length};
    ghost use Rattle.script_lang.specs.declared.line.WrittenAnswer.{WrittenAnswer};
    ghost use Rattle.script_lang.specs.Calls.{most_calls};

    ghost Value = { WrittenAnswer };

    ghost view = { λ a. a.written };

    ghost invariant = { λ a. length a.written.calls ≤ most_calls };
}

impl<'a> AnswerLine<'a> {
    ghost use Rattle.std.specs.Prelude.{◌≡◌, ◌≤◌, length};
    ghost use Rattle.script_lang.specs.Calls.{most_calls};

    /// The line that queues this answer.
    pub fn new(written: WrittenAnswer<'a>) -> AnswerLine<'a>
        requires { length written.calls ≤ most_calls }
        ensures { result ≡ written.entry }
    {
        AnswerLine { written }
    }

    /// Its value.
    pub fn value(&self) -> NumberOperand
        ensures { result ≡ self.now.value }
    {
        self.written.value
    }

    /// Its calls, first to last.
    pub fn calls(&self) -> &'a [WrittenCall]
        ensures calls { result.now ≡ self.now.calls }
        ensures few { length result.now ≤ most_calls }
    {
        self.written.calls.as_slice()
    }
}

/// What a line says.
#[derive(Drop)]
pub enum Statement<'a> {
    /// It makes a call.
    Call(CallLine<'a>),
    /// It queues an answer of the grow-zone procedure.
    Answer(AnswerLine<'a>),
}

/// A line of a script that says something. The first line of a script has the number 1.
#[derive(Drop)]
pub struct Line<'a> {
    pub number: u32,
    pub statement: Statement<'a>,
}
