//! The answers of the grow-zone procedure that lines queue.

ghost use Rattle.std.specs.Prelude.{◌≡◌};
ghost use Rattle.script_lang.specs.Answers.{releasing_with, answer_with};

use crate::call::number_of;
use crate::line::{AnswerLine, ReleasingName, WrittenCall};
use crate::vars::Vars;
use mac_base::Answer;
use mac_base::handle::{Handle, Ptr};
use mac_base::releasing::ReleasingCall;

/// A call of an answer, with the value that its operand has now.
fn releasing_call(written: &WrittenCall, vars: &Vars) -> ReleasingCall
    ensures { result ≡ releasing_with vars.now written.now }
{
    let number = number_of(written.operand, vars);
    match written.call {
        ReleasingName::DisposeHandle => ReleasingCall::DisposesHandle(Handle::new(number)),
        ReleasingName::DisposePtr => ReleasingCall::DisposesPtr(Ptr::new(number)),
        ReleasingName::EmptyHandle => ReleasingCall::Empties(Handle::new(number)),
    }
}

/// The answer that a line queues, with the values that its operands have now.
pub fn answer_of(line: &AnswerLine<'_>, vars: &Vars) -> Answer
    ensures { result ≡ answer_with vars.now line.now }
{
    let mut calls = [None; 8];
    for (place, written) in line.calls().iter().enumerate() {
        calls[place] = Some(releasing_call(written, vars));
    }
    Answer::new(calls, number_of(line.value(), vars))
}
