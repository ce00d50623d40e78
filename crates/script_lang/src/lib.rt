//! What the lines of a script say: the calls that they make by name, and the answers that they queue; the variables of
//! a script, the values that they take, and the calls and answers that lines make with them; and the text of replies.
#![tactic(auto)]

mod answer;
mod call;
mod line;
mod literal;
mod printing;
mod reply;
mod table;
mod taken;
mod vars;

pub use answer::answer_of;
pub use call::resolve;
pub use line::{
    AnswerLine, CallLine, IdOperand, Line, MAX_CALLS, Name, NamedCall, NumberOperand,
    ReleasingName, Statement, WrittenAnswer, WrittenCall, WrittenCalls,
};
pub use printing::{NO_MEMORY, fault_line};
pub use reply::ReplyText;
pub use table::{
    BytesName, CallName, FileName, HandleName, KindName, NumberName, PlainName, ResourceHandleName,
    ResourceName, Signature, ThreeNumbersName, TwoNumbersName,
};
pub use taken::first_number;
pub use vars::{Vars, values_are_kept};
