//! What is ready before the first line of a script is run.

ghost use Rattle.std.specs.Prelude.{◌≡◌, ℕ, List, [], Err, IfOk, IsErrOf};
ghost use Rattle.script_run.specs.Starting.{IsReady, Reads};

use crate::reading::NoScript;
use bumpalo::Bump;
use script_lang::{Line, ReplyText, Vars};
use script_text::{Fault, parse_script};
use std::alloc::Global;

/// The lines of a script, and room for variables and replies.
#[derive(Drop)]
pub struct Ready<'a> {
    pub script: Vec<Line<'a>>,
    pub variables: Vars,
    pub reply: ReplyText,
}

/// The lines of the script that was read, if it was, and room for its variables and replies.
pub fn make_ready<'a>(
    alloc: Global,
    arena: &'a Bump,
    read: &'a Result<Vec<u8>, NoScript>,
) -> Result<Ready<'a>, NoScript>
    ensures ready { (input : List ℕ) → Reads input read.now → IsReady input result }
    ensures variables { IfOk result (λ ready. ready.variables ≡ []) }
    ensures fault { IsErrOf result NoScript.ReadFault → IsErrOf read.now NoScript.ReadFault }
    ensures kept { read.now ≡ Err NoScript.ReadFault → result ≡ Err NoScript.ReadFault }
{
    let text = match read {
        Ok(text) => text,
        Err(why) => return Err(*why),
    };
    let script = match parse_script(alloc, arena, text) {
        Ok(script) => script,
        Err(Fault::Line(line, wrong)) => return Err(NoScript::BadLine(line, wrong)),
        Err(Fault::HostFull) => return Err(NoScript::HostFull),
    };
    Ok(Ready {
        script,
        variables: Vars::new(alloc)?,
        reply: ReplyText::new(alloc)?,
    })
}
