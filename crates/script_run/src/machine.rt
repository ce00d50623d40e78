//! What stays from one line of a script to the next.

ghost use Rattle.std.specs.Prelude.{◌≡◌, ◌≤◌, ◌⊎◌, [], ◌∷◌, ◌++◌, length, OnOk, OnErr};
ghost use Rattle.mac_base.specs.Heap.{new_heap};
ghost use Rattle.mac_base.specs.ZoneSizes.{ZoneSizes, shape_of};
ghost use Rattle.res_files.specs.Standing.{most_files};
ghost use Rattle.script_run.specs.Line.{start_of, assigned, CallDoes, IsTooLong, IsUnmade, LineDoes, OpensFirst, SameForks, StatementDoes, StopsAt};
ghost use Rattle.script_run.specs.Turns.{moment, stores_of};

use crate::counted::Counted;
use crate::moments::Moments;
use fork_disk::store::ForkStore;
use mac_base::error::HostFull;
use mac_base::zone_spec::ZoneSpec;
use mac_base::{Outcome, Reply};
use mem_calls::MemoryManager;
use res_files::ResourceFiles;
use script_lang::{
    CallLine, CallName, Line, Name, NumberName, ReplyText, Statement, Vars, answer_of,
    first_number, resolve,
};
use std::alloc::Global;
use toolbox::{AnswerQueue, Toolbox};

/// The toolbox, the variables of the script, and the answers of the grow-zone procedure that are queued.
pub struct Machine<S: ForkStore> {
    pub toolbox: Toolbox<S>,
    pub variables: Vars,
    pub answers: AnswerQueue,
}

impl<S: ForkStore> Machine<S> {
    /// A toolbox over a new zone and these stores, of which no file is open, no variables, and no answers.
    pub fn new(alloc: Global, memory: MemoryManager, variables: Vars, stores: Vec<S>) -> Machine<S>
        requires few { length stores.items ≤ most_files }
        requires nothing_lent { memory.heap.table.lent ≡ [] }
        requires no_variables { variables ≡ [] }
        ensures zone { (spec : ZoneSizes) → memory.shape ≡ shape_of spec → memory.heap ≡ new_heap (shape_of spec) spec.size → result ≡ start_of spec stores.items }
    {
        Machine {
            toolbox: Toolbox::open(alloc, memory, ResourceFiles::new(alloc, stores)),
            variables,
            answers: AnswerQueue::new(alloc),
        }
    }

    /// Opens file 1, and puts what that prints in place of the text. The moments before it and after it are noted, with
    /// what the writer has taken by then.
    pub fn open_first<W>(
        &mut self,
        text: &mut ReplyText,
        writer: &Counted<W>,
        moments: &mut Moments<S>,
    ) -> Result<(), HostFull>
        ensures notes { moments.new ≡ moments.old ++ moment writer.now.passed (stores_of self.old) ∷ moment writer.now.passed (stores_of self.new) ∷ [] }
        ensures opens { OnOk result (OpensFirst S.ForkStore self.old text.new self.new) }
        ensures unchanged { OnErr result (SameForks S.ForkStore (stores_of self.old) (stores_of self.new)) }
    {
        moments.note(writer, self);
        let opened = self.open_file(text);
        moments.note(writer, self);
        opened
    }

    /// Opens file 1, and puts what that prints in place of the text: the line of number 0 where it is refused.
    fn open_file(&mut self, text: &mut ReplyText) -> Result<(), HostFull>
        ensures opens { OnOk result (OpensFirst S.ForkStore self.old text.new self.new) }
        ensures unchanged { OnErr result (SameForks S.ForkStore self.old.toolbox.resources.stores self.new.toolbox.resources.stores) }
    {
        text.clear();
        match self.toolbox.open_first()? {
            Ok(_) => Ok(()),
            Err(code) => {
                let reply = Reply { outcome: Err(code) };
                text.put(0, CallName::Number(NumberName::OpenResFile), &reply, &[])
            }
        }
    }

    /// Ends the run: loans come back, and the stores are handed out.
    pub fn into_stores(self) -> Vec<S>
        ensures { result.items ≡ self.toolbox.resources.stores }
    {
        let Machine {
            toolbox,
            variables: _,
            answers: _,
        } = self;
        let (memory, files) = toolbox.finish();
        drop(memory);
        files.into_stores()
    }

    /// Makes the call of a line and assigns its first result, or queues its answer, and puts what it prints in place of
    /// the text. The moments before it and after it are noted, with what the writer has taken by then.
    pub fn run_line<W>(
        &mut self,
        line: &Line<'_>,
        text: &mut ReplyText,
        writer: &Counted<W>,
        moments: &mut Moments<S>,
    ) -> Result<(), HostFull>
        ensures notes { moments.new ≡ moments.old ++ moment writer.now.passed (stores_of self.old) ∷ moment writer.now.passed (stores_of self.new) ∷ [] }
        ensures does { OnOk result (LineDoes S.ForkStore self.old line.now text.new self.new) }
        ensures stops { OnErr result (StopsAt S.ForkStore self.old line.now.number line.now.statement self.new) }
    {
        moments.note(writer, self);
        let ran = self.run_statement(line.number, &line.statement, text);
        moments.note(writer, self);
        ran
    }

    /// Does what the line of this number says, and puts what it prints in place of the text.
    fn run_statement(
        &mut self,
        number: u32,
        statement: &Statement<'_>,
        text: &mut ReplyText,
    ) -> Result<(), HostFull>
        ensures does { OnOk result (StatementDoes S.ForkStore self.old number statement.now text.new self.new) }
        ensures stops { OnErr result (StopsAt S.ForkStore self.old number statement.now self.new) }
    {
        text.clear();
        match statement {
            Statement::Call(call) => self.run_call(number, call, text),
            Statement::Answer(answer) => self.answers.push(answer_of(answer, &self.variables)),
        }
    }

    /// Makes the call of the line of this number, assigns its first result, and puts what it prints in place of the
    /// text.
    fn run_call(
        &mut self,
        number: u32,
        line: &CallLine<'_>,
        text: &mut ReplyText,
    ) -> Result<(), HostFull>
        ensures does { OnOk result (CallDoes S.ForkStore self.old number line.now text.new self.new) }
        ensures stops { OnErr result (IsUnmade S.ForkStore self.old line.now self.new ⊎ IsTooLong S.ForkStore self.old number line.now self.new) }
    {
        let call = resolve(line, &self.variables);
        let reply = self.toolbox.step_queued(&call, &mut self.answers)?;
        assign(&mut self.variables, line.assigned, first_number(&reply));
        text.put(
            number,
            line.call.name(),
            &reply,
            self.answers.asked().as_slice(),
        )
    }
}

/// Gives a value to the variable that a line assigns, if it assigns one.
fn assign(variables: &mut Vars, name: Option<Name>, value: u32)
    ensures { variables.new ≡ assigned name value variables.old }
{
    if let Some(name) = name {
        variables.assign(name, value);
    }
}
