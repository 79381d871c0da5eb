// The visit of a term, step by step.

ghost use Rattle.std.specs.Prelude.{◌≡◌, ◌<◌, ◌≤◌, ◌++◌, ◌∷◌, [], length, IfOk, OnOk};
ghost use Rattle.term_bank.specs.Nodes.{tree_at};
ghost use Rattle.bit_blast_spec.specs.Goal.{visit};
ghost use Rattle.bit_blast.specs.Within.{BuiltWithin};
ghost use Rattle.bit_blast.specs.Indices.{AreIndices, IsIndexed};
ghost use Rattle.bit_blast.specs.Tasks as spec;
ghost use Rattle.bit_blast.specs.Turns.{Consistent, Turned};

use crate::entry::index_for;
use crate::indices::{children, moved};
use crate::state::{Task, Traversal};
use crate::table::TermTable;
use attempt::attempt;
use bit_blast_circuits::Gates;
use std::alloc::{AllocError, Global};
use std::collections::HashMap;
use term_bank::{Bank, TermId, TermNode};

/// Pushes the visits of some terms, of which the first comes last and so is the next.
fn push_visits(tasks: &mut Vec<Task>, mut ids: Vec<TermId>) -> Result<(), AllocError>
    ensures { OnOk result (tasks.new.items ≡ tasks.old.items ++ spec.visits_of ids.items) }
{
    'ids: while let Some(id) = ids.pop() {
        attempt!(tasks.push(Task::Visit(id)), AllocError);
    }
    Ok(())
}

impl Traversal {
    // The visit of a term: nothing where it has its index, else the visits of its arguments and
    // then its entry.
    fn visit(&mut self, alloc: Global, bank: &Bank, id: TermId) -> Result<(), AllocError>
        requires { Consistent bank.now self.old.indices self.old.table
            (self.old.tasks.items ++ Task.Visit id ∷ []) }
        ensures { OnOk result (Turned bank.now self.old (self.old.tasks.items ++ Task.Visit id
            ∷ []) self.new) }
    {
        if self.indices.contains_key(&id) {
            return Ok(());
        }
        let node = bank.node(id);
        let ids = attempt!(children(alloc, node));
        attempt!(self.tasks.push(Task::Finish(id, node)), AllocError);
        attempt!(push_visits(&mut self.tasks, ids));
        Ok(())
    }

    // The entry of a term whose arguments have their indices: nothing is made where the term is
    // there already.
    fn finish(
        &mut self,
        alloc: Global,
        _bank: &Bank,
        id: TermId,
        node: TermNode,
    ) -> Result<(), AllocError>
        requires { Consistent _bank.now self.old.indices self.old.table
            (self.old.tasks.items ++ Task.Finish id node ∷ []) }
        ensures { OnOk result (Turned _bank.now self.old
            (self.old.tasks.items ++ Task.Finish id node ∷ []) self.new) }
    {
        let own = moved(&self.indices, node);
        let index = attempt!(index_for(alloc, &mut self.gates, &mut self.table, own));
        attempt!(self.indices.insert(id, index), AllocError);
        Ok(())
    }

    fn turn(&mut self, alloc: Global, bank: &Bank, task: Task) -> Result<(), AllocError>
        requires { Consistent bank.now self.old.indices self.old.table (self.old.tasks.items ++ task
            ∷ []) }
        ensures { OnOk result (Turned bank.now self.old (self.old.tasks.items ++ task
            ∷ []) self.new) }
    {
        match task {
            Task::Visit(id) => self.visit(alloc, bank, id),
            Task::Finish(id, node) => self.finish(alloc, bank, id, node),
        }
    }
}

/// Visits a term, after some gates, until there are more variables than the maximum.
pub(crate) fn traversal(
    alloc: Global,
    bank: &Bank,
    gates: Gates,
    goal: TermId,
    maximum: usize,
) -> Result<Traversal, AllocError>
    requires { goal < length bank.now }
    ensures built { IfOk result (λ traversal. BuiltWithin maximum
        (visit (tree_at bank.now goal) []) gates traversal.table traversal.gates) }
    ensures indices { IfOk result (λ traversal. AreIndices bank.now traversal.indices
        traversal.table) }
    ensures indexed { IfOk result (λ traversal. traversal.gates.variables ≤ maximum
        → IsIndexed traversal.indices goal) }
{
    let mut tasks = Vec::new(alloc);
    attempt!(tasks.push(Task::Visit(goal)), AllocError);
    let mut traversal = Traversal {
        gates,
        table: TermTable::new(alloc),
        indices: HashMap::new(alloc),
        tasks,
    };
    'tasks: while let Some(task) = traversal.tasks.pop() {
        if traversal.gates.last() > maximum {
            return Ok(traversal);
        }
        attempt!(traversal.turn(alloc, bank, task));
    }
    Ok(traversal)
}
