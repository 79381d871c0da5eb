// The walk over a term that gives each term below it its flat term, and each load its byte.

ghost use Rattle.std.specs.Prelude.{◌≡◌, ◌<◌, ℕ, List, [], ◌∷◌, ◌++◌, length, replicate, get_or};
ghost use Rattle.std.specs.Prelude.{is_some, None, IfOk, OnOk};
ghost use Rattle.term_core_spec.specs.Term.{Term, open_term};
ghost use Rattle.term_bank.specs.Nodes.{IsNode, tree_at, Extends, AreDistinct};
ghost use Rattle.mem_terms_spec.specs.Flat.{byte_variable};
ghost use Rattle.mem_terms.specs.Ids.{IsTreeAt};
ghost use Rattle.mem_terms.specs.Walk.{variable_of, load_in, flat_id, replaced, visits};
ghost use Rattle.mem_terms.specs.Walk.{total_weight, IsEntered, IsReplaced, IsWalk, IsSomeWalk};

use crate::build::byte;
use crate::ids::LoadIds;
use attempt::attempt;
use std::alloc::{AllocError, Global};
use term_bank::{Bank, TermId, TermNode};
use term_core_spec::{Atom, BinaryOperator, Variable};

/// What is left to do at a term.
#[derive(Clone, Copy)]
pub enum Task {
    /// first its arguments, then the term
    Visit(TermId),
    /// the term itself, whose arguments have their flat terms
    Finish(TermId, TermNode),
}

/// A load of a variable.
#[derive(Clone, Copy)]
pub struct LoadNode {
    /// the memory
    pub memory: Variable,
    /// the index of the address
    pub address: TermId,
}

/// The walk so far.
#[derive(Drop)]
pub struct Walk {
    /// the index of each term's flat term, where it has one already
    done: Vec<Option<TermId>>,
    /// the loads that have their bytes
    loads: Vec<LoadIds>,
    /// what is left to do, the next last
    tasks: Vec<Task>,
}

/// The variable that a term is.
fn variable_at(bank: &Bank, id: TermId) -> Option<Variable>
    requires { id < length bank.now }
    ensures { result ≡ variable_of (tree_at bank.now id) }
{
    match bank.node(id) {
        TermNode::Leaf(Atom::Open(variable)) => Some(variable),
        _ => None,
    }
}

/// The load that a term is, where it is one of a variable.
fn load_in(bank: &Bank, node: TermNode) -> Option<LoadNode>
    requires { IsNode (length bank.now) node }
    ensures { result ≡ load_in bank.now node }
{
    match node {
        TermNode::Binary(BinaryOperator::Load, memory, address) => {
            let memory = variable_at(bank, memory)?;
            Some(LoadNode { memory, address })
        }
        _ => None,
    }
}

/// The index of a term's flat term.
fn flat_id(done: &[Option<TermId>], id: TermId) -> TermId
    requires { id < length done.now }
    ensures { result ≡ flat_id done.now id }
{
    done[id].unwrap_or(0)
}

/// A term over the flat terms of its arguments.
fn replaced(done: &[Option<TermId>], node: TermNode) -> TermNode
    requires { IsNode (length done.now) node }
    ensures { result ≡ replaced done.now node }
{
    match node {
        TermNode::Leaf(atom) => TermNode::Leaf(atom),
        TermNode::Unary(operator, a) => TermNode::Unary(operator, flat_id(done, a)),
        TermNode::Binary(operator, a, b) => {
            TermNode::Binary(operator, flat_id(done, a), flat_id(done, b))
        }
        TermNode::Ternary(operator, a, b, c) => {
            let (a, b) = (flat_id(done, a), flat_id(done, b));
            TermNode::Ternary(operator, a, b, flat_id(done, c))
        }
        TermNode::Quaternary(operator, a, b, c, d) => {
            let (a, b) = (flat_id(done, a), flat_id(done, b));
            TermNode::Quaternary(operator, a, b, flat_id(done, c), flat_id(done, d))
        }
        TermNode::Octonary(a, b, c, d, e, f, g, h) => {
            let (a, b) = (flat_id(done, a), flat_id(done, b));
            let (c, d) = (flat_id(done, c), flat_id(done, d));
            let (e, f) = (flat_id(done, e), flat_id(done, f));
            TermNode::Octonary(a, b, c, d, e, f, flat_id(done, g), flat_id(done, h))
        }
    }
}

/// Adds two terms to visit, the first on top.
fn push_two(tasks: &mut Vec<Task>, a: TermId, b: TermId) -> Result<(), AllocError>
    ensures { OnOk result (tasks.new.items ≡ tasks.old.items ++ Task.Visit b ∷ Task.Visit a ∷ []) }
{
    tasks.push(Task::Visit(b))?;
    tasks.push(Task::Visit(a))?;
    Ok(())
}

/// Adds four terms to visit, the first on top.
fn push_four(
    tasks: &mut Vec<Task>,
    a: TermId,
    b: TermId,
    c: TermId,
    d: TermId,
) -> Result<(), AllocError>
    ensures { OnOk result (tasks.new.items ≡ tasks.old.items ++ Task.Visit d ∷ Task.Visit c
        ∷ Task.Visit b ∷ Task.Visit a ∷ []) }
{
    attempt!(push_two(tasks, c, d));
    push_two(tasks, a, b)
}

/// Adds the arguments of a term to visit, the first on top.
fn push_arguments(tasks: &mut Vec<Task>, node: TermNode) -> Result<(), AllocError>
    ensures { OnOk result (tasks.new.items ≡ tasks.old.items ++ visits node) }
{
    match node {
        TermNode::Leaf(_) => Ok(()),
        TermNode::Unary(_, a) => {
            tasks.push(Task::Visit(a))?;
            Ok(())
        }
        TermNode::Binary(_, a, b) => push_two(tasks, a, b),
        TermNode::Ternary(_, a, b, c) => {
            tasks.push(Task::Visit(c))?;
            push_two(tasks, a, b)
        }
        TermNode::Quaternary(_, a, b, c, d) => push_four(tasks, a, b, c, d),
        TermNode::Octonary(a, b, c, d, e, f, g, h) => {
            attempt!(push_four(tasks, e, f, g, h));
            push_four(tasks, a, b, c, d)
        }
    }
}

/// So many terms that have no flat term.
fn nothing_done(alloc: Global, count: usize) -> Result<Vec<Option<TermId>>, AllocError>
    ensures { IfOk result (λ done. done.items ≡ replicate count None) }
{
    let mut done = Vec::new(alloc);
    for _i in 0..count {
        done.push(None)?;
    }
    Ok(done)
}

impl Walk {
    /// Nothing is done but to visit the goal.
    pub fn new(alloc: Global, bank: &Bank, goal: TermId) -> Result<Walk, AllocError>
        requires { goal < length bank.now }
        ensures { AreDistinct bank.now → IfOk result
            (λ w. IsWalk bank.now bank.now goal w.done.items w.loads.items w.tasks.items) }
    {
        let _count = bank.len();
        let done = nothing_done(alloc, goal + 1)?;
        let tasks = vec![in alloc; Task::Visit(goal)]?;
        Ok(Walk {
            done,
            loads: Vec::new(alloc),
            tasks,
        })
    }

    /// The index of a term's flat term.
    pub fn flat_id(&self, id: TermId) -> TermId
        requires { id < length self.now.done.items }
        ensures { result ≡ flat_id self.now.done.items id }
    {
        flat_id(&self.done, id)
    }

    /// The loads that have their bytes.
    pub fn into_loads(self) -> Vec<LoadIds>
        ensures { result.items ≡ self.loads.items }
    {
        let Walk { loads, .. } = self;
        loads
    }

    // Whether a term has its flat term.
    fn is_done(&self, id: TermId) -> bool
        requires { id < length self.now.done.items }
        ensures { result ≡ is_some (get_or self.now.done.items id None) }
    {
        self.done[id].is_some()
    }

    // First the arguments of a term, unless it is done.
    fn visit(&mut self, bank: &Bank, id: TermId) -> Result<(), AllocError>
        requires { IsSomeWalk bank.now self.old.done.items self.old.loads.items
            (self.old.tasks.items ++ Task.Visit id ∷ []) }
        ensures walked { (base : List Term) (goal : ℕ)
            → IsWalk base bank.now goal self.old.done.items self.old.loads.items
            (self.old.tasks.items ++ Task.Visit id ∷ [])
            → OnOk result (IsWalk base bank.now goal self.new.done.items self.new.loads.items
            self.new.tasks.items) }
        ensures lighter { OnOk result (total_weight self.new.tasks.items
            < total_weight (self.old.tasks.items ++ Task.Visit id ∷ [])) }
    {
        if !self.is_done(id) {
            let node = bank.node(id);
            self.tasks.push(Task::Finish(id, node))?;
            push_arguments(&mut self.tasks, node)?;
        }
        Ok(())
    }

    // Gives a load its byte.
    fn enter(&mut self, bank: &mut Bank, load: LoadNode) -> Result<TermId, AllocError>
        requires { load.address < length self.old.done.items }
        ensures tree { IfOk result (λ i. IsTreeAt bank.new i
            (open_term (byte_variable (length self.old.loads.items)))) }
        ensures loads { IfOk result (λ i. self.new.loads.items
            ≡ self.old.loads.items ++ record {
              memory = load.memory;
              address = flat_id self.old.done.items load.address;
              byte = i;
            } ∷ []) }
        ensures done { self.new.done.items ≡ self.old.done.items }
        ensures tasks { self.new.tasks.items ≡ self.old.tasks.items }
        ensures extends { Extends bank.old bank.new }
    {
        let byte = attempt!(byte(bank, self.loads.len()));
        let address = flat_id(&self.done, load.address);
        self.loads.push(LoadIds {
            memory: load.memory,
            address,
            byte,
        })?;
        Ok(byte)
    }

    // Gives a load its byte, as its flat term.
    fn finish_load(&mut self, bank: &mut Bank, id: TermId, load: LoadNode) -> Result<(), AllocError>
        requires id_within { id < length self.old.done.items }
        requires address_within { load.address < length self.old.done.items }
        ensures done { OnOk result (IsEntered bank.new self.old.done.items self.old.loads.items id
            load self.new.done.items self.new.loads.items) }
        ensures tasks { self.new.tasks.items ≡ self.old.tasks.items }
        ensures extends { Extends bank.old bank.new }
    {
        let new_id = attempt!(self.enter(bank, load));
        self.done[id] = Some(new_id);
        Ok(())
    }

    // Gives a term that is no load its flat term, over those of its arguments.
    fn finish_node(&mut self, bank: &mut Bank, id: TermId, node: TermNode) -> Result<(), AllocError>
        requires id_within { id < length self.old.done.items }
        requires node_within { IsNode (length self.old.done.items) node }
        requires replaced_within { IsNode (length bank.old) (replaced self.old.done.items node) }
        ensures done { OnOk result (IsReplaced bank.old bank.new self.old.done.items id node
            self.new.done.items) }
        ensures loads { self.new.loads.items ≡ self.old.loads.items }
        ensures tasks { self.new.tasks.items ≡ self.old.tasks.items }
        ensures extends { Extends bank.old bank.new }
    {
        let new_id = attempt!(bank.add(replaced(&self.done, node)));
        self.done[id] = Some(new_id);
        Ok(())
    }

    // Gives a term its flat term, unless it has it.
    fn finish(&mut self, bank: &mut Bank, id: TermId, node: TermNode) -> Result<(), AllocError>
        requires { IsSomeWalk bank.old self.old.done.items self.old.loads.items
            (self.old.tasks.items ++ Task.Finish id node ∷ []) }
        ensures walked { (base : List Term) (goal : ℕ)
            → IsWalk base bank.old goal self.old.done.items self.old.loads.items
            (self.old.tasks.items ++ Task.Finish id node ∷ [])
            → OnOk result (IsWalk base bank.new goal self.new.done.items self.new.loads.items
            self.new.tasks.items) }
        ensures lighter { OnOk result (total_weight self.new.tasks.items
            < total_weight (self.old.tasks.items ++ Task.Finish id node ∷ [])) }
        ensures extends { Extends bank.old bank.new }
    {
        if self.is_done(id) {
            return Ok(());
        }
        match load_in(bank, node) {
            Some(load) => self.finish_load(bank, id, load),
            None => self.finish_node(bank, id, node),
        }
    }

    // Does one task.
    fn turn(&mut self, bank: &mut Bank, task: Task) -> Result<(), AllocError>
        requires { IsSomeWalk bank.old self.old.done.items self.old.loads.items
            (self.old.tasks.items ++ task ∷ []) }
        ensures walked { (base : List Term) (goal : ℕ)
            → IsWalk base bank.old goal self.old.done.items self.old.loads.items
            (self.old.tasks.items ++ task ∷ [])
            → OnOk result (IsWalk base bank.new goal self.new.done.items self.new.loads.items
            self.new.tasks.items) }
        ensures lighter { OnOk result (total_weight self.new.tasks.items
            < total_weight (self.old.tasks.items ++ task ∷ [])) }
        ensures extends { Extends bank.old bank.new }
    {
        match task {
            Task::Visit(id) => self.visit(bank, id),
            Task::Finish(id, node) => self.finish(bank, id, node),
        }
    }

    /// Does all tasks.
    pub fn run(&mut self, bank: &mut Bank) -> Result<(), AllocError>
        requires { IsSomeWalk bank.old self.old.done.items self.old.loads.items
            self.old.tasks.items }
        ensures walked { (base : List Term) (goal : ℕ)
            → IsWalk base bank.old goal self.old.done.items self.old.loads.items
            self.old.tasks.items → OnOk result
            (IsWalk base bank.new goal self.new.done.items self.new.loads.items []) }
        ensures extends { Extends bank.old bank.new }
    {
        while let Some(task) = self.tasks.pop() {
            self.turn(bank, task)?;
        }
        Ok(())
    }
}
