//! Statements (6.8), and the declarations of locals among them (6.7).

ghost use Rattle.std.specs.Prelude.{◌≡◌, IfOk, map};
ghost use Rattle.std.specs.Option.{option_map};
ghost use Rattle.c_syntax_spec.specs.Unit as tree;
ghost use Rattle.c_syntax.specs.Expressions.{expression_of};
ghost use Rattle.c_syntax.specs.Simples.{value_of, simple_of};
ghost use Rattle.c_syntax.specs.Locals.{start_of, locals_of, label_of};
ghost use Rattle.c_syntax.specs.Statements.{Declares, States, statement_of, part_of, group_of};
ghost use Rattle.c_syntax.specs.Statements.{parts_in, groups_in};

use crate::expression::{Declarator, Expression, Specifiers, boxed};
use crate::simple::{Simple, Value};
use std::alloc::{AllocError, Global};

/// A declared local, and what it begins with.
#[derive(Drop)]
pub struct Local<'a> {
    /// Its name and type.
    pub declarator: Box<Declarator<'a>>,
    /// What it begins with, or nothing.
    pub value: Option<Box<Value<'a>>>,
}

/// The locals of one declaration.
#[derive(Drop)]
pub struct Locals<'a> {
    /// The specifiers, which all of them share.
    pub specifiers: Box<Specifiers<'a>>,
    /// The locals in order.
    pub locals: Vec<Box<Local<'a>>>,
}

/// How a `for` begins.
#[derive(Drop)]
pub enum ForStart<'a> {
    /// With nothing.
    Empty,
    /// With a declaration.
    Locals(Box<Locals<'a>>),
    /// With an expression statement.
    Simple(Box<Simple<'a>>),
}

/// A label of a `switch`. The last part is the offset of its keyword.
#[derive(Drop)]
pub enum Label<'a> {
    /// `case value:`
    Case(Box<Expression<'a>>, usize),
    /// `default:`
    Default(usize),
}

/// A statement. The last part of a variant is the offset of its first token.
#[derive(Drop)]
#[cycle(statements)]
pub enum Statement<'a> {
    /// `{ .. }`
    Block(Vec<Part<'a>>, usize),
    /// `;`
    Empty(usize),
    /// An expression statement.
    Perform(Box<Simple<'a>>),
    /// `break;`
    Break(usize),
    /// `continue;`
    Continue(usize),
    /// `return;`, `return value;`
    Return(Option<Box<Value<'a>>>, usize),
    /// `if (test) body`
    If(Box<Expression<'a>>, Box<Statement<'a>>, usize),
    /// `if (test) body else otherwise`
    IfElse(Box<Expression<'a>>, Box<Statement<'a>>, Box<Statement<'a>>, usize),
    /// `while (test) body`
    While(Box<Expression<'a>>, Box<Statement<'a>>, usize),
    /// `do body while (test);`
    Do(Box<Statement<'a>>, Box<Expression<'a>>, usize),
    /// `for (start; test; step) body`
    For(
        Box<ForStart<'a>>,
        Option<Box<Expression<'a>>>,
        Option<Box<Simple<'a>>>,
        Box<Statement<'a>>,
        usize,
    ),
    /// `switch (test) { .. }`
    Switch(Box<Expression<'a>>, Vec<Box<Group<'a>>>, usize),
}

/// A part of a block, or of a group of a `switch`.
#[derive(Drop)]
#[cycle(statements)]
pub enum Part<'a> {
    /// A declaration of locals.
    Locals(Box<Locals<'a>>),
    /// A statement.
    Statement(Box<Statement<'a>>),
}

/// Labels of a `switch`, one at least, and the parts after them, which only in the last group
/// may be none.
#[derive(Drop)]
#[cycle(statements)]
pub struct Group<'a> {
    /// The labels in order.
    pub labels: Vec<Label<'a>>,
    /// The parts in order.
    pub parts: Vec<Part<'a>>,
}

#[tactic(auto, using(crate::proofs::StatementViews::statement_views))]
impl<'a> Statement<'a> {
    /// `{ .. }`
    pub fn block(
        alloc: Global,
        parts: Vec<Part<'a>>,
        offset: usize,
    ) -> Result<Box<Statement<'a>>, AllocError>
        ensures { IfOk result (λ x. statement_of x.value
            ≡ tree.Block (parts_in parts.entry) offset) }
    {
        boxed(alloc, Statement::Block(parts, offset))
    }

    /// `;`
    pub fn empty(alloc: Global, offset: usize) -> Result<Box<Statement<'a>>, AllocError>
        ensures { IfOk result (λ x. statement_of x.value ≡ tree.Empty offset) }
    {
        boxed(alloc, Statement::Empty(offset))
    }

    /// An expression statement.
    pub fn perform(alloc: Global, simple: Box<Simple<'a>>) -> Result<Box<Statement<'a>>, AllocError>
        ensures { IfOk result (λ x. statement_of x.value ≡ tree.Perform
            (simple_of simple.entry.value)) }
    {
        boxed(alloc, Statement::Perform(simple))
    }

    /// `break;`
    pub fn break_at(alloc: Global, offset: usize) -> Result<Box<Statement<'a>>, AllocError>
        ensures { IfOk result (λ x. statement_of x.value ≡ tree.Break offset) }
    {
        boxed(alloc, Statement::Break(offset))
    }

    /// `continue;`
    pub fn continue_at(alloc: Global, offset: usize) -> Result<Box<Statement<'a>>, AllocError>
        ensures { IfOk result (λ x. statement_of x.value ≡ tree.Continue offset) }
    {
        boxed(alloc, Statement::Continue(offset))
    }

    /// `return;`, `return value;`
    pub fn return_at(
        alloc: Global,
        value: Option<Box<Value<'a>>>,
        offset: usize,
    ) -> Result<Box<Statement<'a>>, AllocError>
        ensures { IfOk result (λ x. statement_of x.value ≡ tree.Return
            (option_map (λ v. value_of v.value) value.entry) offset) }
    {
        boxed(alloc, Statement::Return(value, offset))
    }

    /// `if (test) body`
    pub fn if_only(
        alloc: Global,
        test: Box<Expression<'a>>,
        body: Box<Statement<'a>>,
        offset: usize,
    ) -> Result<Box<Statement<'a>>, AllocError>
        ensures { IfOk result (λ x. statement_of x.value ≡ tree.If (expression_of test.entry.value)
            (statement_of body.entry.value) offset) }
    {
        boxed(alloc, Statement::If(test, body, offset))
    }

    /// `if (test) body else otherwise`
    pub fn if_else(
        alloc: Global,
        test: Box<Expression<'a>>,
        body: Box<Statement<'a>>,
        otherwise: Box<Statement<'a>>,
        offset: usize,
    ) -> Result<Box<Statement<'a>>, AllocError>
        ensures { IfOk result (λ x. statement_of x.value ≡ tree.IfElse (expression_of
            test.entry.value) (statement_of body.entry.value) (statement_of otherwise.entry.value)
            offset) }
    {
        boxed(alloc, Statement::IfElse(test, body, otherwise, offset))
    }

    /// `while (test) body`
    pub fn while_loop(
        alloc: Global,
        test: Box<Expression<'a>>,
        body: Box<Statement<'a>>,
        offset: usize,
    ) -> Result<Box<Statement<'a>>, AllocError>
        ensures { IfOk result (λ x. statement_of x.value ≡ tree.While
            (expression_of test.entry.value) (statement_of body.entry.value) offset) }
    {
        boxed(alloc, Statement::While(test, body, offset))
    }

    /// `do body while (test);`
    pub fn do_loop(
        alloc: Global,
        body: Box<Statement<'a>>,
        test: Box<Expression<'a>>,
        offset: usize,
    ) -> Result<Box<Statement<'a>>, AllocError>
        ensures { IfOk result (λ x. statement_of x.value ≡ tree.Do (statement_of body.entry.value)
            (expression_of test.entry.value) offset) }
    {
        boxed(alloc, Statement::Do(body, test, offset))
    }

    /// `for (start; test; step) body`
    pub fn for_loop(
        alloc: Global,
        start: Box<ForStart<'a>>,
        test: Option<Box<Expression<'a>>>,
        step: Option<Box<Simple<'a>>>,
        body: Box<Statement<'a>>,
        offset: usize,
    ) -> Result<Box<Statement<'a>>, AllocError>
        ensures { IfOk result (λ x. statement_of x.value ≡ tree.For (start_of start.entry.value)
            (option_map (λ t. expression_of t.value) test.entry) (option_map
            (λ t. simple_of t.value) step.entry) (statement_of body.entry.value) offset) }
    {
        boxed(alloc, Statement::For(start, test, step, body, offset))
    }

    /// `switch (test) { .. }`
    pub fn switch(
        alloc: Global,
        test: Box<Expression<'a>>,
        groups: Vec<Box<Group<'a>>>,
        offset: usize,
    ) -> Result<Box<Statement<'a>>, AllocError>
        ensures { IfOk result (λ x. statement_of x.value ≡ tree.Switch
            (expression_of test.entry.value) (groups_in groups.entry) offset) }
    {
        boxed(alloc, Statement::Switch(test, groups, offset))
    }
}

// A part of a block or of a group.
#[tactic(auto, using(crate::proofs::StatementViews::statement_views))]
impl<'a> Part<'a> {
    /// A declaration as a part.
    pub fn declared(locals: Box<Locals<'a>>) -> Part<'a>
        ensures { part_of result ≡ Declares (locals_of locals.entry.value) }
    {
        Part::Locals(locals)
    }

    /// A statement as a part.
    pub fn stated(statement: Box<Statement<'a>>) -> Part<'a>
        ensures { part_of result ≡ States (statement_of statement.entry.value) }
    {
        Part::Statement(statement)
    }
}

#[tactic(auto, using(crate::proofs::StatementViews::statement_views))]
impl<'a> Group<'a> {
    /// Made of its parts.
    pub fn new(
        alloc: Global,
        labels: Vec<Label<'a>>,
        parts: Vec<Part<'a>>,
    ) -> Result<Box<Group<'a>>, AllocError>
        ensures { IfOk result (λ x. group_of x.value ≡ (
          map label_of labels.entry.items,
          parts_in
              parts.entry,
        )) }
    {
        boxed(alloc, Group { labels, parts })
    }
}
