// A walk over the terms below one, each after its arguments.

ghost use Rattle.std.specs.Prelude.{◌≡◌, ◌<◌, ◌⊎◌, ℕ, nat_eq, Some, None, Ok, IfOk, IfErr, OnOk};
ghost use Rattle.std.specs.Prelude.{MatchOption};
ghost use Rattle.std.specs.Map.{update};
ghost use Rattle.term_norm.specs.Nodes.{HasForms, HasLoads, IsOver};
ghost use Rattle.term_norm.specs.Walk.{form_at, IsWalk, Advances, IsStop};

use attempt::attempt;
use std::alloc::{AllocError, Global};
use std::collections::HashMap;
use term_bank::{TermId, TermNode};
use term_core_spec::{BinaryOperator, QuaternaryOperator, TernaryOperator, UnaryOperator};

/// Why a term has no form yet.
#[derive(Clone, Copy)]
pub enum Stop {
    /// that of this argument is needed first
    Needs(TermId),
    /// out of memory
    NoMemory,
}

impl From<AllocError> for Stop {
    ghost use Rattle.term_norm.specs.declared.walk.Stop.TheVariants.{NoMemory};

    ghost from_gives = { λ _ stop. stop ≡ NoMemory };

    fn from(_: AllocError) -> Self {
        Stop::NoMemory
    }
}

/// The forms of terms by their ids, as they are made: that of a term after those of its arguments.
/// An argument is before its term, so those that wait are each below the one before.
#[derive(Drop)]
pub struct Walk {
    /// the term at hand
    pub at: TermId,
    waiting: Vec<TermId>,
    forms: HashMap<TermId, TermId>,
}

impl Walk {
    /// Nothing is made, and the first term is at hand.
    pub fn new(alloc: Global, start: TermId) -> Walk
        ensures walk { IsWalk result start }
        ensures none { (id : ℕ) → form_at result id ≡ None }
    {
        Walk {
            at: start,
            waiting: Vec::new(alloc),
            forms: HashMap::new(alloc),
        }
    }

    // The form of an argument; where it isn't made, that it is needed.
    fn form(&self, id: TermId) -> Result<TermId, Stop>
        ensures found { IfOk result (λ form. form_at self.now id ≡ Some form) }
        ensures wanted { IfErr result (λ stop. (bound : ℕ) → id < bound
            → IsStop (form_at self.now) bound stop) }
    {
        match self.forms.get(&id) {
            Some(form) => Ok(*form),
            None => Err(Stop::Needs(id)),
        }
    }

    // An operator with one argument over its form.
    fn with_one(&self, operator: UnaryOperator, a: TermId) -> Result<TermNode, Stop>
        ensures { IsOver HasForms (form_at self.now) (TermNode.Unary operator a) result }
    {
        let x = attempt!(self.form(a));
        Ok(TermNode::Unary(operator, x))
    }

    // An operator with two arguments over their forms.
    fn with_two(&self, operator: BinaryOperator, a: TermId, b: TermId) -> Result<TermNode, Stop>
        ensures { IsOver HasForms (form_at self.now) (TermNode.Binary operator a b) result }
    {
        let x = attempt!(self.form(a));
        let y = attempt!(self.form(b));
        Ok(TermNode::Binary(operator, x, y))
    }

    // An operator with three arguments over their forms.
    fn with_three(
        &self,
        operator: TernaryOperator,
        a: TermId,
        b: TermId,
        c: TermId,
    ) -> Result<TermNode, Stop>
        ensures { IsOver HasForms (form_at self.now) (TermNode.Ternary operator a b c) result }
    {
        let x = attempt!(self.form(a));
        let y = attempt!(self.form(b));
        let z = attempt!(self.form(c));
        Ok(TermNode::Ternary(operator, x, y, z))
    }

    // The forms of four arguments; where one isn't made, that it is needed.
    fn four_forms(
        &self,
        a: TermId,
        b: TermId,
        c: TermId,
        d: TermId,
    ) -> Result<(TermId, TermId, TermId, TermId), Stop>
        ensures found { IfOk result (λ f. (form_at self.now a ≡ Some f.0)
            × (form_at self.now b ≡ Some f.1) × (form_at self.now c ≡ Some f.2)
            × (form_at self.now d ≡ Some f.3)) }
        ensures wanted { IfErr result (λ stop. (bound : ℕ) → (a < bound) × (b < bound)
            × (c < bound) × (d < bound) → IsStop (form_at self.now) bound stop) }
    {
        let x = attempt!(self.form(a));
        let y = attempt!(self.form(b));
        let z = attempt!(self.form(c));
        let w = attempt!(self.form(d));
        Ok((x, y, z, w))
    }

    // An operator with four arguments over their forms.
    fn with_four(
        &self,
        operator: QuaternaryOperator,
        a: TermId,
        b: TermId,
        c: TermId,
        d: TermId,
    ) -> Result<TermNode, Stop>
        ensures { IsOver HasForms (form_at self.now)
            (TermNode.Quaternary operator a b c d) result }
    {
        let (x, y, z, w) = attempt!(self.four_forms(a, b, c, d));
        Ok(TermNode::Quaternary(operator, x, y, z, w))
    }

    // Eight bytes over their forms.
    fn with_eight(
        &self,
        a: TermId,
        b: TermId,
        c: TermId,
        d: TermId,
        e: TermId,
        f: TermId,
        g: TermId,
        h: TermId,
    ) -> Result<TermNode, Stop>
        ensures { IsOver HasForms (form_at self.now)
            (TermNode.Octonary a b c d e f g h) result }
    {
        let (s, t, u, v) = self.four_forms(a, b, c, d)?;
        let (w, x, y, z) = self.four_forms(e, f, g, h)?;
        Ok(TermNode::Octonary(s, t, u, v, w, x, y, z))
    }

    /// A node over the forms of its arguments; where one isn't made, that it is needed.
    pub fn with_forms(&self, node: TermNode) -> Result<TermNode, Stop>
        ensures { IsOver HasForms (form_at self.now) node result }
    {
        match node {
            TermNode::Leaf(leaf) => Ok(TermNode::Leaf(leaf)),
            TermNode::Unary(operator, a) => self.with_one(operator, a),
            TermNode::Binary(operator, a, b) => self.with_two(operator, a, b),
            TermNode::Ternary(operator, a, b, c) => self.with_three(operator, a, b, c),
            TermNode::Quaternary(operator, a, b, c, d) => self.with_four(operator, a, b, c, d),
            TermNode::Octonary(a, b, c, d, e, f, g, h) => {
                self.with_eight(a, b, c, d, e, f, g, h)
            }
        }
    }

    // A store over the load of the memory below it.
    fn with_below(&self, m: TermId, a: TermId, b: TermId) -> Result<TermNode, Stop>
        ensures { IsOver HasLoads (form_at self.now)
            (TermNode.Ternary TernaryOperator.Store m a b) result }
    {
        let below = attempt!(self.form(m));
        Ok(TermNode::Ternary(TernaryOperator::Store, below, a, b))
    }

    // A choice over the loads of its memories.
    fn with_choices(&self, test: TermId, m: TermId, n: TermId) -> Result<TermNode, Stop>
        ensures { IsOver HasLoads (form_at self.now)
            (TermNode.Ternary TernaryOperator.Choose test m n) result }
    {
        let x = attempt!(self.form(m));
        let y = attempt!(self.form(n));
        Ok(TermNode::Ternary(TernaryOperator::Choose, test, x, y))
    }

    // An overlay over the loads of its memories.
    fn with_layers(&self, m: TermId, n: TermId, low: TermId, high: TermId) -> Result<TermNode, Stop>
        ensures { IsOver HasLoads (form_at self.now)
            (TermNode.Quaternary QuaternaryOperator.Over m n low high) result }
    {
        let lower = attempt!(self.form(m));
        let upper = attempt!(self.form(n));
        Ok(TermNode::Quaternary(QuaternaryOperator::Over, lower, upper, low, high))
    }

    /// A node over the loads of the memories that it is made of; where one isn't made, that it is
    /// needed.
    pub fn with_loads(&self, node: TermNode) -> Result<TermNode, Stop>
        ensures { IsOver HasLoads (form_at self.now) node result }
    {
        match node {
            TermNode::Ternary(operator, a, b, c) => match operator {
                TernaryOperator::Store => self.with_below(a, b, c),
                TernaryOperator::Choose => self.with_choices(a, b, c),
            },
            TermNode::Quaternary(operator, a, b, c, d) => match operator {
                QuaternaryOperator::Over => self.with_layers(a, b, c, d),
                QuaternaryOperator::Join => Ok(node),
            },
            _ => Ok(node),
        }
    }

    // Goes on with an argument of the term at hand, which waits.
    fn wait(&mut self, id: TermId) -> Result<(), AllocError>
        requires below { id < self.old.at }
        requires wanted { form_at self.old id ≡ None }
        ensures forms { OnOk result ((k : ℕ) → form_at self.new k ≡ form_at self.old k) }
        ensures on { OnOk result ((start : ℕ) → IsWalk self.old start
            → Advances self.old self.new start) }
    {
        self.waiting.push(self.at)?;
        self.at = id;
        Ok(())
    }

    // Notes the form of the term at hand, and goes on with the last that waits; the form, where
    // none does.
    fn note(&mut self, form: TermId) -> Result<Option<TermId>, AllocError>
        ensures forms { OnOk result ((k : ℕ)
            → form_at self.new k ≡ update nat_eq (form_at self.old) self.old.at (Some form) k) }
        ensures end { IfOk result (λ end. (start : ℕ) → IsWalk self.old start
            → MatchOption end (Advances self.old self.new start) (λ last. (last ≡ form)
            × (self.old.at ≡ start))) }
    {
        self.forms.insert(self.at, form)?;
        match self.waiting.pop() {
            Some(id) => {
                self.at = id;
                Ok(None)
            }
            None => Ok(Some(form)),
        }
    }

    /// Goes on by what was found for the term at hand: its form, or which argument it needs. The
    /// form of the first term, once that is made.
    pub fn take(&mut self, outcome: Result<TermId, Stop>) -> Result<Option<TermId>, AllocError>
        requires { IfErr outcome (IsStop (form_at self.old) self.old.at) }
        ensures forms { OnOk result ((k form : ℕ) → form_at self.new k ≡ Some form
            → (form_at self.old k ≡ Some form) ⊎ ((k ≡ self.old.at) × (outcome ≡ Ok form))) }
        ensures end { IfOk result (λ end. (start : ℕ) → IsWalk self.old start
            → MatchOption end (Advances self.old self.new start) (λ last. (outcome ≡ Ok last)
            × (self.old.at ≡ start))) }
    {
        match outcome {
            Ok(form) => self.note(form),
            Err(Stop::Needs(id)) => {
                attempt!(self.wait(id));
                Ok(None)
            }
            Err(Stop::NoMemory) => Err(AllocError),
        }
    }
}
