// The values of the variables.

ghost use Rattle.std.specs.Prelude.{◌≡◌, IfOk, OnOk, OnErr, Some, if◌then◌else◌};
ghost use Rattle.term_core_spec.specs.declared.Variable.{Variable};
ghost use Rattle.term_core_spec.specs.Same.{same_variable};
ghost use Rattle.term_core_spec.specs.Value as spec;
ghost use Rattle.term_core.specs.Values.{value_of};
ghost use Rattle.term_core.specs.Assignment.{assignment_of, default_of, given_or_default};
ghost use Rattle.term_core.specs.Assignment.{is_of_sort};

use crate::memory::Memory;
use crate::value::Value;
use crate::words::{all_ones, bit_count};
use std::alloc::{AllocError, Global};
use std::collections::HashMap;
use term_core_spec::{Atom, Sort, Variable};

/// The values of the variables. A variable for which no value of its sort is listed is false, 0 or
/// the memory that is 0 everywhere.
#[derive(Drop)]
pub struct Assignment {
    values: HashMap<Variable, Value>,
}

// Whether a value is of the sort.
fn is_of_sort(sort: Sort, value: &Value) -> bool
    ensures { result ≡ is_of_sort sort value.now }
{
    match (sort, value) {
        (Sort::Truth, Value::Truth(_)) => true,
        (Sort::Word(w), Value::Number(v, number)) => {
            bit_count(*v) == bit_count(w) && *number <= all_ones(w)
        }
        (Sort::Memory, Value::Bytes(_)) => true,
        _ => false,
    }
}

fn default_of(alloc: Global, sort: Sort) -> Value
    ensures { value_of result ≡ default_of sort }
{
    match sort {
        Sort::Truth => Value::Truth(false),
        Sort::Word(width) => Value::Number(width, 0),
        Sort::Memory => Value::Bytes(Memory::new(alloc)),
    }
}

impl Assignment {
    /// Nothing is listed.
    pub fn new(alloc: Global) -> Assignment
        ensures { assignment_of result ≡ (λ v. default_of v.sort) }
    {
        Assignment {
            values: HashMap::new(alloc),
        }
    }

    /// Lists a value for a variable, which replaces one that was listed. Out of memory, nothing
    /// changes.
    pub fn set(&mut self, variable: Variable, value: Value) -> Result<(), AllocError>
        ensures ok { OnOk result ((v : Variable)
            → assignment_of self.new v ≡ (if same_variable variable v then given_or_default v.sort
            (Some value) else assignment_of self.old v)) }
        ensures err { OnErr result (assignment_of self.new ≡ assignment_of self.old) }
    {
        self.values.insert(variable, value)?;
        Ok(())
    }

    /// Each variable has a value of its sort.
    pub fn is_assignment(&self)
        ensures { spec.IsAssignment (assignment_of self.now) }
    {}

    /// The value of a variable.
    pub fn value(&self, alloc: Global, variable: Variable) -> Result<Value, AllocError>
        ensures { IfOk result (λ v. value_of v ≡ assignment_of self.now variable) }
    {
        match self.values.get(&variable) {
            Some(value) if is_of_sort(variable.sort, value) => value.copy(),
            _ => Ok(default_of(alloc, variable.sort)),
        }
    }

    /// The value of a term without arguments.
    pub fn atom(&self, alloc: Global, atom: Atom) -> Result<Value, AllocError>
        ensures { IfOk result (λ v. value_of v ≡ spec.value_of_atom (assignment_of self.now) atom) }
    {
        match atom {
            Atom::Truth(truth) => Ok(Value::Truth(truth)),
            Atom::Constant(width, number) => Ok(Value::Number(width, number)),
            Atom::Open(variable) => self.value(alloc, variable),
        }
    }
}
