//! The tests of the cases of a `switch`.

ghost use Rattle.std.specs.Prelude.{◌≡◌, ◌<◌, ◌++◌, OnOk, length, map};
ghost use Rattle.term_core_spec.specs.Term as tree;
ghost use Rattle.term_bank.specs.Nodes.{tree_at};
ghost use Rattle.c_types_spec.specs.declared.Scalar as scalar;
ghost use Rattle.c_types_spec.specs.Core as core;
ghost use Rattle.c_types_core.specs.Expressions.{core_of};
ghost use Rattle.c_graph_spec.specs.State as state;
ghost use Rattle.c_graph_spec.specs.Layout as spec;
ghost use Rattle.c_graph_layout.specs.Exits.{exits_of};
ghost use Rattle.c_graph_layout.specs.Lists.{groups_of};
ghost use Rattle.c_graph_terms.specs.Built.{Builds};
ghost use Rattle.c_graph_terms.specs.Tables.{AreWithin};
ghost use Rattle.c_graph_terms.specs.Tests.{AddsTests};
ghost use Rattle.c_graph.specs.Bound.{Compares};
ghost use Rattle.c_graph.specs.Emitted.{Emits};
ghost use Rattle.c_graph.specs.Frames.{setting_in};
ghost use Rattle.c_graph.specs.Seen.{cases_in, case_tests};

use crate::cases::{Case, all_cases};
use crate::drafts::value;
use crate::emission::chain;
use crate::frame::Frame;
use crate::imports::{add_node, import, mapped};
use crate::places::CasePlaces;
use attempt::attempt;
use c_graph_layout::{Exits, first};
use c_graph_terms::{build, value_atom};
use c_types_core::action::Group;
use c_types_core::constants::type_of;
use c_types_core::counts::sum;
use c_types_core::expression::Core;
use c_types_spec::Scalar;
use graph_core::{Graph, SharedNode};
use graph_core_spec::Next;
use std::alloc::{AllocError, Global};
use term_bank::{Bank, TermId, TermNode};
use term_core_spec::BinaryOperator;

/// A word is that of a value.
fn compare_one(
    alloc: Global,
    bank: &mut Bank,
    of: Scalar,
    word: TermId,
    value: i128,
) -> Result<TermId, AllocError>
    requires { word < length bank.old }
    ensures { Builds bank.old bank.new result
        (tree.equal (tree_at bank.old word) (state.value_constant of value)) }
{
    let atom = attempt!(value_atom(of, value));
    let nodes = [
        TermNode::Leaf(atom),
        TermNode::Binary(BinaryOperator::Equal, 0, 1),
    ];
    build(alloc, bank, &[word], &nodes)
}

/// Adds, for each case, whether a word is that of its value.
fn compare(
    alloc: Global,
    bank: &mut Bank,
    found: &mut Vec<TermId>,
    of: Scalar,
    word: TermId,
    cases: &[Case],
) -> Result<(), AllocError>
    requires { word < length bank.old }
    ensures { AddsTests bank.old bank.new found.old.items found.new.items result
        (case_tests of (tree_at bank.old word) (cases_in cases.now)) }
{
    for case in cases {
        let id = attempt!(compare_one(alloc, bank, of, word, case.value));
        found.push(id)?;
    }
    Ok(())
}

/// The tests of guards of the test of a `switch`, and those of the cases.
fn compare_all(
    frame: &Frame<'_, '_>,
    bank: &mut Bank,
    tests: &mut Vec<TermId>,
    found: &mut Vec<TermId>,
    x: &Core<'_>,
    cases: &[Case],
) -> Result<(), AllocError>
    ensures { OnOk result (Compares bank.old bank.new tests.old.items tests.new.items
        found.old.items found.new.items (spec.tests_in (setting_in frame.now) (core_of x.now))
        (case_tests (core.type_of (core_of x.now))
        (spec.value_in (setting_in frame.now) (core_of x.now)) (cases_in cases.now))) }
{
    let value = attempt!(value(frame, bank, tests, x));
    compare(frame.alloc, bank, found, type_of(x), value.word, cases)
}

/// Adds the tests of the cases from a number on: each leads to its case or to the next, and the
/// last to `otherwise`.
fn choices(
    graph: &mut Graph,
    tests: &[TermId],
    cases: &[Case],
    at: usize,
    otherwise: Next,
) -> Result<(), AllocError>
    requires many { length tests.now ≡ length cases.now }
    requires within { AreWithin (length graph.old.trees) tests.now }
    ensures { (of : scalar.Scalar) (x : tree.Term)
        → map (tree_at graph.old.trees) tests.now ≡ case_tests of x (cases_in cases.now)
        → Emits graph.old graph.new result
        (spec.selection of x (cases_in cases.now) at otherwise) }
{
    let end = attempt!(sum(at, cases.len()));
    for i in 0..cases.len() {
        let left = cases.len() - i - 1;
        let node = SharedNode::Cond {
            test: tests[i],
            on_true: cases[i].next,
            on_false: first(left, end - left, otherwise),
        };
        attempt!(add_node(graph, node));
    }
    Ok(())
}

/// Adds tests of guards and those of the cases, which are written over a bank.
fn select_under(
    alloc: Global,
    graph: &mut Graph,
    ids: &[TermId],
    tests: &[TermId],
    found: &[TermId],
    cases: &[Case],
    at: usize,
    places: CasePlaces,
) -> Result<(), AllocError>
    requires many { length found.now ≡ length cases.now }
    requires ids { AreWithin (length graph.old.trees) ids.now }
    requires tests { AreWithin (length ids.now) tests.now }
    requires found { AreWithin (length ids.now) found.now }
    ensures { (of : scalar.Scalar) (x : tree.Term)
        → map (tree_at (map (tree_at graph.old.trees) ids.now)) found.now
        ≡ case_tests of x (cases_in cases.now)
        → Emits graph.old graph.new result
        (spec.chain (map (tree_at (map (tree_at graph.old.trees) ids.now)) tests.now) at
        places.selection ++ spec.selection of x (cases_in cases.now) places.tests
        places.otherwise) }
{
    let tests = attempt!(mapped(alloc, ids, tests));
    let found = attempt!(mapped(alloc, ids, found));
    attempt!(chain(graph, tests.as_slice(), at, places.selection));
    choices(
        graph,
        found.as_slice(),
        cases,
        places.tests,
        places.otherwise,
    )
}

/// The tests of the guards of the test of a `switch`, and then those of its cases.
pub(crate) fn select(
    frame: &Frame<'_, '_>,
    graph: &mut Graph,
    x: &Core<'_>,
    cases: &[Case],
    at: usize,
    places: CasePlaces,
) -> Result<(), AllocError>
    ensures { Emits graph.old graph.new result
        (spec.chain (spec.tests_in (setting_in frame.now) (core_of x.now)) at places.selection
        ++ spec.selection (core.type_of (core_of x.now))
        (spec.value_in (setting_in frame.now) (core_of x.now)) (cases_in cases.now) places.tests
        places.otherwise) }
{
    let mut bank = Bank::new(frame.alloc);
    let mut tests = Vec::new(frame.alloc);
    let mut found = Vec::new(frame.alloc);
    attempt!(compare_all(frame, &mut bank, &mut tests, &mut found, x, cases));
    let ids = attempt!(import(frame.alloc, graph, &bank));
    select_under(
        frame.alloc,
        graph,
        ids.as_slice(),
        tests.as_slice(),
        found.as_slice(),
        cases,
        at,
        places,
    )
}

/// The tests of a `switch`: those of the guards of its test, and those of its cases.
pub(crate) fn select_cases(
    frame: &Frame<'_, '_>,
    graph: &mut Graph,
    list: &[Group<'_>],
    x: &Core<'_>,
    at: usize,
    places: CasePlaces,
    to: Next,
    exits: Exits,
) -> Result<(), AllocError>
    ensures { Emits graph.old graph.new result
        (spec.chain (spec.tests_in (setting_in frame.now) (core_of x.now)) at places.selection
        ++ spec.selection (core.type_of (core_of x.now))
        (spec.value_in (setting_in frame.now) (core_of x.now))
        (spec.cases_of (setting_in frame.now) (groups_of list.now) places.groups to
        (exits_of exits)) places.tests places.otherwise) }
{
    let found = attempt!(all_cases(frame.alloc, list, places.groups, to, exits));
    select(frame, graph, x, found.as_slice(), at, places)
}
