// The question `obligations RULE | BINARY | SOURCE | WORDS`: the obligations of a rule at a frame
// that starts at node 0 of both graphs, which are as in `graphs`. A capital letter is a variable of
// the source. RULE is `leaf`, `case` or `cut` with a term, `binary` or `source` with a mark that is
// restricted, or `wait` with a node of the binary. WORDS are `given` with premises, `back` with the
// lines where both sides have returned, `goals` with a mark of each side for each goal, `there`
// with the lines at goals and holds, `bounds` and `others` with bounds of the binary and of the
// source, and `most` with the maximum of visits. Memories may differ from `-s8` to below `s`.
//
// A term is written as in `graphs`; `@` is the address, `$`, `%` and `^` are the memories of the
// binary, of the source and in the zone, `*` loads a byte, and `~` puts one memory over another.

use crate::conditions::add_known;
use crate::frames::{frame, run, setting};
use crate::graphs;
use crate::graphs::term;
use crate::walks::{mark, number};
use attempt::{Refusal, attempt};
use graph_core::{Graph, GraphRun};
use graph_core_spec::Mark;
use proof_tree::{Frame, Goal, Hold, Premise, Reachable, Start, Stop};
use proof_tree_spec::Nodes;
use row_io::{Out, split, split_at};
use sim_rules::{Rule, RuleFault, Setup, obligations};
use sim_rules_terms::{Convention, Known, Opening};
use std::alloc::{AllocError, Global};
use std::collections::HashMap;
use term_bank::{Bank, TermId};
use term_core::Term;

/// What a question says of a frame.
#[derive(Drop)]
struct Asked {
    given: Vec<Box<Term>>,
    back: Vec<Box<Term>>,
    there: Vec<Box<Term>>,
    goals: Vec<Mark>,
    bounds: Vec<Mark>,
    others: Vec<Mark>,
    most: usize,
}

fn bound(text: &str) -> Mark {
    let mark = mark(text);
    Mark {
        node: mark.node,
        count: mark.count,
    }
}

fn add_line(alloc: Global, lines: &mut Vec<Box<Term>>, word: &str) -> Result<(), AllocError> {
    let line = attempt!(term(alloc, word));
    attempt!(lines.push(line), AllocError);
    Ok(())
}

/// Adds what a word says, by the name before it.
fn add(alloc: Global, asked: &mut Asked, name: &str, word: &str) -> Result<(), AllocError> {
    match name {
        "given" => attempt!(add_line(alloc, &mut asked.given, word)),
        "back" => attempt!(add_line(alloc, &mut asked.back, word)),
        "there" => attempt!(add_line(alloc, &mut asked.there, word)),
        "goals" => attempt!(asked.goals.push(mark(word)), AllocError),
        "bounds" => attempt!(asked.bounds.push(bound(word)), AllocError),
        "others" => attempt!(asked.others.push(bound(word)), AllocError),
        _ => asked.most = number(word),
    }
    Ok(())
}

fn is_name(word: &str) -> bool {
    matches!(
        word,
        "given" | "back" | "there" | "goals" | "bounds" | "others" | "most"
    )
}

fn add_words(alloc: Global, asked: &mut Asked, text: &str) -> Result<(), AllocError> {
    let mut name = "most";
    for word in text.split(' ') {
        if is_name(word) {
            name = word;
        } else {
            attempt!(add(alloc, asked, name, word));
        }
    }
    Ok(())
}

fn add_premises<'a>(start: &mut Start<'a>, given: &'a [Box<Term>]) -> Result<(), AllocError> {
    for term in given {
        attempt!(start.add_premise(Premise { term, holds: true }));
    }
    Ok(())
}

fn add_bounds(start: &mut Start<'_>, asked: &Asked) -> Result<(), AllocError> {
    for bound in &asked.bounds {
        attempt!(start.add_binary_bound(*bound));
    }
    for bound in &asked.others {
        attempt!(start.add_source_bound(*bound));
    }
    Ok(())
}

fn stop(alloc: Global, run: &GraphRun<'_>, mark: Mark) -> Result<Stop, AllocError> {
    let at = attempt!(Reachable::new(alloc, run, mark.node));
    Ok(Stop {
        at,
        count: mark.count,
    })
}

fn add_goal<'a>(
    alloc: Global,
    frame: &mut Frame<'a>,
    binary: Mark,
    source: Mark,
    lines: &'a [Box<Term>],
) -> Result<(), AllocError> {
    let binary = attempt!(stop(alloc, &frame.binary, binary));
    let source = attempt!(stop(alloc, &frame.source, source));
    frame.add_goal(Goal {
        binary,
        source,
        relation: lines,
    })
}

fn add_goals<'a>(alloc: Global, frame: &mut Frame<'a>, asked: &'a Asked) -> Result<(), AllocError> {
    for i in 1..asked.goals.len() {
        if i % 2 == 1 {
            let (binary, source) = (asked.goals[i - 1], asked.goals[i]);
            let lines = asked.there.as_slice();
            attempt!(add_goal(alloc, frame, binary, source, lines));
        }
    }
    Ok(())
}

fn fill<'a>(alloc: Global, frame: &mut Frame<'a>, asked: &'a Asked) -> Result<(), AllocError> {
    attempt!(add_premises(&mut frame.start, asked.given.as_slice()));
    attempt!(add_bounds(&mut frame.start, asked));
    add_goals(alloc, frame, asked)
}

/// The rule that some words name, over its lines.
fn rule<'a>(text: &str, lines: &'a [Box<Term>], there: &'a [Box<Term>]) -> Rule<'a> {
    let (name, rest) = text.split_once(' ').unwrap_or((text, "0"));
    match (name, lines.first()) {
        ("case", Some(line)) => Rule::Case(line),
        ("cut", _) => Rule::Cut(&[], lines),
        ("binary", _) => Rule::RestrictBinary(bound(rest)),
        ("source", _) => Rule::RestrictSource(bound(rest)),
        ("wait", _) => Rule::Wait(Hold {
            nodes: Nodes {
                binary: number(rest),
                source: 0,
            },
            relation: there,
        }),
        _ => Rule::Leaf,
    }
}

fn add_lines(alloc: Global, lines: &mut Vec<Box<Term>>, text: &str) -> Result<(), AllocError> {
    for word in text.split(' ') {
        attempt!(add_line(alloc, lines, word));
    }
    Ok(())
}

/// The lines of a Case or a cut.
fn lines(alloc: Global, text: &str) -> Result<Vec<Box<Term>>, AllocError> {
    let mut lines = Vec::new(alloc);
    let (name, rest) = split(text, ' ');
    if name == "case" || name == "cut" {
        attempt!(add_lines(alloc, &mut lines, rest));
    }
    Ok(lines)
}

fn add_terms(out: &mut Out, bank: &Bank, terms: &[TermId]) {
    if terms.is_empty() {
        out.put("none");
    }
    let mut before = "";
    for term in terms {
        out.put(before);
        add_known(out, bank, *term);
        before = "; ";
    }
}

fn add_fault(out: &mut Out, fault: Refusal<RuleFault>) {
    match fault {
        Refusal::Fault(RuleFault::Sort(index)) => {
            out.put("sort ");
            out.show(&index);
        }
        Refusal::Fault(RuleFault::Cyclic(_, node)) => {
            out.put("cyclic ");
            out.show(&node);
        }
        Refusal::Fault(RuleFault::Large(_, _)) => out.put("large"),
        Refusal::NoMemory => out.fail(),
    }
}

/// Adds the obligations of a rule at a frame; the variables of both sides are themselves where it
/// starts.
fn add_found<'x>(
    alloc: Global,
    out: &mut Out,
    frame: &'x Frame<'x>,
    rule: Rule<'_>,
    convention: &'x Convention<'x>,
    maximum: usize,
) {
    let binary: Known = HashMap::new(alloc);
    let source: Known = HashMap::new(alloc);
    let mut bank = Bank::new(alloc);
    let opening = Opening {
        binary: &binary,
        source: &source,
    };
    let setup = Setup {
        frame,
        convention,
        opening,
        maximum,
    };
    match obligations(alloc, &setup, rule, &mut bank) {
        Ok(terms) => add_terms(out, &bank, terms.as_slice()),
        Err(fault) => add_fault(out, fault),
    }
}

fn add_of_frame(
    alloc: Global,
    out: &mut Out,
    frame: &Frame<'_>,
    rule: Rule<'_>,
    asked: &Asked,
) -> Result<(), AllocError> {
    let from = attempt!(term(alloc, "-s8"));
    let to = attempt!(term(alloc, "s"));
    let back = asked.back.as_slice();
    let convention = attempt!(Convention::new(alloc, &from, &to, back));
    add_found(alloc, out, frame, rule, &convention, asked.most);
    Ok(())
}

fn add_of_rule(
    alloc: Global,
    out: &mut Out,
    text: &str,
    frame: &Frame<'_>,
    asked: &Asked,
) -> Result<(), AllocError> {
    let lines = attempt!(lines(alloc, text));
    let rule = rule(text, lines.as_slice(), asked.there.as_slice());
    add_of_frame(alloc, out, frame, rule, asked)
}

fn add_of_graphs(
    alloc: Global,
    out: &mut Out,
    text: &str,
    binary: &[Graph],
    source: &[Graph],
    asked: &Asked,
) -> Result<(), AllocError> {
    let setting = setting(alloc);
    let mut frame = attempt!(frame(alloc, run(binary), run(source), &setting, &[]));
    attempt!(fill(alloc, &mut frame, asked));
    add_of_rule(alloc, out, text, &frame, asked)
}

fn add_of_words(
    alloc: Global,
    out: &mut Out,
    text: &str,
    words: &str,
    binary: &[Graph],
    source: &[Graph],
) -> Result<(), AllocError> {
    let mut asked = Asked {
        given: Vec::new(alloc),
        back: Vec::new(alloc),
        there: Vec::new(alloc),
        goals: Vec::new(alloc),
        bounds: Vec::new(alloc),
        others: Vec::new(alloc),
        most: 65_536,
    };
    attempt!(add_words(alloc, &mut asked, words));
    add_of_graphs(alloc, out, text, binary, source, &asked)
}

/// Adds the answer.
pub(crate) fn answer(alloc: Global, out: &mut Out, text: &str) -> Result<(), AllocError> {
    let (rule, rest) = split_at(text, " | ");
    let (binary, rest) = split_at(rest, " | ");
    let (source, words) = rest.split_once(" | ").unwrap_or((rest, "most 65536"));
    let binary = attempt!(graphs::read_alone(alloc, binary));
    let source = attempt!(graphs::read_alone(alloc, source));
    let (first, second) = (binary.as_slice(), source.as_slice());
    add_of_words(alloc, out, rule, words, first, second)
}
