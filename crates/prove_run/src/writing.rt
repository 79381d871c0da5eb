//! The certificate of the functions that are proved.

ghost use Rattle.std.specs.Prelude.{◌≡◌, ◌<◌, ◌∷◌, ◌++◌, [], IfErr, IfOk, List, OnOk, false};
ghost use Rattle.std.specs.Prelude.{length, map};
ghost use Rattle.cert_text_spec.specs.Lines as lines;
ghost use Rattle.cert_text_parse.specs.Views.{is_step, line_of};
ghost use Rattle.cert_text.specs.Certificates.{certificate_of};
ghost use Rattle.cert_check_spec.specs.Verdict as spec;
ghost use Rattle.cert_check_frames.specs.Listed.{AreListed};
ghost use Rattle.prove_run_spec.specs.Written.{log_lines, logs_lines, part_lines, proof_lines};
ghost use Rattle.prove_run.specs.Found.{found_of, logs_of};
ghost use Rattle.prove_run.specs.Written.{AddsLines, AddsLiterals, part_of, parts_of};

use crate::trail::Found;
use attempt::attempt;
use cert_check_frames::Listed;
use cert_text::Cert;
use cert_text_parse::{Line, Literal as Written, Logs, Part};
use cnf_core::Literal;
use sat_search_analysis::Step;
use std::alloc::{AllocError, Global};

// A number of a certificate. What has more than 2^32 - 1 parts doesn't fit in memory.
fn number(count: usize) -> Result<u32, AllocError>
    ensures number { IfOk result (λ number. number ≡ count) }
    ensures large { IfErr result (λ error. 4294967295 < count) }
{
    if count <= u32::MAX as usize {
        Ok(count as u32)
    } else {
        Err(AllocError)
    }
}

// ---- lines

// Adds the literals of a step.
fn add_literals(written: &mut Vec<Written>, literals: &[Literal]) -> Result<(), AllocError>
    ensures { OnOk result (AddsLiterals written.old.items written.new.items literals.now) }
{
    for index in 0..literals.len() {
        let literal = literals[index];
        let one = Written {
            variable: literal.variable() as u32,
            is_negated: literal.is_negated(),
        };
        attempt!(written.push(one), AllocError);
    }
    Ok(())
}

// Adds the hints of a step.
fn add_hints(written: &mut Vec<u32>, hints: &[usize]) -> Result<(), AllocError>
    ensures { OnOk result (written.new.items ≡ written.old.items ++ hints.now) }
{
    for hint in hints {
        let one = attempt!(number(*hint));
        attempt!(written.push(one), AllocError);
    }
    Ok(())
}

// Adds a line that is no step.
fn add_line(cert: &mut Cert, line: Line) -> Result<(), AllocError>
    requires { is_step line ≡ false }
    ensures { OnOk result (AddsLines cert.old cert.new (line_of line ∷ [])) }
{
    attempt!(cert.lines.push(line), AllocError);
    Ok(())
}

// Adds a step.
fn add_step(cert: &mut Cert, step: &Step) -> Result<(), AllocError>
    ensures { OnOk result (AddsLines cert.old cert.new (lines.LogStep step.now ∷ [])) }
{
    attempt!(add_literals(&mut cert.logs.literals, step.literals()));
    attempt!(add_hints(&mut cert.logs.hints, step.hints()));
    let line = Line::Step(step.literals().len(), step.hints().len());
    attempt!(cert.lines.push(line), AllocError);
    Ok(())
}

// Adds the steps of a log.
fn add_steps(cert: &mut Cert, log: &[Step]) -> Result<(), AllocError>
    ensures { OnOk result (AddsLines cert.old cert.new (map lines.LogStep log.now)) }
{
    for index in 0..log.len() {
        attempt!(add_step(cert, &log[index]));
    }
    Ok(())
}

// Adds a log.
fn add_log(cert: &mut Cert, log: &[Step]) -> Result<(), AllocError>
    ensures { OnOk result (AddsLines cert.old cert.new (log_lines log.now)) }
{
    let steps = attempt!(number(log.len()));
    attempt!(add_line(cert, Line::Log(steps)));
    add_steps(cert, log)
}

// Adds the logs of a function.
fn add_logs(cert: &mut Cert, logs: &[Vec<Step>]) -> Result<(), AllocError>
    ensures { OnOk result (AddsLines cert.old cert.new (logs_lines (logs_of logs.now))) }
{
    for index in 0..logs.len() {
        attempt!(add_log(cert, logs[index].as_slice()));
    }
    Ok(())
}

// ---- parts

// Adds the line with which a part begins.
fn add_function(alloc: Global, cert: &mut Cert, name: &[u8], stack: u32) -> Result<(), AllocError>
    ensures { OnOk result (AddsLines cert.old cert.new (lines.Function name.now stack ∷ [])) }
{
    let name = attempt!(Vec::from_slice(alloc, name), AllocError);
    let part = attempt!(Box::new(alloc, Part { name, stack }), AllocError);
    add_line(cert, Line::Function(part))
}

// Adds the part of a function.
fn add_part(
    alloc: Global,
    cert: &mut Cert,
    function: &Listed<'_>,
    logs: &[Vec<Step>],
) -> Result<(), AllocError>
    ensures { OnOk result (AddsLines cert.old cert.new (part_lines function.now.name.now
        function.now.stack (logs_of logs.now))) }
{
    let count = attempt!(number(logs.len()));
    attempt!(add_function(alloc, cert, function.name, function.stack));
    attempt!(add_line(cert, Line::Leaf(count)));
    add_logs(cert, logs)
}

// Adds the part of a function, if it is proved.
fn add_part_if(
    alloc: Global,
    cert: &mut Cert,
    function: &Listed<'_>,
    found: &Found,
) -> Result<(), AllocError>
    ensures { OnOk result (AddsLines cert.old cert.new (part_of function.now found.now)) }
{
    match found {
        Found::Proved(logs) => add_part(alloc, cert, function, logs.as_slice()),
        Found::Unproved(_) => Ok(()),
    }
}

// Adds the parts of the functions that are proved.
fn add_parts(
    alloc: Global,
    cert: &mut Cert,
    listed: &[Listed<'_>],
    found: &[Found],
) -> Result<(), AllocError>
    requires { length found.now ≡ length listed.now }
    ensures { OnOk result (AddsLines cert.old cert.new (parts_of listed.now found.now)) }
{
    for index in 0..listed.len() {
        attempt!(add_part_if(alloc, cert, &listed[index], &found[index]));
    }
    Ok(())
}

// Adds all lines.
fn add_all(
    alloc: Global,
    cert: &mut Cert,
    listed: &[Listed<'_>],
    found: &[Found],
) -> Result<(), AllocError>
    requires { length found.now ≡ length listed.now }
    ensures { OnOk result (AddsLines cert.old cert.new (lines.Header
        ∷ (parts_of listed.now found.now ++ lines.End ∷ []))) }
{
    attempt!(add_line(cert, Line::Header));
    attempt!(add_parts(alloc, cert, listed, found));
    add_line(cert, Line::End)
}

/// The certificate of the functions that are proved, in their order: of each its stack, a bare Leaf
/// and its logs. A certificate with a number above 2^32 - 1 doesn't fit in memory.
pub fn certificate(
    alloc: Global,
    listed: &[Listed<'_>],
    found: &[Found],
) -> Result<Cert, AllocError>
    requires { length found.now ≡ length listed.now }
    ensures { (functions : List spec.Listed) → AreListed listed.now functions
        → IfOk result (λ cert. certificate_of cert
        ≡ proof_lines functions (map found_of found.now)) }
{
    let mut cert = Cert {
        lines: Vec::new(alloc),
        logs: Logs {
            literals: Vec::new(alloc),
            hints: Vec::new(alloc),
        },
    };
    attempt!(add_all(alloc, &mut cert, listed, found));
    Ok(cert)
}
