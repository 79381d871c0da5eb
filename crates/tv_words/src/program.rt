//! The program's command, as `clap` parses it.

ghost use Rattle.std.specs.Prelude.{◌≡◌, IfOk, IfErr, [], false, map, string_bytes};
ghost use Rattle.clap.specs.Walk.{rule_of};
ghost use Rattle.clap.specs.Simple.{app_of, subcommand_of, subcommand_rows_of};
ghost use Rattle.clap.specs.Faults.{fault_of};
ghost use Rattle.attempt.specs.declared.refusal.Refusal.TheVariants.{NoMemory};
ghost use Rattle.tv_words.specs.Commands as spec;

use crate::{WordsFault, refusal_of};
use attempt::{Refusal, attempt};
use clap::{Arg, ArgAction, ArgMatches, Command};
use std::alloc::{AllocError, Global};

/// A file, which is a positional argument.
fn file<'a>(alloc: Global, id: &'a str) -> Arg<'a>
    ensures rule { rule_of result ≡ spec.file id.entry.now }
    ensures local { result.global ≡ false }
{
    Arg::new(alloc, id).required(true).action(ArgAction::Set)
}

/// A value of an option.
fn option<'a>(alloc: Global, name: &'a str, required: bool) -> Arg<'a>
    ensures rule { rule_of result ≡ spec.option name.entry.now required }
    ensures local { result.global ≡ false }
{
    Arg::new(alloc, name)
        .long(name)
        .required(required)
        .action(ArgAction::Set)
}

/// A subcommand with its two files.
fn with_files<'a>(alloc: Global, name: &'a str) -> Result<Command<'a>, AllocError>
    ensures { IfOk result (λ command. spec.IsCommandOf command (spec.with_files name.entry.now)) }
{
    let with_one = attempt!(Command::new(alloc, name).arg(file(alloc, "elf")));
    let with_both = attempt!(with_one.arg(file(alloc, "source")));
    Ok(with_both)
}

/// The subcommand `prove ELF C --cert OUT [--functions NAME,..]`.
fn prove<'a>(alloc: Global) -> Result<Command<'a>, AllocError>
    ensures { IfOk result (λ prove. spec.IsCommandOf prove spec.prove) }
{
    let files = attempt!(with_files(alloc, "prove"));
    let certified = attempt!(files.arg(option(alloc, "cert", true)));
    let command = attempt!(certified.arg(option(alloc, "functions", false)));
    Ok(command)
}

/// The subcommand `check ELF C CERT [--functions NAME,..]`.
fn check<'a>(alloc: Global) -> Result<Command<'a>, AllocError>
    ensures { IfOk result (λ check. spec.IsCommandOf check spec.check) }
{
    let files = attempt!(with_files(alloc, "check"));
    let certified = attempt!(files.arg(file(alloc, "certificate")));
    let command = attempt!(certified.arg(option(alloc, "functions", false)));
    Ok(command)
}

/// The subcommand `show ELF C --function NAME`.
fn show<'a>(alloc: Global) -> Result<Command<'a>, AllocError>
    ensures { IfOk result (λ show. spec.IsCommandOf show spec.show) }
{
    let files = attempt!(with_files(alloc, "show"));
    let command = attempt!(files.arg(option(alloc, "function", true)));
    Ok(command)
}

/// The program, of which one subcommand is required.
#[tactic(auto, unfolding(crate::specs::Commands::program))]
fn program<'a>(alloc: Global) -> Result<Command<'a>, AllocError>
    ensures { IfOk result (λ program. app_of program ≡ spec.program) }
{
    let prove = attempt!(prove(alloc));
    let first = attempt!(
        Command::new(alloc, "tv")
            .subcommand_required(true)
            .subcommand(prove)
    );
    let check = match check(alloc) {
        Ok(check) => check,
        Err(error) => {
            drop(first);
            return Err(error);
        }
    };
    let second = attempt!(first.subcommand(check));
    let show = match show(alloc) {
        Ok(show) => show,
        Err(error) => {
            drop(second);
            return Err(error);
        }
    };
    let command = attempt!(second.subcommand(show));
    Ok(command)
}

/// What the words give, where the program accepts them.
pub(crate) fn parsed<'a>(
    alloc: Global,
    words: &'a [String],
) -> Result<ArgMatches<'a>, Refusal<WordsFault>>
    ensures taken { IfOk result (λ matches. fault_of spec.program (map string_bytes words.entry.now)
        ≡ []) }
    ensures found { IfOk result (λ matches. subcommand_rows_of matches
        ≡ subcommand_of spec.program (map string_bytes words.entry.now)) }
    ensures only { IfErr result (λ error. fault_of spec.program (map string_bytes words.entry.now)
        ≡ [] → error ≡ NoMemory) }
{
    match program(alloc)?.try_get_matches_from(words) {
        Ok(matches) => Ok(matches),
        Err(refused) => Err(refusal_of(refused)),
    }
}
