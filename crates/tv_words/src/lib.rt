//! The command line. [`command`] answers a [`Job`] exactly where the words are a command, and the
//! job's fields are the words'. What a command is is defined in `specs/Commands.antt`, by `clap`'s
//! own definition of the words that it accepts, and `specs/Names.antt` (the list of functions).
#![tactic(auto)]

mod list;
mod program;

ghost use Rattle.std.specs.Prelude.{◌≡◌, ◌≢◌, IfOk, IfErr, List, ℕ, Option, map, option_map};
ghost use Rattle.std.specs.Prelude.{codes, string_bytes};
ghost use Rattle.clap.specs.Walk.{Row, first_of, rows_of};
ghost use Rattle.clap.specs.Matches.{found_of};
ghost use Rattle.clap.specs.Simple.{subcommand_rows_of};
ghost use Rattle.clap.specs.Values.{kind_of};
ghost use Rattle.clap.specs.declared.error.kind.ErrorKind.TheVariants.{OutOfMemory};
ghost use Rattle.tv_words.specs.Commands as spec;
ghost use Rattle.tv_words.specs.Jobs.{checking_of, job_of, names_of, proving_of, showing_of};
ghost use Rattle.attempt.specs.declared.refusal.Refusal.TheVariants.{Fault, NoMemory};
ghost use Rattle.tv_words.specs.declared.WordsFault.TheVariants.{Words};

use attempt::{Refusal, attempt};
use clap::ArgMatches;
use clap::error::ErrorKind;
use list::{is_name, names_in};
use program::parsed;
use std::alloc::Global;
use thiserror::Error;

/// What the program is to do.
#[derive(Drop)]
pub enum Job<'a> {
    /// To look for a proof of some functions, and to write the certificate of those that have one.
    Prove(Proving<'a>),
    /// To check a certificate of some functions.
    Check(Checking<'a>),
    /// To print the code of a function.
    Show(Showing<'a>),
}

/// The files and the functions of `prove`.
#[derive(Drop)]
pub struct Proving<'a> {
    /// The name of the executable.
    pub elf: &'a str,
    /// The name of the C source.
    pub source: &'a str,
    /// The name of the certificate that is written.
    pub certificate: &'a str,
    /// The names of the functions in the order given, or `None` where the words list none.
    pub functions: Option<Vec<&'a str>>,
}

/// The files and the functions of `check`.
#[derive(Drop)]
pub struct Checking<'a> {
    /// The name of the executable.
    pub elf: &'a str,
    /// The name of the C source.
    pub source: &'a str,
    /// The name of the certificate that is read.
    pub certificate: &'a str,
    /// The names of the functions in the order given, or `None` where the words list none.
    pub functions: Option<Vec<&'a str>>,
}

/// The files and the function of `show`.
#[derive(Clone, Copy)]
pub struct Showing<'a> {
    /// The name of the executable.
    pub elf: &'a str,
    /// The name of the C source.
    pub source: &'a str,
    /// The name of the function.
    pub function: &'a str,
}

/// Why there is no job.
#[derive(Clone, Copy, Debug, Error)]
pub enum WordsFault {
    /// Usage error: the words are no command. A call for help is none either.
    #[error("the words are no command")]
    Words,
}

/// Why there is no job, where `clap` refuses the words.
pub(crate) fn refusal_of(refused: clap::Error) -> Refusal<WordsFault>
    ensures { (kind_of refused ≡ OutOfMemory → result ≡ NoMemory)
        × (kind_of refused ≢ OutOfMemory → result ≡ Fault Words) }
{
    match refused.kind() {
        ErrorKind::OutOfMemory => Refusal::NoMemory,
        _ => Refusal::Fault(WordsFault::Words),
    }
}

/// The job that the words ask for. The first word is the program's own name, and is ignored.
pub fn command(alloc: Global, words: &[String]) -> Result<Job<'_>, Refusal<WordsFault>>
    ensures found { IfOk result (λ job. spec.IsCommand (map string_bytes words.now) (job_of job)) }
    ensures fields { IfOk result (λ job. (other : spec.Command)
        → spec.IsCommand (map string_bytes words.now) other → other ≡ job_of job) }
    ensures only { IfErr result (λ error. (other : spec.Command)
        → spec.IsCommand (map string_bytes words.now) other → error ≡ NoMemory) }
{
    let matches = parsed(alloc, words)?;
    found_job(alloc, &matches)
}

/// The job of the subcommand that was found.
fn found_job<'a>(alloc: Global, matches: &ArgMatches<'a>) -> Result<Job<'a>, Refusal<WordsFault>>
    ensures found { IfOk result (λ job. spec.AsksFor (subcommand_rows_of matches.now)
        (job_of job)) }
    ensures only { IfErr result (λ error. (other : spec.Command)
        → spec.AsksFor (subcommand_rows_of matches.now) other → error ≡ NoMemory) }
{
    match matches.subcommand_matches("prove") {
        Some(found) => {
            let job = prove_job(alloc, found)?;
            Ok(Job::Prove(job))
        }
        None => checked_job(alloc, matches),
    }
}

/// The job of the subcommand that was found, which isn't `prove`.
fn checked_job<'a>(alloc: Global, matches: &ArgMatches<'a>) -> Result<Job<'a>, Refusal<WordsFault>>
    requires { (given : List Row) → subcommand_rows_of matches.now ≢ Some (codes "prove", given) }
    ensures found { IfOk result (λ job. spec.AsksFor (subcommand_rows_of matches.now)
        (job_of job)) }
    ensures only { IfErr result (λ error. (other : spec.Command)
        → spec.AsksFor (subcommand_rows_of matches.now) other → error ≡ NoMemory) }
{
    match matches.subcommand_matches("check") {
        Some(found) => {
            let job = check_job(alloc, found)?;
            Ok(Job::Check(job))
        }
        None => shown_job(matches),
    }
}

/// The job of the subcommand that was found, which is neither `prove` nor `check`.
fn shown_job<'a>(matches: &ArgMatches<'a>) -> Result<Job<'a>, Refusal<WordsFault>>
    requires no_prove { (given : List Row)
        → subcommand_rows_of matches.now ≢ Some (codes "prove", given) }
    requires no_check { (given : List Row)
        → subcommand_rows_of matches.now ≢ Some (codes "check", given) }
    ensures found { IfOk result (λ job. spec.AsksFor (subcommand_rows_of matches.now)
        (job_of job)) }
    ensures only { IfErr result (λ error. (other : spec.Command)
        → spec.AsksFor (subcommand_rows_of matches.now) other → error ≡ NoMemory) }
{
    let Some(found) = matches.subcommand_matches("show") else {
        return Err(Refusal::Fault(WordsFault::Words));
    };
    let job = show_job(found)?;
    Ok(Job::Show(job))
}

/// The job of `show`, from what was found after that word.
fn show_job<'a>(found: &ArgMatches<'a>) -> Result<Showing<'a>, Refusal<WordsFault>>
    ensures found { IfOk result (λ job. spec.IsShowing (rows_of (found_of found.now))
        (showing_of job)) }
    ensures only { IfErr result (λ error. (other : spec.Showing)
        → spec.IsShowing (rows_of (found_of found.now)) other → error ≡ NoMemory) }
{
    let elf = needed(found, "elf")?;
    let source = needed(found, "source")?;
    let function = needed(found, "function")?;
    if !is_name(function) {
        return Err(Refusal::Fault(WordsFault::Words));
    }
    Ok(Showing {
        elf,
        source,
        function,
    })
}

/// The job of `prove`, from what was found after that word.
fn prove_job<'a>(alloc: Global, found: &ArgMatches<'a>) -> Result<Proving<'a>, Refusal<WordsFault>>
    ensures found { IfOk result (λ job. spec.IsProving (rows_of (found_of found.now))
        (proving_of job)) }
    ensures only { IfErr result (λ error. (other : spec.Proving)
        → spec.IsProving (rows_of (found_of found.now)) other → error ≡ NoMemory) }
{
    let elf = needed(found, "elf")?;
    let source = needed(found, "source")?;
    let certificate = needed(found, "cert")?;
    let functions = listed(alloc, given(found, "functions"))?;
    Ok(Proving {
        elf,
        source,
        certificate,
        functions,
    })
}

/// The job of `check`, from what was found after that word.
fn check_job<'a>(alloc: Global, found: &ArgMatches<'a>) -> Result<Checking<'a>, Refusal<WordsFault>>
    ensures found { IfOk result (λ job. spec.IsChecking (rows_of (found_of found.now))
        (checking_of job)) }
    ensures only { IfErr result (λ error. (other : spec.Checking)
        → spec.IsChecking (rows_of (found_of found.now)) other → error ≡ NoMemory) }
{
    let elf = needed(found, "elf")?;
    let source = needed(found, "source")?;
    let certificate = needed(found, "certificate")?;
    let functions = listed(alloc, given(found, "functions"))?;
    Ok(Checking {
        elf,
        source,
        certificate,
        functions,
    })
}

/// The value of an argument, if it has one.
fn given<'a>(found: &ArgMatches<'a>, id: &str) -> Option<&'a str>
    ensures { option_map (λ text. text.now) result
        ≡ first_of id.now (rows_of (found_of found.now)) }
{
    found.get_str(id)
}

/// The value of an argument that is required, so that it has one.
fn needed<'a>(found: &ArgMatches<'a>, id: &str) -> Result<&'a str, Refusal<WordsFault>>
    ensures found { IfOk result (λ text. first_of id.now (rows_of (found_of found.now))
        ≡ Some text.now) }
    ensures missing { IfErr result (λ error. first_of id.now (rows_of (found_of found.now))
        ≡ None) }
{
    match given(found, id) {
        Some(text) => Ok(text),
        None => Err(Refusal::Fault(WordsFault::Words)),
    }
}

/// The names of a list that was given, if one was.
fn listed<'a>(
    alloc: Global,
    text: Option<&'a str>,
) -> Result<Option<Vec<&'a str>>, Refusal<WordsFault>>
    ensures found { IfOk result (λ names. spec.AreListed (option_map (λ text. text.now) text.entry)
        (option_map names_of names)) }
    ensures only { IfErr result (λ error. (names : Option (List (List ℕ)))
        → spec.AreListed (option_map (λ text. text.now) text.entry) names → error ≡ NoMemory) }
{
    match text {
        Some(text) => {
            let names = attempt!(names_in(alloc, text));
            Ok(Some(names))
        }
        None => Ok(None),
    }
}
