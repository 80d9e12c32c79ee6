//! Orders: what the arguments ask for.

ghost use Rattle.std.specs.Prelude.{◌≡◌, map, IfOk, Some, string_bytes};
ghost use Rattle.clap.specs.Words.{FailsBy, fault_of, found_of, rows_of};
ghost use Rattle.gc_order.specs.Order.{IsCommandName, audit_in, by_depth_in, check_in, command_in, deal_in, eval_in, explains_in, garble_in, jobs_in, labels_in, locate_in, order_in, plain_in, program, run_in, stats_in, order_text};

use crate::commands::halfgates;
use crate::words::{is_flagged, number_of, version_of, word_of, words_of};
use clap::{ArgMatches, Error};
use gc_file::Version;
use std::alloc::{AllocError, Global};

/// Garble a circuit and evaluate it on these values.
#[derive(Drop)]
pub struct RunOrder {
    /// The name of the circuit's file.
    pub circuit: String,
    /// The text of the seed.
    pub seed: String,
    /// How many workers garble.
    pub workers: u32,
    /// Whether output values are printed in hexadecimal digits.
    pub hex: bool,
    /// The text of each input value, in order.
    pub values: Vec<String>,
}

/// Evaluate a circuit on these values, without garbling.
#[derive(Drop)]
pub struct PlainOrder {
    /// The name of the circuit's file.
    pub circuit: String,
    /// Whether output values are printed in hexadecimal digits.
    pub hex: bool,
    /// The text of each input value, in order.
    pub values: Vec<String>,
}

/// Write a circuit with its gates in order of AND depth into a file.
#[derive(Drop)]
pub struct ByDepthOrder {
    /// The name of the circuit's file.
    pub circuit: String,
    /// The name of the ordered circuit's file.
    pub out: String,
}

/// Garble a circuit into a file.
#[derive(Drop)]
pub struct GarbleOrder {
    /// The name of the circuit's file.
    pub circuit: String,
    /// The text of the seed.
    pub seed: String,
    /// The name of the garbled file.
    pub out: String,
    /// The version of the garbled file.
    pub version: Version,
    /// How many workers garble.
    pub workers: u32,
}

/// Write the labels of an input value into a file.
#[derive(Drop)]
pub struct DealOrder {
    /// The name of the circuit's file.
    pub circuit: String,
    /// The text of the seed.
    pub seed: String,
    /// The index of the input value.
    pub index: u32,
    /// The text of the input value.
    pub value: String,
    /// The name of the label file.
    pub out: String,
}

/// Evaluate a circuit from a garbled file and label files.
#[derive(Drop)]
pub struct EvalOrder {
    /// The name of the circuit's file.
    pub circuit: String,
    /// The name of the garbled file.
    pub garbled: String,
    /// How many workers evaluate.
    pub workers: u32,
    /// Whether output values are printed in hexadecimal digits.
    pub hex: bool,
    /// The name of each label file, in the order of the arguments.
    pub labels: Vec<String>,
}

/// Evaluate a circuit from each garbled file of a list and the label files on its line.
#[derive(Drop)]
pub struct JobsOrder {
    /// The name of the circuit's file.
    pub circuit: String,
    /// The name of the list's file.
    pub list: String,
    /// How many workers evaluate.
    pub workers: u32,
    /// Whether output values are printed in hexadecimal digits.
    pub hex: bool,
}

/// Print the labels and the bits of a circuit's wires for these values.
#[derive(Drop)]
pub struct LabelsOrder {
    /// The name of the circuit's file.
    pub circuit: String,
    /// The text of the seed.
    pub seed: String,
    /// The first wire to print.
    pub from: u32,
    /// How many lines to print at most.
    pub count: u32,
    /// The text of each input value, in order.
    pub values: Vec<String>,
}

/// Print whether a garbled file and label files are those of a circuit and a seed.
#[derive(Drop)]
pub struct AuditOrder {
    /// The name of the circuit's file.
    pub circuit: String,
    /// The text of the seed.
    pub seed: String,
    /// The name of the garbled file.
    pub garbled: String,
    /// The name of each label file, in the order of the arguments.
    pub labels: Vec<String>,
}

/// A command with its arguments. Whether the files that these name exist, and what they hold, the command checks.
#[derive(Drop)]
pub enum Order {
    /// Garble a circuit and evaluate it.
    Run(RunOrder),
    /// Print the size and the digest of a circuit.
    Check {
        /// The name of the circuit's file.
        circuit: String,
    },
    /// Print where the first fault of a circuit's text is.
    Locate {
        /// The name of the circuit's file.
        circuit: String,
    },
    /// Print the gates, the depths and the file sizes of a circuit.
    Stats {
        /// The name of the circuit's file.
        circuit: String,
    },
    /// Evaluate a circuit without garbling.
    Plain(PlainOrder),
    /// Write a circuit in order of AND depth into a file.
    ByDepth(ByDepthOrder),
    /// Garble a circuit into a file.
    Garble(GarbleOrder),
    /// Write the labels of an input value into a file.
    Deal(DealOrder),
    /// Evaluate a circuit from a garbled file and label files.
    Eval(EvalOrder),
    /// Evaluate a circuit from each garbled file of a list.
    Jobs(JobsOrder),
    /// Print the labels and the bits of a circuit's wires.
    Labels(LabelsOrder),
    /// Print whether files are those of a circuit and a seed.
    Audit(AuditOrder),
}

/// What a command line asks for.
#[derive(Drop)]
pub struct Asked {
    /// The order.
    pub order: Order,
    /// Whether a fault is to be explained, by the flag `--explain`.
    pub explains: bool,
}

/// The order in the arguments, of which the first is the program's name. The error is clap's, with the text to show:
/// for arguments that it refuses, for help or the version, and where memory ran out.
pub fn order_of(alloc: Global, words: &[String]) -> Result<Order, Error>
    ensures order { IfOk result
        (λ order. order_in (map string_bytes words.now) ≡ Some (order_text order)) }
    ensures kinds { FailsBy (fault_of program (map string_bytes words.now)) result }
{
    match asked_of(alloc, words) {
        Ok(asked) => Ok(asked.order),
        Err(error) => Err(error),
    }
}

/// The order in the arguments, and whether a fault of it is to be explained. The errors are those of [`order_of`].
pub fn asked_of(alloc: Global, words: &[String]) -> Result<Asked, Error>
    ensures order { IfOk result
        (λ asked. order_in (map string_bytes words.now) ≡ Some (order_text asked.order)) }
    ensures explains { IfOk result
        (λ asked. asked.explains ≡ explains_in (map string_bytes words.now)) }
    ensures kinds { FailsBy (fault_of program (map string_bytes words.now)) result }
{
    let matches = halfgates(alloc)?.try_get_matches_from(words)?;
    match matches.subcommand() {
        Some((name, found)) => {
            let order = named_order(alloc, name, found)?;
            let explains = is_flagged(found, "explain");
            Ok(Asked { order, explains })
        }
        None => unreachable!(),
    }
}

/// The order of the command of this name, from what clap found of its arguments. The caller ensures that the program
/// has one.
fn named_order(alloc: Global, name: &str, found: &ArgMatches<'_>) -> Result<Order, AllocError>
    requires { IsCommandName name.now }
    ensures { IfOk result (λ order. command_in name.now (rows_of (found_of found.now))
        ≡ Some (order_text order)) }
{
    match name {
        "run" => run_order(alloc, found),
        "plain" => plain_order(alloc, found),
        "check" => check_order(alloc, found),
        "locate" => locate_order(alloc, found),
        "stats" => stats_order(alloc, found),
        "order" => by_depth_order(alloc, found),
        "garble" => garble_order(alloc, found),
        "deal" => deal_order(alloc, found),
        "eval" => eval_order(alloc, found),
        "jobs" => jobs_order(alloc, found),
        "labels" => labels_order(alloc, found),
        "audit" => audit_order(alloc, found),
        _ => unreachable!(),
    }
}

/// The order of `run`, from what clap found of its arguments.
fn run_order(alloc: Global, found: &ArgMatches<'_>) -> Result<Order, AllocError>
    ensures { IfOk result (λ order. order_text order ≡ run_in (rows_of (found_of found.now))) }
{
    Ok(Order::Run(RunOrder {
        circuit: word_of(alloc, found, "circuit")?,
        seed: word_of(alloc, found, "seed")?,
        workers: number_of(found, "workers"),
        hex: is_flagged(found, "hex"),
        values: words_of(alloc, found, "values")?,
    }))
}

/// The order of `plain`, from what clap found of its arguments.
fn plain_order(alloc: Global, found: &ArgMatches<'_>) -> Result<Order, AllocError>
    ensures { IfOk result (λ order. order_text order ≡ plain_in (rows_of (found_of found.now))) }
{
    Ok(Order::Plain(PlainOrder {
        circuit: word_of(alloc, found, "circuit")?,
        hex: is_flagged(found, "hex"),
        values: words_of(alloc, found, "values")?,
    }))
}

/// The order of `check`, from what clap found of its arguments.
fn check_order(alloc: Global, found: &ArgMatches<'_>) -> Result<Order, AllocError>
    ensures { IfOk result (λ order. order_text order ≡ check_in (rows_of (found_of found.now))) }
{
    Ok(Order::Check {
        circuit: word_of(alloc, found, "circuit")?,
    })
}

/// The order of `locate`, from what clap found of its arguments.
fn locate_order(alloc: Global, found: &ArgMatches<'_>) -> Result<Order, AllocError>
    ensures { IfOk result (λ order. order_text order ≡ locate_in (rows_of (found_of found.now))) }
{
    Ok(Order::Locate {
        circuit: word_of(alloc, found, "circuit")?,
    })
}

/// The order of `stats`, from what clap found of its arguments.
fn stats_order(alloc: Global, found: &ArgMatches<'_>) -> Result<Order, AllocError>
    ensures { IfOk result (λ order. order_text order ≡ stats_in (rows_of (found_of found.now))) }
{
    Ok(Order::Stats {
        circuit: word_of(alloc, found, "circuit")?,
    })
}

/// The order of `order`, from what clap found of its arguments.
fn by_depth_order(alloc: Global, found: &ArgMatches<'_>) -> Result<Order, AllocError>
    ensures { IfOk result (λ order. order_text order ≡ by_depth_in (rows_of (found_of found.now))) }
{
    Ok(Order::ByDepth(ByDepthOrder {
        circuit: word_of(alloc, found, "circuit")?,
        out: word_of(alloc, found, "out")?,
    }))
}

/// The order of `garble`, from what clap found of its arguments.
fn garble_order(alloc: Global, found: &ArgMatches<'_>) -> Result<Order, AllocError>
    ensures { IfOk result (λ order. order_text order ≡ garble_in (rows_of (found_of found.now))) }
{
    Ok(Order::Garble(GarbleOrder {
        circuit: word_of(alloc, found, "circuit")?,
        seed: word_of(alloc, found, "seed")?,
        out: word_of(alloc, found, "out")?,
        version: version_of(number_of(found, "format")),
        workers: number_of(found, "workers"),
    }))
}

/// The order of `deal`, from what clap found of its arguments.
fn deal_order(alloc: Global, found: &ArgMatches<'_>) -> Result<Order, AllocError>
    ensures { IfOk result (λ order. order_text order ≡ deal_in (rows_of (found_of found.now))) }
{
    Ok(Order::Deal(DealOrder {
        circuit: word_of(alloc, found, "circuit")?,
        seed: word_of(alloc, found, "seed")?,
        index: number_of(found, "index"),
        value: word_of(alloc, found, "value")?,
        out: word_of(alloc, found, "out")?,
    }))
}

/// The order of `eval`, from what clap found of its arguments.
fn eval_order(alloc: Global, found: &ArgMatches<'_>) -> Result<Order, AllocError>
    ensures { IfOk result (λ order. order_text order ≡ eval_in (rows_of (found_of found.now))) }
{
    Ok(Order::Eval(EvalOrder {
        circuit: word_of(alloc, found, "circuit")?,
        garbled: word_of(alloc, found, "garbled")?,
        workers: number_of(found, "workers"),
        hex: is_flagged(found, "hex"),
        labels: words_of(alloc, found, "labels")?,
    }))
}

/// The order of `jobs`, from what clap found of its arguments.
fn jobs_order(alloc: Global, found: &ArgMatches<'_>) -> Result<Order, AllocError>
    ensures { IfOk result (λ order. order_text order ≡ jobs_in (rows_of (found_of found.now))) }
{
    Ok(Order::Jobs(JobsOrder {
        circuit: word_of(alloc, found, "circuit")?,
        list: word_of(alloc, found, "list")?,
        workers: number_of(found, "workers"),
        hex: is_flagged(found, "hex"),
    }))
}

/// The order of `labels`, from what clap found of its arguments.
fn labels_order(alloc: Global, found: &ArgMatches<'_>) -> Result<Order, AllocError>
    ensures { IfOk result (λ order. order_text order ≡ labels_in (rows_of (found_of found.now))) }
{
    Ok(Order::Labels(LabelsOrder {
        circuit: word_of(alloc, found, "circuit")?,
        seed: word_of(alloc, found, "seed")?,
        from: number_of(found, "from"),
        count: number_of(found, "count"),
        values: words_of(alloc, found, "values")?,
    }))
}

/// The order of `audit`, from what clap found of its arguments.
fn audit_order(alloc: Global, found: &ArgMatches<'_>) -> Result<Order, AllocError>
    ensures { IfOk result (λ order. order_text order ≡ audit_in (rows_of (found_of found.now))) }
{
    Ok(Order::Audit(AuditOrder {
        circuit: word_of(alloc, found, "circuit")?,
        seed: word_of(alloc, found, "seed")?,
        garbled: word_of(alloc, found, "garbled")?,
        labels: words_of(alloc, found, "labels")?,
    }))
}
