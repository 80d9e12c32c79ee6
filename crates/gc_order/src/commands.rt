//! The program's commands, as clap knows them, with their help.

ghost use Rattle.std.specs.Prelude.{ℕ, List, IfOk, codes};
ghost use Rattle.clap.specs.Words.{App, Rule, new_rule, with_rule, with_subcommand};
ghost use Rattle.gc_order.specs.Order.{HasRule, HasShape, audit_command, check_command, command_on_circuit, command_with_seed, deal_command, eval_command, explain_flag, garble_command, hex_flag, jobs_command, labels_command, locate_command, more_words, named_option, named_program, number_option, order_command, plain_command, program, required_word, run_command, stats_command, workers_option};

use crate::help::{
    AUDIT_HELP, AUDITED_HELP, CHECK_HELP, CIRCUIT_HELP, COUNT_HELP, DEAL_HELP, EVAL_HELP,
    EXPLAIN_HELP, FORMAT_HELP, FROM_HELP, GARBLE_HELP, HEX_HELP, INDEX_HELP, JOBS_HELP,
    LABEL_FILES_HELP, LABELS_HELP, LIST_HELP, LOCATE_HELP, ORDER_HELP, PLAIN_HELP, PROGRAM_HELP,
    RUN_HELP, SEED_HELP, STATS_HELP, VALUE_HELP, VALUES_HELP,
};
use clap::builder::ValueParser;
use clap::{Arg, ArgAction, Command};
use std::alloc::{AllocError, Global};

/// The version of the program.
const VERSION: &str = "0.9.9";

/// The greatest number that an argument or an option takes. No circuit has as many wires.
const MOST: u64 = 4_294_967_295;

/// The program, with its commands.
pub(crate) fn halfgates<'a>(alloc: Global) -> Result<Command<'a>, AllocError>
    ensures { IfOk result (HasShape program) }
{
    let program = with_command(named_program(alloc), run(alloc))?;
    let program = with_command(program, plain(alloc))?;
    let program = with_command(program, check(alloc))?;
    let program = with_command(program, locate(alloc))?;
    let program = with_command(program, stats(alloc))?;
    let program = with_command(program, order(alloc))?;
    let program = with_command(program, garble(alloc))?;
    let program = with_command(program, deal(alloc))?;
    let program = with_command(program, eval(alloc))?;
    let program = with_command(program, jobs(alloc))?;
    let program = with_command(program, labels(alloc))?;
    with_command(program, audit(alloc))
}

/// The program with one command more.
fn with_command<'a>(
    program: Command<'a>,
    command: Result<Command<'a>, AllocError>,
) -> Result<Command<'a>, AllocError>
    ensures { IfOk result
        (λ made. (app sub : App) → HasShape app program.entry → IfOk command.entry (HasShape sub)
        → HasShape (with_subcommand app sub.top) made) }
{
    program.subcommand(command?)
}

/// The program, without its commands.
fn named_program<'a>(alloc: Global) -> Command<'a>
    ensures { HasShape named_program result }
{
    Command::new(alloc, "halfgates")
        .about("Garbles Boolean circuits and evaluates garbled circuits")
        .after_help(PROGRAM_HELP)
        .version(VERSION)
        .subcommand_required(true)
        .arg_required_else_help(true)
        .disable_help_subcommand(true)
}

/// The command `run`.
fn run<'a>(alloc: Global) -> Result<Command<'a>, AllocError>
    ensures { IfOk result (HasShape run_command) }
{
    let about = "Garbles a circuit and evaluates the garbled circuit on the given values";
    let command = command_with_seed(alloc, "run", about, RUN_HELP);
    let command = with_arg(command, workers_arg(alloc));
    let command = with_arg(command, hex_arg(alloc));
    with_arg(command, values_arg(alloc))
}

/// The command `plain`.
fn plain<'a>(alloc: Global) -> Result<Command<'a>, AllocError>
    ensures { IfOk result (HasShape plain_command) }
{
    let about = "Evaluates a circuit on the given values, without garbling";
    let command = command_on_circuit(alloc, "plain", about, PLAIN_HELP);
    let command = with_arg(command, hex_arg(alloc));
    with_arg(command, values_arg(alloc))
}

/// The command `check`.
fn check<'a>(alloc: Global) -> Result<Command<'a>, AllocError>
    ensures { IfOk result (HasShape check_command) }
{
    let about = "Prints the size and the digest of a circuit";
    command_on_circuit(alloc, "check", about, CHECK_HELP)
}

/// The command `locate`.
fn locate<'a>(alloc: Global) -> Result<Command<'a>, AllocError>
    ensures { IfOk result (HasShape locate_command) }
{
    let about = "Prints where the first fault of a circuit's text is";
    command_on_circuit(alloc, "locate", about, LOCATE_HELP)
}

/// The command `stats`.
fn stats<'a>(alloc: Global) -> Result<Command<'a>, AllocError>
    ensures { IfOk result (HasShape stats_command) }
{
    let about = "Prints the gates, the depths and the file sizes of a circuit";
    command_on_circuit(alloc, "stats", about, STATS_HELP)
}

/// The command `order`.
fn order<'a>(alloc: Global) -> Result<Command<'a>, AllocError>
    ensures { IfOk result (HasShape order_command) }
{
    let about = "Writes a circuit with its gates in order of AND depth into a file";
    let command = command_on_circuit(alloc, "order", about, ORDER_HELP);
    with_arg(command, out_arg(alloc, "The circuit file to write"))
}

/// The command `garble`.
fn garble<'a>(alloc: Global) -> Result<Command<'a>, AllocError>
    ensures { IfOk result (HasShape garble_command) }
{
    let about = "Garbles a circuit into a file";
    let command = command_with_seed(alloc, "garble", about, GARBLE_HELP);
    let command = with_arg(command, out_arg(alloc, "The garbled file to write"));
    let format = option_arg(alloc, "format", "FORMAT", FORMAT_HELP);
    let command = with_arg(command, with_number(format, 1, 2, "2"));
    with_arg(command, workers_arg(alloc))
}

/// The command `deal`.
fn deal<'a>(alloc: Global) -> Result<Command<'a>, AllocError>
    ensures { IfOk result (HasShape deal_command) }
{
    let about = "Writes the labels of an input value into a file";
    let command = command_with_seed(alloc, "deal", about, DEAL_HELP);
    let index = word_arg(alloc, "index", "INDEX", INDEX_HELP);
    let command = with_arg(command, index.value_parser(ValueParser::unsigned(0, MOST)));
    let command = with_arg(command, word_arg(alloc, "value", "VALUE", VALUE_HELP));
    with_arg(command, out_arg(alloc, "The label file to write"))
}

/// The command `eval`.
fn eval<'a>(alloc: Global) -> Result<Command<'a>, AllocError>
    ensures { IfOk result (HasShape eval_command) }
{
    let about = "Evaluates a garbled circuit, from a garbled file and label files";
    let command = command_on_circuit(alloc, "eval", about, EVAL_HELP);
    let command = with_arg(command, garbled_arg(alloc));
    let command = with_arg(command, workers_arg(alloc));
    let command = with_arg(command, hex_arg(alloc));
    with_arg(command, labels_arg(alloc, LABEL_FILES_HELP))
}

/// The command `jobs`.
fn jobs<'a>(alloc: Global) -> Result<Command<'a>, AllocError>
    ensures { IfOk result (HasShape jobs_command) }
{
    let about = "Evaluates a list of garbled files of one circuit";
    let command = command_on_circuit(alloc, "jobs", about, JOBS_HELP);
    let command = with_arg(command, word_arg(alloc, "list", "LIST", LIST_HELP));
    let command = with_arg(command, workers_arg(alloc));
    with_arg(command, hex_arg(alloc))
}

/// The command `labels`.
fn labels<'a>(alloc: Global) -> Result<Command<'a>, AllocError>
    ensures { IfOk result (HasShape labels_command) }
{
    let about = "Prints the labels and the bits of a circuit's wires for the given values";
    let command = command_with_seed(alloc, "labels", about, LABELS_HELP);
    let from = option_arg(alloc, "from", "FROM", FROM_HELP);
    let command = with_arg(command, with_number(from, 0, MOST, "0"));
    let count = option_arg(alloc, "count", "COUNT", COUNT_HELP);
    let command = with_arg(command, with_number(count, 0, MOST, "4294967295"));
    with_arg(command, values_arg(alloc))
}

/// The command `audit`.
fn audit<'a>(alloc: Global) -> Result<Command<'a>, AllocError>
    ensures { IfOk result (HasShape audit_command) }
{
    let about = "Says whether a garbled file and label files are those of a circuit and a seed";
    let command = command_with_seed(alloc, "audit", about, AUDIT_HELP);
    let command = with_arg(command, garbled_arg(alloc));
    with_arg(command, labels_arg(alloc, AUDITED_HELP))
}

/// A command that reads a circuit, whose file is its first argument, and explains a fault where it is asked to.
fn command_on_circuit<'a>(
    alloc: Global,
    name: &'a str,
    about: &'a str,
    help: &'a str,
) -> Result<Command<'a>, AllocError>
    ensures { IfOk result (HasShape (command_on_circuit name.entry.now)) }
{
    let command = Command::new(alloc, name).about(about).after_help(help);
    let circuit = word_arg(alloc, "circuit", "CIRCUIT", CIRCUIT_HELP);
    with_arg(command.arg(circuit), explain_arg(alloc))
}

/// A command that garbles a circuit: its second argument is the seed.
fn command_with_seed<'a>(
    alloc: Global,
    name: &'a str,
    about: &'a str,
    help: &'a str,
) -> Result<Command<'a>, AllocError>
    ensures { IfOk result (HasShape (command_with_seed name.entry.now)) }
{
    let command = command_on_circuit(alloc, name, about, help);
    with_arg(command, word_arg(alloc, "seed", "SEED", SEED_HELP))
}

/// The command with one more argument or option.
fn with_arg<'a>(
    command: Result<Command<'a>, AllocError>,
    arg: Arg<'a>,
) -> Result<Command<'a>, AllocError>
    ensures { (app : App) (rule : Rule) → IfOk command.entry (HasShape app) → HasRule rule arg.entry
        → IfOk result (HasShape (with_rule app rule)) }
{
    command?.arg(arg)
}

/// The argument for the file that is written.
fn out_arg<'a>(alloc: Global, help: &'a str) -> Arg<'a>
    ensures { HasRule (required_word (codes "out")) result }
{
    word_arg(alloc, "out", "OUT", help)
}

/// The argument for a garbled file.
fn garbled_arg<'a>(alloc: Global) -> Arg<'a>
    ensures { HasRule (required_word (codes "garbled")) result }
{
    word_arg(
        alloc,
        "garbled",
        "GARBLED",
        "The garbled file of the circuit",
    )
}

/// A required argument.
fn word_arg<'a>(alloc: Global, id: &'a str, name: &'a str, help: &'a str) -> Arg<'a>
    ensures { HasRule (required_word id.entry.now) result }
{
    named_arg(alloc, id, name, help).required(true)
}

/// The option for the number of workers.
fn workers_arg<'a>(alloc: Global) -> Arg<'a>
    ensures { HasRule workers_option result }
{
    let help = "How many threads may garble or evaluate, from 1 to 64; the result is the same";
    let workers = option_arg(alloc, "workers", "WORKERS", help);
    with_number(workers, 0, MOST, "1")
}

/// The flag for output values in hexadecimal digits.
fn hex_arg<'a>(alloc: Global) -> Arg<'a>
    ensures { HasRule hex_flag result }
{
    Arg::new(alloc, "hex")
        .long("hex")
        .action(ArgAction::SetTrue)
        .help(HEX_HELP)
}

/// The flag for a line that explains a fault.
fn explain_arg<'a>(alloc: Global) -> Arg<'a>
    ensures { HasRule explain_flag result }
{
    Arg::new(alloc, "explain")
        .long("explain")
        .action(ArgAction::SetTrue)
        .help(EXPLAIN_HELP)
}

/// An option of this id.
fn option_arg<'a>(alloc: Global, id: &'a str, name: &'a str, help: &'a str) -> Arg<'a>
    ensures { HasRule (named_option id.entry.now) result }
{
    named_arg(alloc, id, name, help).long(id)
}

/// The option, which is a number from `low` to `high`, and is `default` where it isn't given.
fn with_number<'a>(option: Arg<'a>, low: u64, high: u64, default: &'a str) -> Arg<'a>
    ensures { (id : List ℕ) → HasRule (named_option id) option.entry
        → HasRule (number_option id low high default.entry.now) result }
{
    option
        .value_parser(ValueParser::unsigned(low, high))
        .default_value(default)
}

/// The arguments for the input values.
fn values_arg<'a>(alloc: Global) -> Arg<'a>
    ensures { HasRule (more_words (codes "values")) result }
{
    more_arg(alloc, "values", "VALUES", VALUES_HELP)
}

/// The arguments for label files.
fn labels_arg<'a>(alloc: Global, help: &'a str) -> Arg<'a>
    ensures { HasRule (more_words (codes "labels")) result }
{
    more_arg(alloc, "labels", "LABELS", help)
}

/// Any number of arguments.
fn more_arg<'a>(alloc: Global, id: &'a str, name: &'a str, help: &'a str) -> Arg<'a>
    ensures { HasRule (more_words id.entry.now) result }
{
    named_arg(alloc, id, name, help).action(ArgAction::Append)
}

/// The argument of this id, with the name that its value has in help, and its help.
fn named_arg<'a>(alloc: Global, id: &'a str, name: &'a str, help: &'a str) -> Arg<'a>
    ensures { HasRule (record (new_rule id.entry.now) { value_names = 1 }) result }
{
    Arg::new(alloc, id).value_name(name).help(help)
}
