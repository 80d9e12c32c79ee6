//! A run of the program, from its arguments to its status.

ghost use Rattle.std.specs.Prelude.{◌≡◌, ◌<◌, ◌≤◌, ◌⊎◌, ◌||◌, ℕ, List, IfErr, IfOk};
ghost use Rattle.std.specs.IoError.{error_kind};
ghost use Rattle.gc_order.specs.Order.{order_text};
ghost use Rattle.gc_disk.specs.Files.{HasFailed};
ghost use Rattle.gc_cli.specs.CarryOut.{Writes};
ghost use Rattle.gc_cli.specs.CommandLine.{IsAsked, IsMistaken};
ghost use Rattle.gc_cli.specs.Serve.{AddsExplanation, AskToWrite, EndsByFault, FailsToAnswer, FindsDishonest, IsSuccessful, PrintsAnswer, PrintsFault, PrintsRefusal, reason_of};

use crate::order_result::OrderResult;
use crate::orders::carry_out;
use crate::output::{Console, Output};
use clap::Error;
use gc_command::{Context, Fault, Progress};
use gc_disk::{Files, Reread};
use gc_explain::Ended;
use gc_order::{Asked, Order};
use std::alloc::Global;
use std::io::{self, ErrorKind, Write};
use std::sync::Wait;
use std::thread::Threads;

/// The status of a run that has done what it was asked.
pub const DONE: u8 = 0;

/// The status of a run that a fault ended.
pub const FAULT: u8 = 1;

/// The status of a run whose arguments are no order, or can't be read.
pub const USAGE: u8 = 2;

/// The status of an audit that has found its files dishonest.
pub const DISHONEST: u8 = 3;

/// Does what arguments ask for, and returns the status of the run, as [`serve`](crate::serve) does.
pub(crate) fn serve_asked<R: Threads + Wait + Sync, F: Reread, O: Write, E: Write, P: Progress>(
    context: &Context<'_, R, Global, P>,
    asked: Result<Asked, Error>,
    files: &mut F,
    console: &mut Console<O, E>,
) -> u8
    ensures status { result ≤ DISHONEST }

    ensures done { result ≡ DONE → (words : List (List ℕ)) (old new : ℕ)
        → IsAsked words old new asked → IsSuccessful (F.bytes files.old) (F.bytes files.new) words
        console.old.out console.new.out }
    ensures no_errors { result ≡ DONE → console.new.err ≡ console.old.err }
    ensures dishonest { result ≡ DISHONEST → (words : List (List ℕ)) (old new : ℕ)
        → IsAsked words old new asked → FindsDishonest (F.bytes files.old) (F.bytes files.new) words
        console.old.out console.new.out }
    ensures no_errors_of_audit { result ≡ DISHONEST → console.new.err ≡ console.old.err }

    ensures fault { result ≡ FAULT → (words : List (List ℕ)) (old new : ℕ)
        → IsAsked words old new asked → EndsByFault (F.bytes files.old) (F.bytes files.new)
        (HasFailed (F.failures files.old) (F.failures files.new)) words console.old.explains
        console.old.out console.new.out console.old.err console.new.err }

    // Arguments that neither are an order nor ask for a text: only they, where there was memory to read them, and all
    // of them.
    ensures usage { result ≡ USAGE → (words : List (List ℕ)) (old new : ℕ)
        → IsAsked words old new asked → IsMistaken words ⊎ (old < new) }
    ensures mistaken { (words : List (List ℕ)) (old new : ℕ) → IsAsked words old new asked
        → IsMistaken words → result ≡ USAGE }
    ensures no_output { result ≡ USAGE → console.new.out ≡ console.old.out }

    // A file changes only where the arguments are an order that writes it, and by `fault` is as it was at a fault.
    ensures others { (words : List (List ℕ)) (old new : ℕ) → IsAsked words old new asked
        → (name : List ℕ) → ¬ AskToWrite words name
        → F.bytes files.new name ≡ F.bytes files.old name }
    ensures unwritten { result ≡ USAGE
        → (name : List ℕ) → F.bytes files.new name ≡ F.bytes files.old name }
{
    let before = files.log().opened();
    match asked {
        Ok(asked) => match print_result(context, &asked.order, files, &mut console.out) {
            Ok(true) => DONE,
            Ok(false) => DISHONEST,
            Err(fault) => {
                let ended = Ended {
                    alloc: context.alloc,
                    order: &asked.order,
                    files: &*files,
                    opened: files.log().opened().saturating_sub(before),
                    printing: console.out.cause(),
                };
                let status = report(fault, &mut console.err);
                tell(fault, &ended, asked.explains, console);
                status
            }
        },
        Err(help) if !help.use_stderr() => match write!(console.out, "{help}") {
            Ok(()) => DONE,
            Err(_) => report(Fault::CannotWrite, &mut console.err),
        },
        Err(error) => {
            let _ = write!(console.err, "{error}");
            USAGE
        }
    }
}

/// Carries out an order, and prints its result. It returns whether an audit finds its files honest, and `true` of any
/// other order. Each fault but that of `out` comes before anything is printed.
fn print_result<R: Threads + Wait + Sync, F: Files, O: Write, P: Progress>(
    context: &Context<'_, R, Global, P>,
    order: &Order,
    files: &mut F,
    out: &mut Output<O>,
) -> Result<bool, Fault>
    ensures done { IfOk result (λ honest. PrintsAnswer (F.bytes files.old) (F.bytes files.new)
        (order_text order.now) honest out.old out.new) }
    ensures fault { IfErr result (λ fault. FailsToAnswer (F.bytes files.old) (F.bytes files.new)
        (HasFailed (F.failures files.old) (F.failures files.new))
        (order_text order.now) out.old out.new fault) }
    ensures others { (name : List ℕ) → ¬ Writes (order_text order.now) name
        → F.bytes files.new name ≡ F.bytes files.old name }
{
    let result = carry_out(context, order, files);
    context.progress.end();
    let OrderResult { lines, is_honest } = result?;
    lines.print(out)?;
    Ok(is_honest)
}

/// Says on `err` why the arguments can't be read, as where one is not UTF-8. Where that fails, nothing can be said. The
/// status is that of a run whose arguments are no order.
pub fn refuse_line<E: Write>(error: &io::Error, err: &mut Output<E>) -> u8
    ensures status { result ≡ USAGE }
    ensures printed { PrintsRefusal err.old err.new (error_kind error.now) }
{
    let reason = reason_of(error.kind());
    let _ = writeln!(err, "error: the command line can't be read: {reason}");
    USAGE
}

/// Why the arguments can't be read.
fn reason_of(kind: ErrorKind) -> &'static str
    ensures { result.now ≡ reason_of kind }
{
    match kind {
        ErrorKind::InvalidData => "a word is not UTF-8",
        ErrorKind::OutOfMemory => "out of memory",
        _ => "its words can't be read",
    }
}

/// Says on standard error what explains the fault of an order, where the arguments or the console ask for it. Where
/// that fails, nothing can be said.
fn tell<F: Reread, O: Write, E: Write>(
    fault: Fault,
    ended: &Ended<'_, Global, F>,
    explains: bool,
    console: &mut Console<O, E>,
)
    ensures explained { AddsExplanation (F.bytes ended.now.files.now)
        (order_text ended.now.order.now)
        (console.old.explains || explains) fault console.old.err console.new.err }
    ensures same { console.new.out ≡ console.old.out }
{
    if !(console.explains | explains) {
        return;
    }
    if let Some(line) = ended.explain(fault) {
        let _ = console.err.write_all(&line);
    }
}

/// Says on standard error which fault ended the run. Where that fails, nothing can be said.
pub(crate) fn report<E: Write>(fault: Fault, err: &mut Output<E>) -> u8
    ensures status { result ≡ FAULT }
    ensures printed { PrintsFault err.old err.new fault }
{
    let _ = writeln!(err, "halfgates: {fault}");
    FAULT
}
