//! A whole run of the program, from the words of its command line to its status.

ghost use Rattle.std.specs.Prelude.{◌≡◌, ◌<◌, ◌≤◌, ◌⊎◌, ℕ, List, map, string_bytes};
ghost use Rattle.gc_disk.specs.Files.{HasFailed};
ghost use Rattle.gc_cli.specs.Arguments.{StandForThemselves};
ghost use Rattle.gc_cli.specs.CommandLine.{IsMistaken};
ghost use Rattle.gc_cli.specs.Serve.{AskToWrite, EndsByFault, FindsDishonest, IsSuccessful};
ghost use Rattle.gc_cli.specs.WholeRun.{EndsByRefusal, IsOf, LackFile};

use crate::arguments::{Refusal, arguments_of, stand_for_themselves};
use crate::command_line::Heap;
use crate::output::{Console, Output};
use crate::program::{DISHONEST, DONE, FAULT, USAGE, report, serve_asked};
use gc_command::{Context, Fault, Progress};
use gc_disk::Reread;
use std::io::Write;
use std::sync::Wait;
use std::thread::Threads;

/// Does what the words of a command line say, of which the first is the program's name, and returns the status of the
/// run. `progress` observes each step of a command, and its end before anything is printed.
///
/// Before all else, each `--args-from FILE` or `--args-from=FILE` before `--` stands for the lines of FILE, each of
/// which is an argument.
///
/// - [`DONE`]: the lines of the order, or the help or the version that was asked for, are on standard output.
/// - [`DISHONEST`]: the lines of an audit are on standard output, of which the last is `dishonest`.
/// - [`FAULT`]: the line `halfgates: fault CODE NAME` is on standard error, unless that can't be written. Nothing is on
///   standard output, and every file is as it was, unless printing there failed, which is the fault 51. It is 50 where
///   FILE can't be read or isn't UTF-8, and 52 where there is no memory for its lines: words that stand for themselves
///   have only the faults of their order, and of printing. Where the arguments or the console ask for it, a line that
///   explains the fault of an order may follow.
/// - [`USAGE`]: what clap says of arguments that are no order is on standard error. So is what it says where memory ran
///   out, and that `--args-from` lacks FILE.
///
/// No file changes but the one that the order writes.
pub fn serve<R: Threads + Wait + Sync, F: Reread, O: Write, E: Write, P: Progress>(
    rt: &R,
    heap: &mut Heap,
    words: &[String],
    files: &mut F,
    console: &mut Console<O, E>,
    progress: &P,
) -> u8
    ensures status { result ≤ DISHONEST }

    ensures done { result ≡ DONE → IsOf (F.bytes files.old) (map string_bytes words.now)
        (λ arguments. IsSuccessful (F.bytes files.old) (F.bytes files.new) arguments
        console.old.out console.new.out) }
    ensures no_errors { result ≡ DONE → console.new.err ≡ console.old.err }
    ensures dishonest { result ≡ DISHONEST → IsOf (F.bytes files.old) (map string_bytes words.now)
        (λ arguments. FindsDishonest (F.bytes files.old) (F.bytes files.new) arguments
        console.old.out console.new.out) }
    ensures no_errors_of_audit { result ≡ DISHONEST → console.new.err ≡ console.old.err }

    ensures fault { result ≡ FAULT → IsOf (F.bytes files.old) (map string_bytes words.now)
        (λ arguments. EndsByFault (F.bytes files.old) (F.bytes files.new)
        (HasFailed (F.failures files.old) (F.failures files.new))
        arguments console.old.explains
        console.old.out console.new.out console.old.err console.new.err)
        ⊎ EndsByRefusal (F.bytes files.old) (F.bytes files.new)
        (HasFailed (F.failures files.old) (F.failures files.new))
        (map string_bytes words.now)
        console.old.out console.new.out console.old.err console.new.err }

    ensures fault_words { StandForThemselves (map string_bytes words.now) → result ≡ FAULT
        → EndsByFault (F.bytes files.old) (F.bytes files.new)
        (HasFailed (F.failures files.old) (F.failures files.new))
        (map string_bytes words.now) console.old.explains
        console.old.out console.new.out console.old.err console.new.err }

    // Arguments that neither are an order nor ask for a text, where there was memory to read them, or no file after
    // the option: only these, and all of these.
    ensures usage { result ≡ USAGE
        → IsOf (F.bytes files.old) (map string_bytes words.now) IsMistaken
        ⊎ (LackFile (F.bytes files.old) (map string_bytes words.now)
        ⊎ (heap.old < heap.new)) }
    ensures mistaken { IsOf (F.bytes files.old) (map string_bytes words.now)
        (λ arguments. IsMistaken arguments → result ≡ USAGE)
        ⊎ ((result ≡ USAGE) ⊎ EndsByRefusal (F.bytes files.old) (F.bytes files.new)
        (HasFailed (F.failures files.old) (F.failures files.new))
        (map string_bytes words.now)
        console.old.out console.new.out console.old.err console.new.err) }
    ensures mistaken_words { StandForThemselves (map string_bytes words.now)
        → IsMistaken (map string_bytes words.now) → result ≡ USAGE }
    ensures no_output { result ≡ USAGE → console.new.out ≡ console.old.out }

    // A file changes only where the arguments are an order that writes it, and by `fault` is as it was at a fault.
    ensures others { (name : List ℕ) → ¬ (IsOf (F.bytes files.old) (map string_bytes words.now)
        (λ arguments. AskToWrite arguments name))
        → F.bytes files.new name ≡ F.bytes files.old name }
    ensures unwritten { result ≡ USAGE
        → (name : List ℕ) → F.bytes files.new name ≡ F.bytes files.old name }
{
    let context = Context {
        rt,
        alloc: heap.alloc(),
        progress,
    };
    if stand_for_themselves(words) {
        return serve_asked(&context, heap.order(words), files, console);
    }
    match arguments_of(context.alloc, words, files) {
        Ok(arguments) => serve_asked(&context, heap.order(&arguments), files, console),
        Err(Refusal::NoFile) => lack_file(&mut console.err),
        Err(Refusal::CannotRead) => report(Fault::CannotRead, &mut console.err),
        Err(Refusal::Memory) => report(Fault::Memory, &mut console.err),
    }
}

/// Says on standard error, as clap does, that the option lacks its file. Where that fails, nothing can be said.
fn lack_file<E: Write>(err: &mut Output<E>) -> u8
    ensures { result ≡ USAGE }
{
    let _ = err.write_all(
        b"error: a value is required for '--args-from <FILE>' but none was supplied\n\n\
For more information, try '--help'.\n",
    );
    USAGE
}
