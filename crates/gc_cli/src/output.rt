//! What the program prints on.

ghost use Rattle.std.specs.Prelude.{◌≡◌, IfSome, OnOk};
ghost use Rattle.std.specs.Io.KnownBytes.{Appends};
ghost use Rattle.gc_file.specs.Counted.{CountsFailure};

use gc_disk::Cause;
use gc_file::FailureCount;
use std::fmt::Display;
use std::io::{self, Write};
use std::marker::Model;

/// A writer to print on, as standard output, and how many calls to print on it have failed. That number contracts
/// alone read, and only a call of a method here that fails raises it.
#[derive(Drop)]
pub struct Output<W: Write> {
    writer: W,
    cause: Option<Cause>,
    failures: FailureCount,
}

/// What a run prints on, and whether it explains faults.
#[derive(Drop)]
pub struct Console<O: Write, E: Write> {
    /// Standard output.
    pub out: Output<O>,
    /// Standard error.
    pub err: Output<E>,
    /// Whether a fault is explained even where the arguments don't ask for it.
    pub explains: bool,
}

impl<W: Write> Model for Output<W> {
    ghost use Rattle.gc_cli.specs.Output.{Printed};

    ghost Value = { Printed };

    ghost view = { λ o. record { contents = W.contents o.writer; failures = o.failures } };
}

impl<W: Write> Output<W> {
    /// An output over the writer. No failure is counted yet.
    pub fn new(writer: W) -> Output<W>
        ensures { result ≡ record { contents = W.contents writer; failures = 0 } }
    {
        Output {
            writer,
            cause: None,
            failures: FailureCount::new(),
        }
    }

    /// The writer, given back.
    pub fn into_inner(self) -> W
        ensures { W.contents result ≡ self.contents }
    {
        self.writer
    }

    /// Prints all of the bytes. Where that fails, some of them may have been printed.
    pub fn write_all(&mut self, bytes: &[u8]) -> io::Result<()>
        ensures printed { OnOk result (Appends self.old.contents self.new.contents bytes.now) }
        ensures counted { CountsFailure result self.old.failures self.new.failures }
    {
        let outcome = self.writer.write_all(bytes);
        self.note(&outcome);
        counted(outcome, &mut self.failures)
    }

    /// Prints all of a text, as `write!` and `writeln!` make it. Where that fails, some of it may have been printed.
    pub fn write_fmt<D: Display + Drop>(&mut self, text: D) -> io::Result<()>
        ensures printed { OnOk result (IfSome (D.output text)
            (Appends self.old.contents self.new.contents)) }
        ensures counted { CountsFailure result self.old.failures self.new.failures }
    {
        let outcome = self.writer.write_fmt(text);
        self.note(&outcome);
        counted(outcome, &mut self.failures)
    }

    /// Why the last call to print that failed did.
    pub fn cause(&self) -> Option<Cause> {
        self.cause
    }

    /// Notes why a call to print failed.
    fn note(&mut self, outcome: &io::Result<()>)
        ensures { self.new ≡ self.old }
    {
        if let Err(error) = outcome {
            self.cause = Some(Cause::of(error.kind()));
        }
    }
}

/// The outcome of a call to print, which is counted where it failed.
fn counted(outcome: io::Result<()>, failures: &mut FailureCount) -> io::Result<()>
    ensures same { result ≡ outcome }
    ensures counted { CountsFailure outcome failures.old failures.new }
{
    match outcome {
        Ok(()) => Ok(()),
        Err(error) => {
            failures.add_one();
            Err(error)
        }
    }
}
