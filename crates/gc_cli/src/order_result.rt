//! What orders return, and printing it.

ghost use Rattle.std.specs.Prelude.{◌≡◌, true, IfErr, OnOk};
ghost use Rattle.std.specs.Io.KnownBytes.{Appends};
ghost use Rattle.gc_cli.specs.Serve.{FailsToPrint};

use crate::output::Output;
use gc_command::Fault;
use gc_command::audit::Audited;
use gc_command::labels::LabelLines;
use std::alloc::Allocator;
use std::io::Write;
use std::marker::Model;

/// What an order returns.
#[derive(Drop)]
pub struct OrderResult<A: Allocator> {
    /// The lines for standard output.
    pub lines: Lines<A>,
    /// Whether an audit finds the files honest; true of any other order.
    pub is_honest: bool,
}

impl<A: Allocator> OrderResult<A> {
    /// The result of an order that is neither `labels` nor an audit: lines that are made.
    pub(crate) fn made(bytes: Vec<u8, A>) -> OrderResult<A>
        ensures lines { result.lines ≡ bytes.items }
        ensures honest { result.is_honest ≡ true }
    {
        OrderResult {
            lines: Lines {
                left: Left::Made(bytes),
            },
            is_honest: true,
        }
    }

    /// The result of `labels`.
    pub(crate) fn of_labels(lines: LabelLines<A>) -> OrderResult<A>
        ensures lines { result.lines ≡ lines }
        ensures honest { result.is_honest ≡ true }
    {
        OrderResult {
            lines: Lines {
                left: Left::Labels(lines),
            },
            is_honest: true,
        }
    }

    /// The result of an audit.
    pub(crate) fn of_audit(found: Audited<A>) -> OrderResult<A>
        ensures lines { result.lines ≡ found.lines.items }
        ensures honest { result.is_honest ≡ found.is_honest }
    {
        OrderResult {
            lines: Lines {
                left: Left::Made(found.lines),
            },
            is_honest: found.is_honest,
        }
    }
}

/// The lines of an order: a contract sees their bytes.
#[derive(Drop)]
pub struct Lines<A: Allocator> {
    left: Left<A>,
}

/// The lines that are left.
#[derive(Drop)]
enum Left<A: Allocator> {
    /// All of them are made.
    Made(Vec<u8, A>),
    /// Those of `labels` are made as they are printed.
    Labels(LabelLines<A>),
}

impl<A: Allocator> Model for Lines<A> {
    ghost use Rattle.std.specs.Prelude.{ℕ, List};
    ghost use Rattle.gc_cli.specs.Lines.{left_bytes};

    ghost Value = { List ℕ };

    ghost view = { λ l. left_bytes l.left };
}

impl<A: Allocator> Lines<A> {
    /// Prints the lines. Those of `labels` are made as they are printed, so that they need not all be in memory.
    pub fn print<O: Write>(self, out: &mut Output<O>) -> Result<(), Fault>
        ensures done { OnOk result ((Appends out.old.contents out.new.contents self)
            × (out.new.failures ≡ out.old.failures)) }
        ensures fault { IfErr result (FailsToPrint out.old out.new) }
    {
        match self.left {
            Left::Made(bytes) => print_bytes(&bytes, out),
            Left::Labels(lines) => print_labels(lines, out),
        }
    }
}

/// Prints the bytes.
fn print_bytes<O: Write>(bytes: &[u8], out: &mut Output<O>) -> Result<(), Fault>
    ensures done { OnOk result ((Appends out.old.contents out.new.contents bytes.now)
        × (out.new.failures ≡ out.old.failures)) }
    ensures fault { IfErr result (FailsToPrint out.old out.new) }
{
    match out.write_all(bytes) {
        Ok(()) => Ok(()),
        Err(_) => Err(Fault::CannotWrite),
    }
}

/// Prints the lines that are left, as they are made.
fn print_labels<A: Allocator, O: Write>(
    mut left: LabelLines<A>,
    out: &mut Output<O>,
) -> Result<(), Fault>
    ensures done { OnOk result ((Appends out.old.contents out.new.contents left)
        × (out.new.failures ≡ out.old.failures)) }
    ensures fault { IfErr result (FailsToPrint out.old out.new) }
{
    loop {
        let piece = left.next_lines();
        if piece.is_empty() {
            return Ok(());
        }
        print_bytes(&piece, out)?;
    }
}
