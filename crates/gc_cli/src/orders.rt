//! Carrying out orders.

ghost use Rattle.std.specs.Prelude.{◌≡◌, ℕ, List, IfOk, IfErr, OnErr};
ghost use Rattle.gc_order.specs.Order.{order_text};
ghost use Rattle.gc_disk.specs.Files.{HasFailed};
ghost use Rattle.gc_command.specs.Wrote.{KeepsFiles};
ghost use Rattle.gc_cli.specs.CarryOut.{AnswersCommand, HasFault, Writes};

use crate::order_result::OrderResult;
use gc_command::audit::audit;
use gc_command::check::check;
use gc_command::deal::deal;
use gc_command::eval::eval;
use gc_command::garble::garble;
use gc_command::jobs::jobs;
use gc_command::labels::labels;
use gc_command::locate::locate;
use gc_command::order::order as by_depth;
use gc_command::plain::plain;
use gc_command::run::run;
use gc_command::stats::stats;
use gc_command::{Context, Fault, Progress};
use gc_disk::Files;
use gc_order::Order;
use std::alloc::Allocator;
use std::sync::Wait;
use std::thread::Threads;

/// Carries out an order, and returns its result, or the first fault of its work.
pub fn carry_out<
    R: Threads + Wait + Sync,
    A: Allocator + Copy + Send + Sync,
    F: Files,
    P: Progress,
>(context: &Context<'_, R, A, P>, order: &Order, files: &mut F) -> Result<OrderResult<A>, Fault>
    ensures answers { IfOk result (λ answer. AnswersCommand (F.bytes files.old) (F.bytes files.new)
        (order_text order.now) answer.is_honest answer.lines) }
    ensures fault { IfErr result (HasFault (F.bytes files.old)
        (HasFailed (F.failures files.old) (F.failures files.new)) (order_text order.now)) }

    // A file changes only where the order writes it, and is as it was after any fault.
    ensures others { (name : List ℕ) → ¬ Writes (order_text order.now) name
        → F.bytes files.new name ≡ F.bytes files.old name }
    ensures unwritten { OnErr result (KeepsFiles (F.bytes files.old) (F.bytes files.new)) }
{
    let alloc = context.alloc;
    match order {
        Order::Run(order) => Ok(OrderResult::made(run(context, order, files)?)),
        Order::Plain(order) => Ok(OrderResult::made(plain(alloc, order, files)?)),
        Order::Check { circuit } => Ok(OrderResult::made(check(context, circuit.as_str(), files)?)),
        Order::Locate { circuit } => Ok(OrderResult::made(locate(alloc, circuit.as_str(), files)?)),
        Order::Stats { circuit } => Ok(OrderResult::made(stats(alloc, circuit.as_str(), files)?)),
        Order::ByDepth(order) => Ok(OrderResult::made(by_depth(context, order, files)?)),
        Order::Garble(order) => Ok(OrderResult::made(garble(context, order, files)?)),
        Order::Deal(order) => Ok(OrderResult::made(deal(alloc, order, files)?)),
        Order::Eval(order) => Ok(OrderResult::made(eval(context, order, files)?)),
        Order::Jobs(order) => Ok(OrderResult::made(jobs(context, order, files)?)),
        Order::Labels(order) => Ok(OrderResult::of_labels(labels(alloc, order, files)?)),
        Order::Audit(order) => Ok(OrderResult::of_audit(audit(context, order, files)?)),
    }
}
