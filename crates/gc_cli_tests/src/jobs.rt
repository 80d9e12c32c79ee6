//! Orders over files in memory, and their faults.

use gc_cli::carry_out;
use gc_command::{Context, Fault, Silent};
use gc_disk::Files;
use gc_fixtures::MemFiles;
use gc_fixtures::compare::equal;
use gc_fixtures::refusing::Refusing;
use gc_order::{Order, order_of};
use std::alloc::{AllocError, Allocator, Global};
use std::sync::Wait;
use std::test::Fail;
use std::thread::Threads;

/// The command line of these arguments.
fn command_line(alloc: Global, arguments: &[&str]) -> Result<Vec<String>, AllocError> {
    let mut words = Vec::new(alloc);
    words.push(String::from_str(alloc, "halfgates")?)?;
    for argument in arguments {
        words.push(String::from_str(alloc, argument)?)?;
    }
    Ok(words)
}

/// The order of these arguments.
pub fn order(alloc: Global, arguments: &[&str]) -> Result<Order, Fail> {
    Ok(order_of(alloc, &command_line(alloc, arguments)?)?)
}

/// Carries out an order with memory of this allocator, without an observer, and returns its fault, if it has one.
fn fault_of<R: Threads + Wait + Sync, A: Allocator + Copy + Send + Sync, F: Files>(
    rt: &R,
    alloc: A,
    order: &Order,
    files: &mut F,
) -> Option<Fault> {
    let progress = &Silent;
    let context = Context {
        rt,
        alloc,
        progress,
    };
    carry_out(&context, order, files).err()
}

/// An order of a test, by its arguments.
#[derive(Drop)]
pub struct Trial<'a, R> {
    /// The runtime.
    pub rt: &'a R,
    /// The test's own allocator.
    pub alloc: Global,
    /// The arguments.
    pub words: &'a [&'a str],
}

impl<R: Threads + Wait + Sync> Trial<'_, R> {
    /// Carries out the order with memory of this allocator, without an observer, and returns its fault. No caller holds
    /// an order, since the proof that it is dropped on each path takes long.
    pub fn fault<A: Allocator + Copy + Send + Sync, F: Files>(
        &self,
        memory: A,
        files: &mut F,
    ) -> Result<Option<Fault>, Fail> {
        let order = order(self.alloc, self.words)?;
        Ok(fault_of(self.rt, memory, &order, files))
    }

    /// The same with memory of a heap that refuses one growth. Without a refusal there is no fault, and either way no
    /// sink is left open.
    pub fn fault_of_refusal<B: Allocator + Copy>(
        &self,
        heap: &Refusing<Global>,
        files: &mut MemFiles<'_, B>,
    ) -> Result<Option<Fault>, Fail> {
        let fault = self.fault(heap, files)?;
        equal((self.words, files.open_sinks()), (self.words, 0))?;
        if heap.refused() == 0 {
            equal((self.words, fault), (self.words, None))?;
        }
        Ok(fault)
    }
}
