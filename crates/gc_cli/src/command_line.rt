//! Reading the arguments.

ghost use Rattle.std.specs.Prelude.{◌≡◌, map, string_bytes, OnOk};
ghost use Rattle.gc_cli.specs.CommandLine.{IsAsked};

use clap::Error;
use clap::error::ErrorKind;
use gc_file::FailureCount;
use gc_order::{Asked, asked_of};
use std::alloc::Global;
use std::marker::Model;

/// The allocator of a run, and how often it had no memory to read the arguments. That number contracts alone read, and
/// only [`Heap::order`] raises it.
#[derive(Drop)]
pub struct Heap {
    alloc: Global,
    shortages: FailureCount,
}

impl Model for Heap {
    ghost use Rattle.std.specs.Prelude.{ℕ};

    ghost Value = { ℕ };

    ghost view = { λ m. m.shortages };
}

impl Heap {
    /// The heap of this allocator. No shortage is counted yet.
    pub fn new(alloc: Global) -> Heap
        ensures { result ≡ 0 }
    {
        Heap {
            alloc,
            shortages: FailureCount::new(),
        }
    }

    /// The allocator.
    pub fn alloc(&self) -> Global {
        self.alloc
    }

    /// The order in the arguments, of which the first is the program's name, and whether its fault is to be explained.
    /// For arguments that clap refuses, or that ask for help or the version, it returns clap's error, which has the
    /// text to show, and so is a line for which there is no memory.
    pub fn order(&mut self, words: &[String]) -> Result<Asked, Error>
        ensures asked { IsAsked (map string_bytes words.now) self.old self.new result }
        ensures same { OnOk result (self.new ≡ self.old) }
    {
        match asked_of(self.alloc, words) {
            Ok(asked) => Ok(asked),
            Err(error) => {
                if error.kind() == ErrorKind::OutOfMemory {
                    self.shortages.add_one();
                }
                Err(error)
            }
        }
    }
}
