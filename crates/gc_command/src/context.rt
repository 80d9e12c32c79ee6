//! What commands run with.

use std::alloc::Allocator;

/// What a command runs with, besides its order and its files.
#[derive(Drop)]
pub struct Context<'a, R, A: Allocator, P> {
    /// The runtime, which starts threads.
    pub rt: &'a R,
    /// The allocator.
    pub alloc: A,
    /// The observer of the command's steps.
    pub progress: &'a P,
}
