//! The workers of a garbling or an evaluation.

/// The workers of a garbling or an evaluation: how many there are, their runtime, allocator and observer.
#[derive(Drop)]
pub struct Crew<'a, B, H, R> {
    /// The runtime, which starts their threads.
    pub rt: &'a R,
    /// Their allocator.
    pub alloc: B,
    /// How many there are.
    pub workers: u32,
    /// The observer: each gate is reported to it before its labels are made.
    pub observer: &'a H,
}
