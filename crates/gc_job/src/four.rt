//! Evaluating four jobs on one circuit side by side, on one thread.

ghost use Rattle.std.specs.Prelude.{◌≡◌, IfSome, Ok};
ghost use Rattle.gc_half.specs.Evaluation.{AreActive};
ghost use Rattle.gc_job.specs.Evaluate.{IsEvaluated};

use crate::detached::JobRef;
use gc_half::{Evaluation, FirstAnd, Four, evaluate_four_from, output_labels};
use gc_label::Label;
use std::alloc::Allocator;

/// The output bits of four jobs on one circuit, each those that [`evaluate`](crate::evaluate) returns. Where it returns
/// a fault for a job, and where memory runs out, there are none. The k-th AND gates of all four are evaluated at once.
/// The caller ensures that the circuits are equal.
pub fn evaluate_four<A: Allocator, B: Allocator + Copy, C: Allocator>(
    alloc: B,
    jobs: Four<JobRef<'_, A, C>>,
) -> Four<Option<Vec<bool, B>>>
    requires b { jobs.b.circuit ≡ jobs.a.circuit }
    requires c { jobs.c.circuit ≡ jobs.a.circuit }
    requires d { jobs.d.circuit ≡ jobs.a.circuit }
    ensures a { IfSome result.a (λ bits. IsEvaluated jobs.entry.a (Ok bits.items)) }
    ensures b { IfSome result.b (λ bits. IsEvaluated jobs.entry.b (Ok bits.items)) }
    ensures c { IfSome result.c (λ bits. IsEvaluated jobs.entry.c (Ok bits.items)) }
    ensures d { IfSome result.d (λ bits. IsEvaluated jobs.entry.d (Ok bits.items)) }
{
    let Four { a, b, c, d } = jobs;
    let given = Four {
        a: a.evaluation(),
        b: b.evaluation(),
        c: c.evaluation(),
        d: d.evaluation(),
    };
    let Ok(active) = evaluate_four_from(alloc, a.circuit(), FirstAnd::ZERO, given) else {
        return Four {
            a: None,
            b: None,
            c: None,
            d: None,
        };
    };
    Four {
        a: a.decoded(alloc, &active.a),
        b: b.decoded(alloc, &active.b),
        c: c.decoded(alloc, &active.c),
        d: d.decoded(alloc, &active.d),
    }
}

impl<'j, A: Allocator, C: Allocator> JobRef<'j, A, C> {
    /// What evaluating the job begins with.
    pub(crate) fn evaluation(&self) -> Evaluation<'j>
        ensures rows { result.rows.now ≡ self.now.rows }
        ensures inputs { result.inputs.now ≡ self.now.inputs }
    {
        Evaluation {
            rows: self.rows(),
            inputs: self.inputs(),
        }
    }

    /// The output bits that these labels of all wires decode to, if they do.
    fn decoded<B: Allocator + Copy>(&self, alloc: B, active: &[Label]) -> Option<Vec<bool, B>>
        requires { AreActive self.now.circuit self.now.rows self.now.inputs active.now }
        ensures { IfSome result (λ bits. IsEvaluated self.now (Ok bits.items)) }
    {
        let labels = output_labels(self.circuit(), active);
        self.decode(alloc, labels).ok()
    }
}
