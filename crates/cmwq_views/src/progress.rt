//! What a page is written of.
ghost use Rattle.std.specs.Prelude.{◌≡◌, ◌<◌, length};
ghost use Rattle.cmwq_model.specs.Prelude.{past_of, width};
ghost use Rattle.cmwq_views.specs.Summary.{summed_of};

use cmwq_base::QueueId;
use cmwq_core::Judge;
use cmwq_summary::Summary;
use std::marker::Model;

/// The summary of a legal history, and its judge, which knows the widths at the end.
#[derive(Drop)]
pub(crate) struct Progress<'a> {
    judge: &'a Judge,
    summary: &'a Summary,
}

impl<'a> Model for Progress<'a> {
    ghost use Rattle.std.specs.Prelude.{◌≡◌};
    ghost use Rattle.cmwq_core.specs.Judged.{Judged};
    ghost use Rattle.cmwq_views.specs.Summary.{summed_of};

    ghost Value = { Judged };

    ghost view = { λ p. p.judge.now };

    ghost invariant = { λ p. p.summary.now ≡ summed_of p.judge.now };
}

impl<'a> Progress<'a> {
    pub(crate) fn new(judge: &'a Judge, summary: &'a Summary) -> Progress<'a>
        requires { summary.now ≡ summed_of judge.now }
        ensures { result ≡ judge.now }
    {
        Progress { judge, summary }
    }

    pub(crate) fn summary(&self) -> &Summary
        ensures { result.now ≡ summed_of self.now }
    {
        self.summary
    }

    /// How wide a queue is.
    pub(crate) fn width(&self, queue: QueueId) -> u32
        requires { queue.0 < length self.now.layout.queues }
        ensures { result ≡ width self.now.layout (past_of self.now.entries) queue.0 }
    {
        self.judge.state().width(queue)
    }
}
