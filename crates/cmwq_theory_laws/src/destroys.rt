//! What becomes of a queue that is destroyed.

ghost use Rattle.cmwq_theory_laws.specs.Gone.{GoneStayEmpty, GoneStayGone};

/// After the end of a destroy was answered done, nothing of the queue is open and no item is booked on it, however the
/// history goes on.
pub fn gone_stay_empty()
    ensures { GoneStayEmpty }
{}

/// A queue that is gone stays so.
pub fn gone_stay_gone()
    ensures { GoneStayGone }
{}
