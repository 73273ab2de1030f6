//! Laws of the histories that resume others.

ghost use Rattle.cmwq_resume.specs.Plays.{PlansPlay, ResumedAreSteady, ResumedLoseNothing, ResumesFitAgain};
ghost use Rattle.cmwq_resume.specs.Plays.{ResumesHaveRoom, ResumesNeedNoMoreRoom, ResumesPlay};

/// The calls of a sound plan all succeed, and leave what the plan says, and nothing else.
pub fn plans_play()
    ensures { PlansPlay }
{}

/// The calls that resume a legal history all succeed, and make a legal history that resumes it.
pub fn resumes_play()
    ensures { ResumesPlay }
{}

/// The same calls resume a history and one that resumes it.
pub fn resumed_are_steady()
    ensures { ResumedAreSteady }
{}

/// Where there is room for four entries a call, no call is left out.
pub fn resumes_have_room()
    ensures { ResumesHaveRoom }
{}

/// The history that they make, with all that it owes, takes no more room than the old one. So where that had room, no
/// call is left out.
pub fn resumes_need_no_more_room()
    ensures needs { ResumesNeedNoMoreRoom }
    ensures fits { ResumesFitAgain }
{}

/// Nothing that was pending is lost. Of the runs only those are lost that were being cancelled, or are left out.
pub fn resumed_lose_nothing()
    ensures { ResumedLoseNothing }
{}
