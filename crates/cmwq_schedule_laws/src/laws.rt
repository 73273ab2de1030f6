//! What schedules leave, threads may leave.

ghost use Rattle.cmwq_json_script.specs.Scripts.{MayRun, run_of};
ghost use Rattle.cmwq_schedule_laws.specs.Firing.{BoardsFireAsSchedules};
ghost use Rattle.cmwq_schedule_laws.specs.Leaving.{CallsLeftOutAreTold, SchedulesLeave, SchedulesLeaveHistories};

use cmwq_json_script::Script;

/// Each schedule of a run inside the limits that ends leaves a history that the run may leave.
pub fn schedules_leave_histories()
    ensures { SchedulesLeaveHistories }
{}

/// Each schedule of a script that ends leaves a history that a run of the script may leave. Each script that is read
/// may run.
pub fn scripts_leave_histories(script: &Script)
    requires { MayRun script.now }
    ensures { SchedulesLeave (run_of script.now) }
{
    let _limits = script.shape.counts();
}

/// A history tells how many calls of callers were left out.
pub fn histories_tell_calls_left_out()
    ensures { CallsLeftOutAreTold }
{}

/// What a board fires after a tick or a drain is what a schedule fires.
pub fn boards_fire_as_schedules()
    ensures { BoardsFireAsSchedules }
{}
