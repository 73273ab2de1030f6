//! The word `replay`.

ghost use Rattle.std.specs.Prelude.{◌≡◌, ◌⊎◌, Result, ⊤, Ok, Err, IfOk, IfErr, IfSome, OnOk, IsErrOf, string_bytes};
ghost use Rattle.serde_json.specs.View.{view};
ghost use Rattle.cmwq_io.specs.Counts.{Rises};
ghost use Rattle.cmwq_json.specs.declared.fault.Fault.{Fault as TheFault};
ghost use Rattle.cmwq_json.specs.declared.refused.Refused.{Refused as TheRefused};
ghost use Rattle.cmwq_replay.specs.Scenarios.{PlanWithNames, scenario_of};
ghost use Rattle.cmwq_replay.specs.Replay.{ReplayEnds, table_text, replay_status};

use crate::read_scenario;
use cmwq_io::{Sink, Source, tell};
use cmwq_json::{Fault, fault_status, read_value, write_text};
use cmwq_sim::spell_lines;
use serde_json::Value;
use std::alloc::Global;

/// The table of the scenario that a value names.
fn table_of(alloc: Global, value: &Value) -> Result<String, Fault>
    ensures table { IfOk result (λ text. (p : PlanWithNames) × (scenario_of (view value.now) ≡ Ok p)
        × (string_bytes text ≡ table_text p)) }
    ensures refused { IfErr result
        (λ e. (e ≡ Fault.NoMemory)
        ⊎ ((r : TheRefused) × (e ≡ Fault.Member r) × (scenario_of (view value.now) ≡ Err r))) }
{
    let script = read_scenario(alloc, value)??;
    let lines = cmwq_sim::replay(alloc, &script.scenario)?;
    let text = spell_lines(alloc, &script.names, &lines)?;
    Ok(text)
}

/// Reads a scenario, and then writes its table.
fn replay<S: Source, O: Sink>(alloc: Global, input: &mut S, output: &mut O) -> Result<(), Fault>
    ensures ends { IfSome (S.left input.old)
        (λ text. ReplayEnds text (O.written output.old) (O.written output.new) result) }
    ensures flushed { OnOk result (O.held output.new ≡ 0) }
    ensures read_fault { IsErrOf result Fault.ReadFault → Rises (S.troubles input.old) (S.troubles input.new) }
    ensures write_fault { IsErrOf result Fault.WriteFault → Rises (O.troubles output.old) (O.troubles output.new) }
{
    let value = read_value(alloc, input)?;
    let table = table_of(alloc, &value)?;
    write_text(output, table.as_str())?;
    Ok(())
}

/// Reads all of a scenario in JSON, and then writes its table, and nothing else: a heading, and a line for each event.
/// What went wrong is told on `errors`, whose own failing changes nothing. Answers the exit status: 0 done, 1 refused
/// input, 4 no memory, 5 a fault of reading or writing. At 1, at want of memory and at a fault of reading nothing is
/// written to `output`; at a fault of writing a front of the table is.
pub fn run_replay<S: Source, O: Sink, E: Sink>(
    alloc: Global,
    input: &mut S,
    output: &mut O,
    errors: &mut E,
) -> u8
    ensures ends { (ended : Result ⊤ TheFault)
        × (result ≡ replay_status ended)
        × IfSome (S.left input.old) (λ text. ReplayEnds text (O.written output.old) (O.written output.new) ended)
        × OnOk ended (O.held output.new ≡ 0)
        × (IsErrOf ended Fault.ReadFault → Rises (S.troubles input.old) (S.troubles input.new))
        × (IsErrOf ended Fault.WriteFault → Rises (O.troubles output.old) (O.troubles output.new)) }
{
    let ended = replay(alloc, input, output);
    if let Err(fault) = ended {
        tell(errors, fault);
    }
    status(&ended)
}

/// The exit status of a run that ended so.
fn status(ended: &Result<(), Fault>) -> u8
    ensures { result ≡ replay_status ended.now }
{
    match ended {
        Ok(()) => 0,
        Err(fault) => fault_status(*fault),
    }
}
