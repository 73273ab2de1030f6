//! Actions for which there is no room.
ghost use Rattle.std.specs.Prelude.{◌≡◌, false, IfOk, IfErr};
ghost use Rattle.cmwq_monitor.specs.Faults.{is_full};
ghost use Rattle.cmwq_monitor.specs.declared.fault.RunFault.TheVariants.{Full};

use cmwq_model::Reply;
use cmwq_rt::RunFault;

/// An action for which there is no room is left out.
pub fn unless_full(answer: Result<Reply, RunFault>) -> Result<(), RunFault>
    ensures passes { IfOk result (λ _. IfErr answer (λ f. f ≡ Full)) }
    ensures broke { IfErr result (λ f. IfOk answer (λ _. ⊥) × IfErr answer (λ e. e ≡ f) × (is_full f ≡ false)) }
{
    match answer {
        Ok(_) | Err(RunFault::Full) => Ok(()),
        Err(fault) => Err(fault),
    }
}
