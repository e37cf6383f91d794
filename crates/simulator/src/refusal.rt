//! Why a service refuses an event, as a script's output reports it.
ghost use Rattle.std.specs.Prelude.{◌≡◌, IfOk, OnOk, OnErr};
ghost use Rattle.script.specs.Output.{refusal_line};
ghost use Rattle.simulator.specs.Refusals.{refused_line};

use ballot::Memory;
use script::Refusal;
use world::Refused;

/// The refusal that is reported. Out of memory is none: the script ends.
pub(crate) fn refusal_of(refused: Refused) -> Result<Refusal, Memory>
    ensures line { IfOk result (λ refusal. refusal_line refusal ≡ refused_line refused) }
    ensures known { OnOk result (refused ≡ Refused.Memory → ⊥) }
    ensures memory { OnErr result (refused ≡ Refused.Memory) }
{
    match refused {
        Refused::NotSent => Ok(Refusal::NotSent),
        Refused::Down => Ok(Refusal::Down),
        Refused::NoSession => Ok(Refusal::NoSession),
        Refused::Busy => Ok(Refusal::Busy),
        Refused::NoSuchUser => Ok(Refusal::NoSuchUser),
        Refused::SessionExists => Ok(Refusal::SessionExists),
        Refused::Memory => Err(Memory),
    }
}
