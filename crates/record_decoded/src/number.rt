// The number of an operation, by its instruction and its role.
ghost use Rattle.std.specs.Prelude.{◌≡◌, ◌<◌};
ghost use Rattle.model.specs.Execution.{number_of};
ghost use Rattle.record_decoded.specs.Kinds.{role_meant, role_processor};
ghost use Rattle.record_decoded.specs.Decoded.{instruction_at};

use crate::kind::{Role, kind_of, number_of};
use crate::types::{InstructionNo, Instructions, OperationNo, wide16};

// The number of an instruction's operation with a role.
pub fn number_at(is: Instructions, i: InstructionNo, role: Role) -> OperationNo
    requires { (i.0 < 40) × (role_processor role < 65536) }
    ensures { result.0 ≡ number_of (instruction_at is i.0) (role_meant role) }
{
    let at = i.0;
    let firsts = is.firsts;
    let kinds = is.kinds;
    let first = wide16(firsts[at]);
    let kind = kind_of(kinds[at]);
    number_of(OperationNo(first), kind, role)
}
