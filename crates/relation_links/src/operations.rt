// The table of operations: for each operation the number of its instruction, and its role.
ghost use Rattle.std.specs.Prelude.{◌≡◌, ◌++◌, ◌+◌, ◌<◌, ◌≤◌, length, get_or};
ghost use Rattle.base.specs.Lists.{for};
ghost use Rattle.model.specs.Execution.{kind_of, roles, operation_count, operations_of};
ghost use Rattle.model.specs.Accepted.{Consecutive};
ghost use Rattle.record_decoded.specs.Decoded.{instruction_at, instructions_of};
ghost use Rattle.relation_links.specs.Operations.{table_of, Tabled};

use record_decoded::kind::{kind_of, operation_count, role_of};
use record_decoded::position::Position;
use record_decoded::types::{InstructionNo, Instructions};

#[derive(Clone, Copy)]
pub struct Operations {
    pub count: usize,
    pub owners: [u8; Position::LIMIT],
    pub roles: [u8; Position::LIMIT],
}

// The table with the operations of one instruction more.
fn with_operations(
    t: Operations,
    is: Instructions,
    instruction: InstructionNo,
    processors: usize,
) -> Operations
    requires next { (instruction.0 < 40) × (processors ≤ 8) × (t.count ≡ get_or is.firsts instruction.0 0) }
    requires room { t.count + length (roles processors (kind_of (get_or is.kinds instruction.0 0))) ≤ 128 }
    ensures { Tabled is result (table_of is t ++ operations_of processors (instruction_at is instruction.0)) (t.count + length (roles processors (kind_of (get_or is.kinds instruction.0 0)))) }
{
    let number = instruction.0;
    let kind = kind_of(is.kinds[number]);
    let n = operation_count(kind, processors);
    let mut owners = t.owners;
    let mut roles = t.roles;
    for place in 0..n {
        let o = t.count + place;
        owners[o] = number as u8;
        roles[o] = role_of(kind, place as u8);
    }
    Operations {
        count: t.count + n,
        owners,
        roles,
    }
}

// The operations of all instructions, by number.
pub fn operations_of(is: Instructions, processors: usize) -> Operations
    requires bounds { (processors ≤ 8) × (is.count ≤ 40) × (operation_count processors (instructions_of is) ≤ 128) }
    requires consecutive { Consecutive processors 0 0 (instructions_of is) }
    ensures { Tabled is result (for (instructions_of is) (operations_of processors)) (operation_count processors (instructions_of is)) }
{
    let mut table = Operations {
        count: 0,
        owners: [0u8; Position::LIMIT],
        roles: [0u8; Position::LIMIT],
    };
    for i in 0..is.count {
        table = with_operations(table, is, InstructionNo(i), processors);
    }
    table
}
