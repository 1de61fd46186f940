// Rules 1 to 8, 13 and 15: whether two operations stand against a link.
ghost use Rattle.std.specs.Prelude.{◌≡◌, ℕ, ◌<◌, ◌≤◌, get_or};
ghost use Rattle.base.specs.Below.{any_below};
ghost use Rattle.relation_places.specs.Places.{placed};
ghost use Rattle.judge_rules.specs.Tests.{stands_against, links_broken};

use crate::prefix::Prefix;
use record_decoded::types::{InstructionNo, OperationNo, wide};
use relation_links::link::link;
use relation_places::place_of;

impl Prefix<'_> {
    // Whether an operation of an instruction, which stands at a place, stands against a link of the rule to another operation.
    #[tactic(auto, unfolding(crate::specs::Tests::stands_against))]
    fn stands_against(
        &self,
        rule: u8,
        instruction: InstructionNo,
        from: OperationNo,
        place: u8,
        to: OperationNo,
    ) -> bool
        requires { (instruction.0 < 40) × (from.0 < 128) × (to.0 < 128) × (get_or self.now.operations.now.owners to.0 0 < 40) × (place ≡ placed self.now.places.now from.0) }
        ensures { result ≡ stands_against self.now.places.now rule self.now.operations.now.owners self.now.operations.now.roles self.now.execution.now.instructions.processors self.now.marks.now instruction.0 from.0 to.0 }
    {
        place_of(self.places, to) < place
            && {
                let t = self.operations;
                let i = instruction.0;
                let marks = self.marks[i][wide(t.owners[to.0])];
                let processor = self.execution.instructions.processors[i];
                link(rule, marks, processor, t.roles[from.0], t.roles[to.0])
            }
    }

    // Whether an operation stands against a link of the rule to some operation.
    fn links_broken_from(&self, rule: u8, from: OperationNo) -> bool
        requires { (self.now.operations.now.count ≤ 128) × (from.0 < self.now.operations.now.count) × ((o : ℕ) → o < self.now.operations.now.count → get_or self.now.operations.now.owners o 0 < 40) }
        ensures { result ≡ any_below self.now.operations.now.count (stands_against self.now.places.now rule self.now.operations.now.owners self.now.operations.now.roles self.now.execution.now.instructions.processors self.now.marks.now (get_or self.now.operations.now.owners from.0 0) from.0) }
    {
        let i = InstructionNo(wide(self.operations.owners[from.0]));
        let place = place_of(self.places, from);
        (0..self.operations.count).any(|b| self.stands_against(
            rule,
            i,
            from,
            place,
            OperationNo(b),
        ))
    }

    // Whether some two operations stand against a link of the rule.
    pub fn links_broken(&self, rule: u8) -> bool
        requires { (self.now.operations.now.count ≤ 128) × ((o : ℕ) → o < self.now.operations.now.count → get_or self.now.operations.now.owners o 0 < 40) }
        ensures { result ≡ links_broken self.now.places.now rule self.now.operations.now.count self.now.operations.now.owners self.now.operations.now.roles self.now.execution.now.instructions.processors self.now.marks.now }
    {
        (0..self.operations.count).any(|a| self.links_broken_from(rule, OperationNo(a)))
    }
}
