// The lowest rule that a prefix breaks, from the tables of an execution and the places of the prefix.
ghost use Rattle.std.specs.Prelude.{◌≡◌, List, [], ℕ, ◌-◌, ◌≤◌, get_or};
ghost use Rattle.base.specs.Lists.{any};
ghost use Rattle.model.specs.Rules.{rules, broken, lowest_broken};
ghost use Rattle.record_decoded.specs.Decoded.{execution_of};
ghost use Rattle.relation_places.specs.Places.{Placed};
ghost use Rattle.relation_links.specs.Compiled.{Compiled};
ghost use Rattle.judge_rules.specs.Lowest.{lowest_meant};

use crate::prefix::Prefix;
use judge_sights::sights_broken;
use record_decoded::position::Position;
use record_decoded::types::{Execution, MOST_INSTRUCTIONS};
use relation_links::operations::Operations;

// How many visibility rules there are. Rules go by the note's numbers, which the judge answers with.
const RULES: u8 = 16;

impl Prefix<'_> {
    // Whether the prefix breaks a rule from 1 to 16.
    fn rule_broken(&self, rule: u8) -> bool
        requires bounds { (1 ≤ rule) × (rule ≤ 16) × (self.now.execution.now.instructions.count ≤ 40) × (self.now.execution.now.lines.count ≤ 8) × (self.now.execution.now.processors ≤ 8) × (self.now.operations.now.count ≤ 128) }
        requires compiled { Compiled self.now.execution.now self.now.operations.now self.now.marks.now }
        ensures { (n : ℕ) (xs : List ℕ) → Placed n xs self.now.places.now → result ≡ any (broken xs) (get_or (rules (execution_of self.now.bytes.now self.now.execution.now)) (rule - 1) []) }
    {
        match rule {
            9 | 10 | 12 | 14 | 16 => self.pairs_broken(rule),
            11 => sights_broken(self.bytes, self.execution, self.places),
            _ => self.links_broken(rule),
        }
    }
}

// The number of the lowest rule that a prefix breaks.
pub fn lowest_broken<'a>(
    bytes: &'a [u8],
    x: Execution,
    t: Operations,
    marks: &'a [[u16; MOST_INSTRUCTIONS]; MOST_INSTRUCTIONS],
    places: &'a [u8; Position::LIMIT],
) -> Option<u8>
    requires bounds { (x.instructions.count ≤ 40) × (x.lines.count ≤ 8) × (x.processors ≤ 8) × (t.count ≤ 128) }
    requires compiled { Compiled x t marks.now }
    ensures { (n : ℕ) (xs : List ℕ) → Placed n xs places.now → lowest_meant result ≡ lowest_broken (execution_of bytes.now x) xs }
{
    let prefix = Prefix {
        bytes,
        execution: &x,
        operations: &t,
        marks,
        places,
    };
    (1..RULES + 1).find(|&rule| prefix.rule_broken(rule))
}
