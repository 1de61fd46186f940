// Rules 9, 10, 12, 14 and 16: what two instructions, by their marks, ask of the places of their operations.
ghost use Rattle.std.specs.Prelude.{◌≡◌, ◌<◌, ◌≤◌, eqb};
ghost use Rattle.base.specs.Below.{any_below};
ghost use Rattle.model.specs.Execution.{RV, number_of};
ghost use Rattle.model.specs.Rules.{RV_own};
ghost use Rattle.record_decoded.specs.Kinds.{role_meant, role_processor};
ghost use Rattle.record_decoded.specs.Decoded.{instruction_at};
ghost use Rattle.relation_places.specs.Places.{before_by};
ghost use Rattle.relation_marks.specs.Marks.{mark_at};
ghost use Rattle.judge_rules.specs.Tests.{remote_before, own_turned, remote_turned, release_split_by, release_split, bypassed, semaphore_split, pair_broken, pairs_broken};

use crate::prefix::Prefix;
use record_decoded::kind::Role;
use record_decoded::number::number_at;
use record_decoded::types::{InstructionNo, OperationNo, wide};
use relation_marks::table::{ATOMIC, BYPASS, CONFLICT, SEMAPHORE, has_mark};
use relation_places::before;

impl Prefix<'_> {
    // The processor of an instruction.
    #[tactic(auto, unfolding(record_decoded::specs::Decoded::instruction_at))]
    fn processor_of(&self, i: InstructionNo) -> usize
        requires { i.0 < 40 }
        ensures { (result ≡ (instruction_at self.now.execution.now.instructions i.0).processor) × (result < 256) }
    {
        wide(self.execution.instructions.processors[i.0])
    }

    // The number of the operation of instruction i in a role.
    fn number(&self, i: InstructionNo, role: Role) -> OperationNo
        requires { (i.0 < 40) × (role_processor role < 65536) }
        ensures { result.0 ≡ number_of (instruction_at self.now.execution.now.instructions i.0) (role_meant role) }
    {
        number_at(self.execution.instructions, i, role)
    }

    // The number of the RV of instruction i to its own processor.
    fn own_no(&self, i: InstructionNo) -> OperationNo
        requires { i.0 < 40 }
        ensures { result.0 ≡ RV_own (instruction_at self.now.execution.now.instructions i.0) }
    {
        self.number(i, Role::RV(self.processor_of(i)))
    }

    // Whether one operation stands before another.
    fn is_before(&self, a: OperationNo, b: OperationNo) -> bool
        ensures { result ≡ before_by self.now.places.now a.0 b.0 }
    {
        before(self.places, a, b)
    }

    // Rule 9: of one processor, LV before LV, and not the own RVs.
    #[tactic(auto, unfolding(crate::specs::Tests::own_turned))]
    fn own_turned(&self, v: InstructionNo, w: InstructionNo) -> bool
        requires { (v.0 < 40) × (w.0 < 40) }
        ensures { result ≡ own_turned self.now.places.now (instruction_at self.now.execution.now.instructions v.0) (instruction_at self.now.execution.now.instructions w.0) }
    {
        self.processor_of(v) == self.processor_of(w)
            && self.is_before(self.number(v, Role::LV), self.number(w, Role::LV))
            && self.is_before(self.own_no(w), self.own_no(v))
    }

    // Whether some RV of v is before that of w to the same processor.
    fn remote_before(&self, v: InstructionNo, w: InstructionNo) -> bool
        requires { (v.0 < 40) × (w.0 < 40) × (self.now.execution.now.processors ≤ 255) }
        ensures { result ≡ remote_before self.now.places.now self.now.execution.now.processors (instruction_at self.now.execution.now.instructions v.0) (instruction_at self.now.execution.now.instructions w.0) }
    {
        (0..self.execution.processors).any(|q| self.is_before(
            self.number(v, Role::RV(q)),
            self.number(w, Role::RV(q)),
        ))
    }

    // Rule 10: some RV before the other's, and some after.
    #[tactic(auto, unfolding(crate::specs::Tests::remote_turned))]
    fn remote_turned(&self, v: InstructionNo, w: InstructionNo) -> bool
        requires { (v.0 < 40) × (w.0 < 40) × (self.now.execution.now.processors ≤ 255) }
        ensures { result ≡ remote_turned self.now.places.now self.now.execution.now.processors (instruction_at self.now.execution.now.instructions v.0) (instruction_at self.now.execution.now.instructions w.0) }
    {
        self.remote_before(v, w) && self.remote_before(w, v)
    }

    // Whether an operation is one of the RVs of v.
    fn is_remote_of(&self, v: InstructionNo, operation: OperationNo) -> bool
        requires { (v.0 < 40) × (self.now.execution.now.processors ≤ 255) }
        ensures { result ≡ any_below self.now.execution.now.processors (λ q. eqb (number_of (instruction_at self.now.execution.now.instructions v.0) (RV q)) operation.0) }
    {
        (0..self.execution.processors).any(|q| self.number(v, Role::RV(q)).0 == operation.0)
    }

    // Whether it stands after one of them.
    fn is_after_remote(&self, v: InstructionNo, operation: OperationNo) -> bool
        requires { (v.0 < 40) × (self.now.execution.now.processors ≤ 255) }
        ensures { result ≡ any_below self.now.execution.now.processors (λ q. before_by self.now.places.now (number_of (instruction_at self.now.execution.now.instructions v.0) (RV q)) operation.0) }
    {
        (0..self.execution.processors).any(|q| self.is_before(
            self.number(v, Role::RV(q)),
            operation,
        ))
    }

    // Whether it stands before one of them. As one function with the one above it would take a flag, which would be no plainer.
    fn is_before_remote(&self, v: InstructionNo, operation: OperationNo) -> bool
        requires { (v.0 < 40) × (self.now.execution.now.processors ≤ 255) }
        ensures { result ≡ any_below self.now.execution.now.processors (λ q. before_by self.now.places.now operation.0 (number_of (instruction_at self.now.execution.now.instructions v.0) (RV q))) }
    {
        (0..self.execution.processors).any(|q| self.is_before(
            operation,
            self.number(v, Role::RV(q)),
        ))
    }

    // Whether it is none of them, and stands after one and before another.
    #[tactic(auto, unfolding(crate::specs::Tests::release_split_by))]
    fn splits_release(&self, v: InstructionNo, operation: OperationNo) -> bool
        requires { (v.0 < 40) × (self.now.execution.now.processors ≤ 255) }
        ensures { result ≡ release_split_by self.now.places.now self.now.execution.now.processors (instruction_at self.now.execution.now.instructions v.0) operation.0 }
    {
        !self.is_remote_of(v, operation)
            && self.is_after_remote(v, operation)
            && self.is_before_remote(v, operation)
    }

    // Rule 12: whether some operation splits the RVs of v.
    fn release_split(&self, v: InstructionNo) -> bool
        requires { (v.0 < 40) × (self.now.execution.now.processors ≤ 255) }
        ensures { result ≡ release_split self.now.places.now self.now.operations.now.count self.now.execution.now.processors (instruction_at self.now.execution.now.instructions v.0) }
    {
        (0..self.operations.count).any(|o| self.splits_release(v, OperationNo(o)))
    }

    // Rule 14: LV, then R, then the own RV.
    #[tactic(auto, unfolding(crate::specs::Tests::bypassed))]
    fn bypassed(&self, v: InstructionNo, w: InstructionNo) -> bool
        requires { (v.0 < 40) × (w.0 < 40) }
        ensures { result ≡ bypassed self.now.places.now (instruction_at self.now.execution.now.instructions v.0) (instruction_at self.now.execution.now.instructions w.0) }
    {
        let reads = self.number(w, Role::R);
        self.is_before(self.number(v, Role::LV), reads) && self.is_before(reads, self.own_no(v))
    }

    // Rule 16: R of v, then the RV of w to its processor, then its own RV.
    #[tactic(auto, unfolding(crate::specs::Tests::semaphore_split))]
    fn semaphore_split(&self, v: InstructionNo, w: InstructionNo) -> bool
        requires { (v.0 < 40) × (w.0 < 40) }
        ensures { result ≡ semaphore_split self.now.places.now (instruction_at self.now.execution.now.instructions v.0) (instruction_at self.now.execution.now.instructions w.0) }
    {
        let between = self.number(w, Role::RV(self.processor_of(v)));
        self.is_before(self.number(v, Role::R), between) && self.is_before(between, self.own_no(v))
    }

    // Whether two instructions, by their marks, break the rule.
    #[tactic(auto, unfolding(crate::specs::Tests::pair_broken))]
    fn pair_broken(&self, rule: u8, marks: u16, v: InstructionNo, w: InstructionNo) -> bool
        requires { (v.0 < 40) × (w.0 < 40) × (self.now.execution.now.processors ≤ 255) }
        ensures { result ≡ pair_broken self.now.places.now rule marks self.now.operations.now.count self.now.execution.now.processors (instruction_at self.now.execution.now.instructions v.0) (instruction_at self.now.execution.now.instructions w.0) }
    {
        match rule {
            9 => has_mark(marks, CONFLICT) && self.own_turned(v, w),
            10 => has_mark(marks, CONFLICT) && self.remote_turned(v, w),
            12 => has_mark(marks, ATOMIC) && self.release_split(v),
            14 => has_mark(marks, BYPASS) && self.bypassed(v, w),
            16 => has_mark(marks, SEMAPHORE) && self.semaphore_split(v, w),
            _ => false,
        }
    }

    // Whether instruction i breaks the rule with some instruction.
    fn pairs_broken_with(&self, rule: u8, i: InstructionNo) -> bool
        requires { (self.now.execution.now.instructions.count ≤ 40) × (i.0 < 40) × (self.now.execution.now.processors ≤ 255) }
        ensures { result ≡ any_below self.now.execution.now.instructions.count (λ j. pair_broken self.now.places.now rule (mark_at self.now.marks.now i.0 j) self.now.operations.now.count self.now.execution.now.processors (instruction_at self.now.execution.now.instructions i.0) (instruction_at self.now.execution.now.instructions j)) }
    {
        let marks = &self.marks[i.0];
        (0..self.execution.instructions.count).any(|j| self.pair_broken(
            rule,
            marks[j],
            i,
            InstructionNo(j),
        ))
    }

    // Whether some two instructions break rule 9, 10, 12, 14 or 16.
    pub fn pairs_broken(&self, rule: u8) -> bool
        requires { (self.now.execution.now.instructions.count ≤ 40) × (self.now.execution.now.processors ≤ 255) }
        ensures { result ≡ pairs_broken self.now.places.now rule self.now.execution.now.instructions self.now.marks.now self.now.operations.now.count self.now.execution.now.processors }
    {
        (0..self.execution.instructions.count).any(|i| self.pairs_broken_with(
            rule,
            InstructionNo(i),
        ))
    }
}
