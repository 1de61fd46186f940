// The sets of operations that the search reads, for each operation.
#![tactic(auto)]

ghost use Rattle.std.specs.Prelude.{◌≡◌, true, false, ◌&&◌, ◌||◌, ℕ, ◌<◌, ◌≤◌, get_or, eqb};
ghost use Rattle.model.specs.Execution as model;
ghost use Rattle.model.specs.Execution.{RV, is_store, kind_of, number_from};
ghost use Rattle.record_decoded.specs.Kinds.{meant, role_numbered};
ghost use Rattle.relation_marks.specs.Marks.{mark_at};
ghost use Rattle.search_sets.specs.Set.{holds};
ghost use Rattle.base.specs.Below.{any_below};
ghost use Rattle.search_admit.specs.Rows.{awaited_by};
ghost use Rattle.relation_links.specs.Linked.{linked_by};
ghost use Rattle.search_constraints.specs.Rows.{is_remote, partner_of, remote_linked, local_linked, linked_from, linked_of, own_store_by};

use record_decoded::kind::{
    Kind, ROLE_R, ROLE_RV, Role, before_remotes, is_store, kind_of, number_of, role_of,
};
use record_decoded::types::{InstructionNo, MOST_INSTRUCTIONS, OperationNo, wide, wide16};
use relation_links::link::is_linked;
use relation_marks::table::{
    ATOMIC, BYPASS, CONFLICT, FENCE, LINK_MARKS, RELEASE, REMOTE_LINK_MARKS, SAME, has_mark,
    overlaps,
};
use search_sets::Set;

// A set, with all RVs of a store, by its kind and its first operation.
fn with_every_remote(set: Set, kind: Kind, first: OperationNo, processors: usize) -> Set
    requires { (first.0 < 65536) × (processors ≤ 8) }
    ensures { (a : ℕ) → a < 128 → holds result.lo result.hi a ≡ (holds set.lo set.hi a || is_remote (meant kind) first.0 processors a) }
{
    let mut more = set;
    for to in 0..processors {
        let rv = number_of(first, kind, Role::RV(to));
        more = more.insert_if(rv.0, true);
    }
    more
}

// A set, with the RVs of a store that some rule links to an operation with a role, by the marks of the two instructions: all by rule 4, the own one by
// rule 1, the one to the same processor by rule 3.
fn with_remotes(
    set: Set,
    marks: u16,
    processor: u8,
    kind: Kind,
    first: OperationNo,
    processors: usize,
    role: u8,
) -> Set
    requires { (first.0 < 65536) × (processors ≤ 8) }
    ensures { (a : ℕ) → a < 128 → holds result.lo result.hi a ≡ (holds set.lo set.hi a || remote_linked marks (meant kind) processor first.0 processors role a) }
{
    if has_mark(marks, FENCE) {
        return with_every_remote(set, kind, first, processors);
    }
    if role < ROLE_RV {
        return set;
    }
    let to = role - ROLE_RV;
    let own = wide(processor);
    let to_other = has_mark(marks, SAME) && to != processor;
    let own_rv = number_of(first, kind, Role::RV(own));
    let by_own = set.insert_if(own_rv.0, to_other && own < processors);
    let same = wide(to);
    let same_rv = number_of(first, kind, Role::RV(same));
    let released = has_mark(marks, RELEASE);
    by_own.insert_if(same_rv.0, released && same < processors)
}

// Whether no operation is linked to one with a role, by the marks of their instructions.
fn is_unlinked(marks: u16, role: u8) -> bool
    ensures { result ≡ true → (p : ℕ) (a : model.Role) → linked_by marks p a (role_numbered role) ≡ false }
{
    if role < ROLE_RV {
        marks & LINK_MARKS == 0
    } else {
        marks & REMOTE_LINK_MARKS == 0
    }
}

// A set, with the operations of an instruction before the RVs that some rule links to an operation with a role.
fn with_local(set: Set, marks: u16, kind: Kind, processor: u8, first: OperationNo, role: u8) -> Set
    requires { first.0 < 65536 }
    ensures { (a : ℕ) → a < 128 → holds result.lo result.hi a ≡ (holds set.lo set.hi a || local_linked marks (meant kind) processor first.0 role a) }
{
    let n = before_remotes(kind);
    let from = first.0;
    let mut more = set;
    for place in 0..n {
        let linked = is_linked(marks, processor, role_of(kind, place as u8), role);
        more = more.insert_if(from + place, linked);
    }
    more
}

// A set, with the operations of an instruction that some rule links to an operation with a role, by the marks of the two instructions.
fn with_linked(
    set: Set,
    marks: u16,
    kind: Kind,
    processor: u8,
    first: OperationNo,
    processors: usize,
    role: u8,
) -> Set
    requires { (first.0 < 65536) × (processors ≤ 8) }
    ensures { (a : ℕ) → a < 128 → holds result.lo result.hi a ≡ (holds set.lo set.hi a || linked_from marks (meant kind) processor first.0 processors role a) }
{
    if is_unlinked(marks, role) {
        return set;
    }
    let local = with_local(set, marks, kind, processor, first, role);
    if !is_store(kind) {
        return local;
    }
    with_remotes(local, marks, processor, kind, first, processors, role)
}

// The operations that must stand before one of instruction w with a role, by the kinds, first operations and processors of n instructions.
pub fn preds_at<'a>(
    n: usize,
    every: usize,
    kinds: &'a [u8; MOST_INSTRUCTIONS],
    firsts: &'a [u16; MOST_INSTRUCTIONS],
    processors: &'a [u8; MOST_INSTRUCTIONS],
    marks: &'a [[u16; MOST_INSTRUCTIONS]; MOST_INSTRUCTIONS],
    w: InstructionNo,
    role: u8,
) -> Set
    requires { (n ≤ 40) × (every ≤ 8) × (w.0 < 40) }
    ensures { (a : ℕ) → a < 128 → holds result.lo result.hi a ≡ any_below n (λ (v : ℕ). linked_of every kinds.now firsts.now processors.now marks.now w.0 role v a) }
{
    let mut set = Set::EMPTY;
    let to = w.0;
    for v in 0..n {
        let first = wide16(firsts[v]);
        let kind = kind_of(kinds[v]);
        let processor = processors[v];
        let between = marks[v][to];
        set = with_linked(
            set,
            between,
            kind,
            processor,
            OperationNo(first),
            every,
            role,
        );
    }
    set
}

// The RVs of the release to WB that an operation with a role is an RV of, by the marks of its instruction; of another operation none.
pub fn partners_at(marks: u16, role: u8, kind: Kind, first: OperationNo, processors: usize) -> Set
    requires { (first.0 < 65536) × (processors ≤ 8) }
    ensures { (a : ℕ) → a < 128 → holds result.lo result.hi a ≡ partner_of marks role (meant kind) first.0 processors a }
{
    let none = Set::EMPTY;
    if role < ROLE_RV {
        return none;
    }
    if !has_mark(marks, ATOMIC) {
        return none;
    }
    with_every_remote(none, kind, first, processors)
}

// A set, with the operation for which one with a role may have to wait because of an instruction, by the marks of the two.
fn with_awaited(
    set: Set,
    marks: u16,
    role: u8,
    kind: Kind,
    first: OperationNo,
    processor: usize,
) -> Set
    requires { (first.0 < 65536) × (processor < 256) }
    ensures { (a : ℕ) → a < 128 → holds result.lo result.hi a ≡ (holds set.lo set.hi a || awaited_by marks role (meant kind) first.0 processor a) }
{
    if role == ROLE_R {
        let own = number_of(first, kind, Role::RV(processor));
        return set.insert_if(own.0, has_mark(marks, BYPASS));
    }
    if role < ROLE_RV {
        return set;
    }
    let to = wide(role - ROLE_RV);
    let remote = number_of(first, kind, Role::RV(to));
    set.insert_if(remote.0, has_mark(marks, CONFLICT))
}

// The operations for which one of instruction w with a role may have to wait by rules 9, 10, 14 and 16.
pub fn awaited_at<'a>(
    n: usize,
    kinds: &'a [u8; MOST_INSTRUCTIONS],
    firsts: &'a [u16; MOST_INSTRUCTIONS],
    processors: &'a [u8; MOST_INSTRUCTIONS],
    marks: &'a [[u16; MOST_INSTRUCTIONS]; MOST_INSTRUCTIONS],
    w: InstructionNo,
    role: u8,
) -> Set
    requires { (n ≤ 40) × (w.0 < 40) }
    ensures { (a : ℕ) → a < 128 → holds result.lo result.hi a ≡ any_below n (λ (v : ℕ). awaited_by (mark_at marks.now v w.0) role (kind_of (get_or kinds.now v 0)) (get_or firsts.now v 0) (get_or processors.now v 0) a) }
{
    let mut set = Set::EMPTY;
    let to = w.0;
    for v in 0..n {
        let kind = kind_of(kinds[v]);
        let first = wide16(firsts[v]);
        let processor = wide(processors[v]);
        let marked = marks[v][to];
        set = with_awaited(set, marked, role, kind, OperationNo(first), processor);
    }
    set
}

// Whether an instruction is a store of a processor, and shares a byte.
fn is_own_store(kind: Kind, processor: u8, own: u8, shares: bool) -> bool
    ensures { result ≡ (is_store (meant kind) && (eqb processor own && shares)) }
{
    is_store(kind) && processor == own && shares
}

// The own RVs of the stores of instruction w's processor to some of its bytes, for an R; for another role none.
pub fn bypasses_at<'a>(
    n: usize,
    kinds: &'a [u8; MOST_INSTRUCTIONS],
    firsts: &'a [u16; MOST_INSTRUCTIONS],
    processors: &'a [u8; MOST_INSTRUCTIONS],
    addresses: &'a [u8; MOST_INSTRUCTIONS],
    sizes: &'a [u8; MOST_INSTRUCTIONS],
    w: InstructionNo,
    role: u8,
) -> Set
    requires { (n ≤ 40) × (w.0 < 40) }
    ensures { (a : ℕ) → a < 128 → holds result.lo result.hi a ≡ any_below n (λ (v : ℕ). eqb role 0 && (own_store_by kinds.now processors.now addresses.now sizes.now w.0 v && eqb a (number_from (get_or firsts.now v 0) (kind_of (get_or kinds.now v 0)) (RV (get_or processors.now v 0))))) }
{
    let mut set = Set::EMPTY;
    if role != ROLE_R {
        return set;
    }
    let reader = w.0;
    let own = processors[reader];
    let address = addresses[reader];
    let size = sizes[reader];
    for v in 0..n {
        let processor = processors[v];
        let kind = kind_of(kinds[v]);
        let shares = overlaps(addresses[v], sizes[v], address, size);
        let wanted = is_own_store(kind, processor, own, shares);
        let first = wide16(firsts[v]);
        let to = wide(processor);
        let own_rv = number_of(OperationNo(first), kind, Role::RV(to));
        set = set.insert_if(own_rv.0, wanted);
    }
    set
}
