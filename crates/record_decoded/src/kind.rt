// Kinds of instructions and attributes of lines, by their numbers in the record; what a kind does; roles and numbers of operations.
ghost use Rattle.std.specs.Prelude.{◌≡◌, ℕ, ◌<◌, ◌≤◌, length, get_or};
ghost use Rattle.model.specs.Execution.{F, kind_of, kind_row, attribute_number, attribute_of, is_load, is_store, is_semaphore, is_only_store, is_release, is_fence, roles, remotes_at, number_from};
ghost use Rattle.model.specs.Questions.{question4, written_from};
ghost use Rattle.record_decoded.specs.Kinds.{meant, RowMeans, role_meant, role_processor, role_numbered, attribute_meant};

use crate::types::{OperationNo, VALUE_LENGTH, wide};

#[derive(Clone, Copy, Debug, PartialEq, Eq)]
pub enum Kind {
    Ld,
    LdAcq,
    St,
    StRel,
    Mf,
    SemAcq,
    SemRel,
}

// The kind of a number from 0 to LAST_KIND.
pub fn kind_of(k: u8) -> Kind
    ensures { meant result ≡ kind_of k }
{
    match k {
        0 => Kind::Ld,
        1 => Kind::LdAcq,
        2 => Kind::St,
        3 => Kind::StRel,
        4 => Kind::Mf,
        5 => Kind::SemAcq,
        _ => Kind::SemRel,
    }
}

// The highest number of a kind.
pub const LAST_KIND: u8 = 6;

// The roles of operations as numbers in arrays; RV_q is ROLE_RV + q.
pub const ROLE_R: u8 = 0;

pub const ROLE_LV: u8 = 1;

pub const ROLE_F: u8 = 2;

pub const ROLE_RV: u8 = 3;

// What a kind does; its row and its column of the table of program-order rules; how many operations it gives before the RVs, and the role of the first.
#[derive(Clone, Copy)]
struct KindRow {
    loads: bool,
    stores: bool,
    acquires: bool,
    releases: bool,
    fences: bool,
    row: usize,
    column: usize,
    before_remotes: usize,
    first_role: u8,
}

// One row for each kind.
const LD: KindRow = KindRow {
    loads: true,
    stores: false,
    acquires: false,
    releases: false,
    fences: false,
    row: 0,
    column: 0,
    before_remotes: 1,
    first_role: ROLE_R,
};

const LD_ACQ: KindRow = KindRow {
    loads: true,
    stores: false,
    acquires: true,
    releases: false,
    fences: false,
    row: 1,
    column: 1,
    before_remotes: 1,
    first_role: ROLE_R,
};

const ST: KindRow = KindRow {
    loads: false,
    stores: true,
    acquires: false,
    releases: false,
    fences: false,
    row: 2,
    column: 2,
    before_remotes: 1,
    first_role: ROLE_LV,
};

const ST_REL: KindRow = KindRow {
    loads: false,
    stores: true,
    acquires: false,
    releases: true,
    fences: false,
    row: 3,
    column: 3,
    before_remotes: 1,
    first_role: ROLE_LV,
};

const MF: KindRow = KindRow {
    loads: false,
    stores: false,
    acquires: false,
    releases: false,
    fences: true,
    row: 4,
    column: 4,
    before_remotes: 1,
    first_role: ROLE_F,
};

const SEM_ACQ: KindRow = KindRow {
    loads: true,
    stores: true,
    acquires: true,
    releases: false,
    fences: false,
    row: 1,
    column: 2,
    before_remotes: 2,
    first_role: ROLE_R,
};

const SEM_REL: KindRow = KindRow {
    loads: true,
    stores: true,
    acquires: false,
    releases: true,
    fences: false,
    row: 3,
    column: 3,
    before_remotes: 2,
    first_role: ROLE_R,
};

fn kind_row(k: Kind) -> KindRow
    ensures { RowMeans result (kind_row (meant k)) }
{
    match k {
        Kind::Ld => LD,
        Kind::LdAcq => LD_ACQ,
        Kind::St => ST,
        Kind::StRel => ST_REL,
        Kind::Mf => MF,
        Kind::SemAcq => SEM_ACQ,
        Kind::SemRel => SEM_REL,
    }
}

pub fn is_load(k: Kind) -> bool
    ensures { result ≡ is_load (meant k) }
{
    kind_row(k).loads
}

pub fn is_store(k: Kind) -> bool
    ensures { result ≡ is_store (meant k) }
{
    kind_row(k).stores
}

// A semaphore: both a load and a store.
pub fn is_semaphore(k: Kind) -> bool
    ensures { result ≡ is_semaphore (meant k) }
{
    is_load(k) && is_store(k)
}

// A store that is no semaphore.
pub fn is_only_store(k: Kind) -> bool
    ensures { result ≡ is_only_store (meant k) }
{
    is_store(k) && !is_load(k)
}

// The place of the bytes written among the data bytes of an instruction.
pub fn written_from(k: Kind) -> usize
    ensures { (result ≡ written_from (meant k)) × (result ≤ 8) }
{
    if is_semaphore(k) { VALUE_LENGTH } else { 0 }
}

pub fn is_release(k: Kind) -> bool
    ensures { result ≡ is_release (meant k) }
{
    kind_row(k).releases
}

pub fn is_fence(k: Kind) -> bool
    ensures { result ≡ is_fence (meant k) }
{
    kind_row(k).fences
}

// A kind's row of the table of program-order rules, as the earlier instruction's.
pub fn table_row(k: Kind) -> usize
    ensures { (result ≡ (kind_row (meant k)).row) × (result < 5) }
{
    kind_row(k).row
}

// A kind's column of that table, as the later instruction's.
pub fn table_column(k: Kind) -> usize
    ensures { (result ≡ (kind_row (meant k)).column) × (result < 5) }
{
    kind_row(k).column
}

// How many operations a kind gives before the RVs.
pub fn before_remotes(k: Kind) -> usize
    ensures { (result ≡ remotes_at (meant k)) × (1 ≤ result) × (result < 4) }
{
    kind_row(k).before_remotes
}

// What an operation is to its instruction; RV with the processor that it is visible to.
#[derive(Clone, Copy, Debug, PartialEq, Eq)]
pub enum Role {
    R,
    LV,
    F,
    RV(usize),
}

// The number of an instruction's operation, by that of its first one, its kind and the role. R and F are the first, LV is the last before the RVs.
pub fn number_of(first: OperationNo, k: Kind, role: Role) -> OperationNo
    requires { (first.0 < 65536) × (role_processor role < 65536) }
    ensures { result.0 ≡ number_from first.0 (meant k) (role_meant role) }
{
    let at = first.0;
    match role {
        Role::R => OperationNo(at),
        Role::LV => {
            let place = before_remotes(k) - 1;
            OperationNo(at + place)
        }
        Role::F => OperationNo(at),
        Role::RV(q) => {
            let place = before_remotes(k) + q;
            OperationNo(at + place)
        }
    }
}

// The role of the first operation that a kind gives.
fn first_role(k: Kind) -> u8
    ensures { role_numbered result ≡ get_or (kind_row (meant k)).before_remotes 0 F }
{
    kind_row(k).first_role
}

// The role of an instruction's operation by its place among them. Where two come before the RVs, the second is LV.
pub fn role_of(k: Kind, place: u8) -> u8
    requires { place ≤ 128 }
    ensures { (processors : ℕ) → place < length (roles processors (meant k)) → role_numbered result ≡ get_or (roles processors (meant k)) place F }
{
    let before = before_remotes(k) as u8;
    if place == 0 {
        return first_role(k);
    }
    if place < before {
        return ROLE_LV;
    }
    let q = place - before;
    ROLE_RV + q
}

// The number of operations that an instruction gives: those before the RVs, and for a store an RV for each processor.
pub fn operation_count(k: Kind, processors: usize) -> usize
    requires { processors ≤ 8 }
    ensures { result ≡ length (roles processors (meant k)) }
{
    let before = before_remotes(k);
    if is_store(k) {
        before + processors
    } else {
        before
    }
}

// The attribute of a line; UC with its peripheral domain.
#[derive(Clone, Copy, Debug, PartialEq, Eq)]
pub enum Attribute {
    WB,
    UC(u8),
    WC,
}

// The numbers of the attributes; UC d has NUMBER_UC + PER_DOMAIN * d, with d below DOMAINS.
const NUMBER_WB: u8 = 0;

const NUMBER_UC: u8 = 1;

const NUMBER_WC: u8 = 2;

const PER_DOMAIN: u8 = 16;

const DOMAINS: u8 = 4;

// Whether a number is that of an attribute.
pub fn is_attribute(a: u8) -> bool
    ensures { result ≡ question4 a }
{
    let domain = a / PER_DOMAIN;
    match a % PER_DOMAIN {
        NUMBER_WB => domain == 0,
        NUMBER_UC => domain < DOMAINS,
        NUMBER_WC => domain == 0,
        _ => false,
    }
}

// The attribute of a number; WC where it is neither WB's nor that of a domain.
pub fn attribute_of(a: u8) -> Attribute
    ensures { attribute_meant result ≡ attribute_of a }
{
    if a == NUMBER_WB {
        return Attribute::WB;
    }
    if a % PER_DOMAIN == NUMBER_UC {
        return Attribute::UC(a / PER_DOMAIN);
    }
    Attribute::WC
}

// The number of an attribute.
pub fn attribute_number(a: Attribute) -> usize
    ensures { result ≡ attribute_number (attribute_meant a) }
{
    match a {
        Attribute::WB => NUMBER_WB as usize,
        Attribute::UC(d) => NUMBER_UC as usize + PER_DOMAIN as usize * wide(d),
        Attribute::WC => NUMBER_WC as usize,
    }
}
