// The link of a rule between two operations, by the marks of their instructions and their roles.
ghost use Rattle.std.specs.Prelude.{◌≡◌, [], ◌∷◌, not, ◌||◌, ◌<◌, eqb};
ghost use Rattle.std.specs.List.{list_any};
ghost use Rattle.model.specs.Execution.{has_role_R, has_role_LV, has_role_RV};
ghost use Rattle.model.specs.Rules.{same_visibility};
ghost use Rattle.record_decoded.specs.Kinds.{role_numbered};
ghost use Rattle.relation_links.specs.Links.{rule_mark, end_role, roles_link, link_by};
ghost use Rattle.relation_links.specs.Linked.{linked_by};

use record_decoded::kind::{ROLE_LV, ROLE_R, ROLE_RV};
use relation_marks::table::{
    ACQUIRE, DOMAIN, FENCE, FIRST_SEMAPHORE, LINK_MARKS, OVERLAP, PAIR, RELEASE, SAME,
    SECOND_SEMAPHORE, has_mark,
};

// R.
fn is_r(role: u8) -> bool
    ensures { result ≡ has_role_R (role_numbered role) }
{
    role == ROLE_R
}

// LV.
fn is_lv(role: u8) -> bool
    ensures { result ≡ has_role_LV (role_numbered role) }
{
    role == ROLE_LV
}

// R or LV.
fn is_access(role: u8) -> bool
    ensures { result ≡ (has_role_R (role_numbered role) || has_role_LV (role_numbered role)) }
{
    is_r(role) || is_lv(role)
}

// RV to the processor.
fn is_rv_to(role: u8, processor: u8) -> bool
    ensures { result ≡ has_role_RV (role_numbered role) (λ q. eqb q processor) }
{
    role >= ROLE_RV && role - ROLE_RV == processor
}

// RV to another processor.
fn is_rv_to_other(role: u8, processor: u8) -> bool
    ensures { result ≡ has_role_RV (role_numbered role) (λ q. not (eqb q processor)) }
{
    role >= ROLE_RV && role - ROLE_RV != processor
}

// LV and LV, or RV to one processor.
fn is_same_visibility(a: u8, b: u8) -> bool
    ensures { result ≡ same_visibility (role_numbered a) (role_numbered b) }
{
    if a < ROLE_RV {
        is_lv(a) && is_lv(b)
    } else {
        a == b
    }
}

// The mark that a rule asks for; rules without a link ask for SAME.
#[tactic(auto, unfolding(crate::specs::Links::rule_mark))]
pub fn rule_mark(rule: u8) -> u16
    ensures { (result ≡ rule_mark rule) × (0 < result) }
{
    match rule {
        2 => ACQUIRE,
        3 => RELEASE,
        4 => FENCE,
        5..=7 => OVERLAP,
        8 => PAIR,
        13 => DOMAIN,
        _ => SAME,
    }
}

// What an end of a dependence pair stands for: R or LV, of a semaphore R.
fn is_end(semaphore: bool, role: u8) -> bool
    ensures { result ≡ end_role semaphore (role_numbered role) }
{
    is_r(role) || is_lv(role) && !semaphore
}

// What a rule asks of the roles of two operations, the first of `processor`, by the marks of their instructions.
#[tactic(auto, unfolding(crate::specs::Links::roles_link))]
pub fn roles_link(rule: u8, marks: u16, processor: u8, a: u8, b: u8) -> bool
    ensures { result ≡ roles_link rule marks processor (role_numbered a) (role_numbered b) }
{
    match rule {
        1 => {
            let from_local = is_lv(a) && is_rv_to(b, processor);
            from_local || is_rv_to(a, processor) && is_rv_to_other(b, processor)
        }
        2 => is_r(a),
        3 => is_r(a) || is_same_visibility(a, b),
        4 => true,
        5 => is_lv(a) && is_r(b),
        6 => is_r(a) && is_lv(b),
        7 => is_lv(a) && is_lv(b),
        8 => {
            is_end(has_mark(marks, FIRST_SEMAPHORE), a)
                && is_end(has_mark(marks, SECOND_SEMAPHORE), b)
        }
        13 => is_access(a) && is_access(b),
        15 => is_r(a) && is_lv(b),
        _ => false,
    }
}

// The link of a rule between two operations, by the marks of their instructions and their roles.
#[tactic(auto, unfolding(crate::specs::Links::link_by))]
pub fn link(rule: u8, marks: u16, processor: u8, a: u8, b: u8) -> bool
    ensures { result ≡ link_by rule marks processor (role_numbered a) (role_numbered b) }
{
    has_mark(marks, rule_mark(rule)) && roles_link(rule, marks, processor, a, b)
}

// Whether a rule links two operations that links from any operation.
fn links_from_any(marks: u16, processor: u8, a: u8, b: u8) -> bool
    ensures { result ≡ list_any (λ rule. link_by rule marks processor (role_numbered a) (role_numbered b)) (1 ∷ 3 ∷ 4 ∷ []) }
{
    link(1, marks, processor, a, b)
        || link(3, marks, processor, a, b)
        || link(4, marks, processor, a, b)
}

// Whether a rule links two operations that does not link from an RV.
fn other_links(marks: u16, processor: u8, a: u8, b: u8) -> bool
    ensures { result ≡ list_any (λ rule. link_by rule marks processor (role_numbered a) (role_numbered b)) (2 ∷ 5 ∷ 6 ∷ 7 ∷ 8 ∷ 13 ∷ 15 ∷ []) }
{
    link(2, marks, processor, a, b)
        || link(5, marks, processor, a, b)
        || link(6, marks, processor, a, b)
        || link(7, marks, processor, a, b)
        || link(8, marks, processor, a, b)
        || link(13, marks, processor, a, b)
        || link(15, marks, processor, a, b)
}

// Whether some rule links two operations, the first of `processor`. Each rule is a number that the compiler knows, not one of a list: with `any` over lists of the
// rules a chain table took twice as long.
pub fn is_linked(marks: u16, processor: u8, a: u8, b: u8) -> bool
    ensures { result ≡ linked_by marks processor (role_numbered a) (role_numbered b) }
{
    marks & LINK_MARKS != 0
        && (links_from_any(marks, processor, a, b)
            || a < ROLE_RV && other_links(marks, processor, a, b))
}
