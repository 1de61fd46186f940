// Tests of attributes, and whether two instructions are a dependence pair.
ghost use Rattle.std.specs.Prelude.{◌≡◌, ◌≤◌};
ghost use Rattle.model.specs.Execution.{is_UC, same_domain};
ghost use Rattle.record_decoded.specs.Kinds.{attribute_meant};
ghost use Rattle.record_decoded.specs.Decoded.{pairs_of};
ghost use Rattle.relation_marks.specs.Marks.{given_pair};

use record_decoded::kind::Attribute;
use record_decoded::types::{InstructionNo, Pairs, wide};

pub fn is_uc(a: Attribute) -> bool
    ensures { result ≡ is_UC (attribute_meant a) }
{
    matches!(a, Attribute::UC(_))
}

// Both UC, of one domain.
pub fn same_domain(a: Attribute, b: Attribute) -> bool
    ensures { result ≡ same_domain (attribute_meant a) (attribute_meant b) }
{
    match (a, b) {
        (Attribute::UC(c), Attribute::UC(d)) => c == d,
        _ => false,
    }
}

// Whether two instructions are a given pair.
pub fn is_pair(pairs: Pairs, earlier: InstructionNo, later: InstructionNo) -> bool
    requires { pairs.count ≤ 40 }
    ensures { result ≡ given_pair (pairs_of pairs) earlier.0 later.0 }
{
    let firsts = &pairs.earlier;
    let seconds = &pairs.later;
    (0..pairs.count).any(|k| wide(firsts[k]) == earlier.0 && wide(seconds[k]) == later.0)
}
