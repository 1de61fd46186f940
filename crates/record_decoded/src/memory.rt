// The attributes of lines, and of the memory that an access goes to.
ghost use Rattle.std.specs.Prelude.{◌≡◌, ◌/◌, ◌≤◌, get_or};
ghost use Rattle.model.specs.Execution.{WC, is_WB, attribute_number};
ghost use Rattle.record_decoded.specs.Kinds.{attribute_meant};
ghost use Rattle.record_decoded.specs.Decoded.{attributes_of};

use crate::kind::{Attribute, attribute_number, attribute_of};
use crate::types::{Lines, wide};

// The attribute of a line; that of no line is WC.
fn attribute_at(lines: Lines, line: usize) -> Attribute
    requires { lines.count ≤ 8 }
    ensures { attribute_meant result ≡ get_or (attributes_of lines) line WC }
{
    if line < lines.count {
        attribute_of(lines.attributes[line])
    } else {
        Attribute::WC
    }
}

// The number of that attribute.
pub fn number_at_line(lines: Lines, line: usize) -> usize
    requires { lines.count ≤ 8 }
    ensures { result ≡ attribute_number (get_or (attributes_of lines) line WC) }
{
    attribute_number(attribute_at(lines, line))
}

// The attribute of the line of an address.
pub fn attribute_in(lines: Lines, address: u8) -> Attribute
    requires { lines.count ≤ 8 }
    ensures { attribute_meant result ≡ get_or (attributes_of lines) (address / 8) WC }
{
    attribute_at(lines, wide(address) / 8)
}

pub fn is_wb(a: Attribute) -> bool
    ensures { result ≡ is_WB (attribute_meant a) }
{
    matches!(a, Attribute::WB)
}
