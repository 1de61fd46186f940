// The lexicographic order of bytes.
ghost use Rattle.record_form.specs.Lexical.{LexOrdered};

use std::cmp::Ordering;

pub fn lex_order(a: &[u8], b: &[u8]) -> Ordering
    ensures { LexOrdered result a.now b.now }
{
    a.cmp(b)
}
