// The section of lines.
#![tactic(auto)]

ghost use Rattle.std.specs.Prelude.{◌≡◌, List, [], ◌∷◌, ◌++◌, ℕ, ◌+◌, ◌*◌, ◌<◌, ◌≤◌, IfOk, get_or, take, drop};
ghost use Rattle.model.specs.Questions.{line_length, line_of, read_line, read_lines};
ghost use Rattle.record_decoded.specs.Decoded.{lines_of};
ghost use Rattle.record_decoded.specs.Reads.{found_by};

use record_decoded::kind::is_attribute;
use record_decoded::question::Question;
use record_decoded::types::{LINE_LENGTH, Lines, MOST_LINES};

pub fn no_lines() -> Lines
    ensures { (result.count ≡ 0) × ((part : List ℕ) → lines_of part result ≡ []) }
{
    Lines {
        count: 0,
        attributes: [0u8; MOST_LINES as usize],
    }
}

// The attribute byte of the line at the front of a part, whose initial bytes stand behind it, and what is left behind these.
fn read_line(part: &[u8]) -> Result<(u8, &[u8]), Question>
    ensures walked { read_line part.now ≡ found_by (λ (_ : ℕ). line_of (take line_length part.now)) result }
    ensures front { IfOk result (λ r. (r.0 ≡ get_or part.now 0 0) × (r.1.now ≡ drop line_length part.now)) }
{
    let Some((line, rest)) = part.split_first_chunk::<LINE_LENGTH>() else {
        return Err(Question::Bytes);
    };
    if !is_attribute(line[0]) {
        return Err(Question::Attribute);
    }
    Ok((line[0], rest))
}

// One line more, of an attribute byte that stands behind those before it and their initial bytes.
fn with_line(x: Lines, attribute: u8) -> Lines
    requires { x.count < 8 }
    ensures counted { result.count ≡ x.count + 1 }
    ensures holds { (part : List ℕ) → get_or part (1 + line_length * x.count) 0 ≡ attribute
        → lines_of part result ≡ lines_of part x ++ (line_of (take line_length (drop (1 + line_length * x.count) part)) ∷ []) }
{
    let mut lines = x;
    lines.attributes[x.count] = attribute;
    lines.count = x.count + 1;
    lines
}

// The lines, from their count on, and what is left behind them.
pub fn read_lines(part: &[u8]) -> Result<(Lines, &[u8]), Question>
    ensures walked { read_lines part.now ≡ found_by (lines_of part.now) result }
    ensures few { IfOk result (λ r. r.0.count ≤ 8) }
{
    let Some((&n, mut rest)) = part.split_first() else {
        return Err(Question::Bytes);
    };
    if n < 1 || MOST_LINES < n {
        return Err(Question::Lines);
    }
    let mut lines = no_lines();
    for _ in 0..n {
        let (attribute, after) = read_line(rest)?;
        lines = with_line(lines, attribute);
        rest = after;
    }
    Ok((lines, rest))
}
