// The section of dependence pairs.
#![tactic(auto)]

ghost use Rattle.std.specs.Prelude.{◌≡◌, List, [], ◌∷◌, ◌++◌, ℕ, ◌+◌, ◌<◌, ◌≤◌};
ghost use Rattle.model.specs.Questions.{question13, question14, read_pair, read_pairs};
ghost use Rattle.record_decoded.specs.Decoded.{instructions_of, pair_of, pairs_of};
ghost use Rattle.record_decoded.specs.Reads.{found_by};

use record_decoded::kind::{is_fence, is_only_store, kind_of};
use record_decoded::question::Question;
use record_decoded::types::{InstructionNo, Instructions, MOST_PAIRS, PAIR_LENGTH, Pairs, wide};

pub fn no_pairs() -> Pairs
    ensures { (result.count ≡ 0) × (pairs_of result ≡ []) }
{
    Pairs {
        count: 0,
        earlier: [0u8; MOST_PAIRS as usize],
        later: [0u8; MOST_PAIRS as usize],
    }
}

// Question 13.
fn pair_passes(is: Instructions, earlier: InstructionNo, later: InstructionNo) -> bool
    requires { is.count ≤ 40 }
    ensures { result ≡ question13 (instructions_of is) earlier.0 later.0 }
{
    let m = earlier.0;
    let n = later.0;
    if n <= m || is.count <= n {
        return false;
    }
    let first = kind_of(is.kinds[m]);
    let second = kind_of(is.kinds[n]);
    let one_program = is.processors[m] == is.processors[n];
    let no_fence = !is_fence(first) && !is_fence(second);
    let both_stores = is_only_store(first) && is_only_store(second);
    one_program && no_fence && !both_stores
}

// Question 14.
fn pair_above(x: Pairs, earlier: InstructionNo, later: InstructionNo) -> bool
    requires { x.count ≤ 40 }
    ensures { result ≡ question14 (pairs_of x) earlier.0 later.0 }
{
    let k = x.count;
    if k == 0 {
        return true;
    }
    let m = wide(x.earlier[k - 1]);
    let n = wide(x.later[k - 1]);
    m < earlier.0 || m == earlier.0 && n < later.0
}

// The pair at the front of a part, behind those of `x`, and what is left behind it.
fn read_pair<'a>(
    part: &'a [u8],
    is: Instructions,
    x: Pairs,
) -> Result<([u8; PAIR_LENGTH], &'a [u8]), Question>
    requires { (is.count ≤ 40) × (x.count ≤ 40) }
    ensures { read_pair (instructions_of is) (pairs_of x) part.now ≡ found_by (λ (p : List ℕ). pair_of p 0) result }
{
    let Some((&pair, rest)) = part.split_first_chunk::<PAIR_LENGTH>() else {
        return Err(Question::Bytes);
    };
    let earlier = InstructionNo(wide(pair[0]));
    let later = InstructionNo(wide(pair[1]));
    if !pair_passes(is, earlier, later) {
        return Err(Question::Pair);
    }
    if !pair_above(x, earlier, later) {
        return Err(Question::PairOrder);
    }
    Ok((pair, rest))
}

// One pair more, by its two bytes.
fn with_pair(x: Pairs, pair: [u8; PAIR_LENGTH]) -> Pairs
    requires { x.count < 40 }
    ensures { (result.count ≡ x.count + 1) × (pairs_of result ≡ pairs_of x ++ (pair_of pair 0 ∷ [])) }
{
    let mut pairs = x;
    let [earlier, later] = pair;
    pairs.earlier[x.count] = earlier;
    pairs.later[x.count] = later;
    pairs.count = x.count + 1;
    pairs
}

// The pairs, from their count on, and what is left behind them.
pub fn read_pairs<'a>(part: &'a [u8], is: Instructions) -> Result<(Pairs, &'a [u8]), Question>
    requires { is.count ≤ 40 }
    ensures { read_pairs (instructions_of is) part.now ≡ found_by pairs_of result }
{
    let Some((&n, mut rest)) = part.split_first() else {
        return Err(Question::Bytes);
    };
    if MOST_PAIRS < n {
        return Err(Question::Pairs);
    }
    let mut pairs = no_pairs();
    for _ in 0..n {
        let (pair, after) = read_pair(rest, is, pairs)?;
        pairs = with_pair(pairs, pair);
        rest = after;
    }
    Ok((pairs, rest))
}
