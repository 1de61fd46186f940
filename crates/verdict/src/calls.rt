// The search in calls of one allowance, each from where the last one stopped.
ghost use Rattle.std.specs.Prelude.{◌≡◌, ◌≤◌, IfOk};
ghost use Rattle.std.proofs.Math.ListN as ListN;
ghost use Rattle.model.specs.Verdict.{call_limit, not_called, call_on};
ghost use Rattle.verdict.specs.Totals.{Came};

use record_decoded::position::Position;
use record_decoded::question::Question;
use search_call::call::search;
use search_resume::steps::Verdict;

// The most calls.
pub const CALL_LIMIT: u64 = 100;

// The most steps of a call.
pub const CALL_ALLOWANCE: u32 = 1_000_000;

// What the calls came to: the last verdict, the steps of all, and the position that the last one left.
#[derive(Clone, Copy)]
pub struct Total {
    pub verdict: Verdict,
    pub steps: u64,
    pub length: usize,
    pub buffer: [u8; Position::LIMIT],
}

// Calls until the search is finished, or the calls are spent.
pub fn search_in_calls(bytes: &[u8]) -> Result<Total, Question>
    ensures came { Came (call_on bytes.now call_limit not_called) result }
    ensures within { IfOk result (λ t. (t.length ≤ 128) × (ListN.length t.buffer ≡ 128)) }
{
    let Position {
        mut length,
        entries: mut buffer,
    } = Position::empty();
    let mut steps: u64 = 0;
    for _ in 0..CALL_LIMIT {
        let reply = search(bytes, &mut buffer, length, CALL_ALLOWANCE)?;
        steps += u64::from(reply.steps);
        length = reply.length;
        if reply.verdict != Verdict::Unfinished {
            return Ok(Total {
                verdict: reply.verdict,
                steps,
                length,
                buffer,
            });
        }
    }
    Ok(Total {
        verdict: Verdict::Unfinished,
        steps,
        length,
        buffer,
    })
}
