// The whole output.
ghost use Rattle.std.specs.Prelude.{◌≡◌, map, length, IfOk, string_bytes};
ghost use Rattle.fields.specs.Parts.{lines_of};
ghost use Rattle.requests.specs.Runs.{run_of};
ghost use Rattle.replies.specs.Replies.{reply_text};
ghost use Rattle.replies.specs.Output.{between, output_text, replies_to};

use crate::reply::Reply;
use calls::call::Call;
use calls::point::Point;
use std::alloc::{AllocError, Global};

// The text that answers the lines of an input, by the trace of their run: its first point, of opening, and its last, of closing,
// print nothing, and each good line takes the answer of the next point. The text falls into the replies, line by line; and where the
// trace has a point for each call of the run, each line of the input has one line of output.
pub fn output(heap: Global, lines: &[Option<Call>], trace: &[Point]) -> Result<String, AllocError>
    ensures text { IfOk result (λ t. string_bytes t ≡ output_text lines.now trace.now) }
    ensures parts { IfOk result (λ t. lines_of (string_bytes t) ≡ map reply_text (replies_to lines.now (between trace.now))) }
    ensures each { IfOk result (λ t. length trace.now ≡ length (run_of lines.now) → length (lines_of (string_bytes t)) ≡ length lines.now) }
{
    let mut text = String::new(heap);
    let mut points = inner(trace).iter();
    for line in lines {
        let reply = match line {
            None => Reply::Bad,
            Some(call) => {
                let Some(point) = points.next() else {
                    continue;
                };
                Reply::to(*call, point.answer)
            }
        };
        writeln!(text, "{reply}")?;
    }
    Ok(text)
}

// All points but the first and the last.
fn inner(trace: &[Point]) -> &[Point]
    ensures { result.now ≡ between trace.now }
{
    match trace {
        [_, inner @ .., _] => inner,
        _ => &[],
    }
}
