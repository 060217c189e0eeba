// What a line asks for.
ghost use Rattle.std.specs.Prelude.{◌≡◌, MatchOption};
ghost use Rattle.calls.specs.declared.call.Call.{Call};
ghost use Rattle.requests.specs.Asked.{asked};
ghost use Rattle.requests.specs.Reads.{Reads};

use calls::call::Call;
use calls::part::Part;
use fields::line_reader::LineReader;

// The call that a line asks for. None: a bad line, which is the text of no call.
#[tactic(auto, using(crate::proofs::Back::alone_none, crate::proofs::Back::reads_just))]
pub fn parse(line: &[u8]) -> Option<Call>
    ensures value { result ≡ asked line.now }
    ensures reads { MatchOption result ((c : Call) → Reads line.now c → ⊥) (λ c. Reads line.now c) }
{
    let mut fields = LineReader::new(line);
    let call = match fields.letter()? {
        'b' => Call::Booking {
            sheet: fields.key()?,
            amount: fields.amount()?,
            day: fields.day()?,
        },
        'c' => Call::Count {
            sheet: fields.key()?,
            amount: fields.amount()?,
            day: fields.day()?,
        },
        's' => Call::Strike {
            sheet: fields.key()?,
        },
        'q' => Call::Query {
            sheet: fields.key()?,
        },
        't' => Call::Total {
            low: fields.key()?,
            high: fields.key()?,
        },
        'f' => Call::Figures { part: Part::Stock },
        _ => return None,
    };
    fields.end()?;
    Some(call)
}
