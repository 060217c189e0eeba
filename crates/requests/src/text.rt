// A call as the line that asks for it.
ghost use Rattle.std.specs.Prelude.{◌≡◌, ◌↔◌, ℕ, List, IsTrue, IfSome, IfOk, Some, string_bytes, MatchOption};
ghost use Rattle.fields.specs.Laws.{Short};
ghost use Rattle.requests.specs.Asked.{asked};
ghost use Rattle.requests.specs.Reads.{call_text, Fitting, Reads};

use calls::call::Call;
use calls::part::Part;
use std::alloc::{AllocError, Global};
use std::fmt;

// Numbers in a line are below it in size.
const BEYOND: u64 = 1_000_000_000_000_000_000;

// Shown as its fields with tabs between; a call that no line asks for is shown as nothing.
#[derive(Clone, Copy)]
pub struct CallLine(pub Call);

impl fmt::Display for CallLine {
    ghost output = { λ l. Some (call_text l.0) };

    fn fmt<W: fmt::Write>(&self, f: &mut fmt::Formatter<W>) -> fmt::Result {
        match self.0 {
            Call::Booking { sheet, amount, day } => write!(f, "b\t{sheet}\t{amount}\t{day}"),
            Call::Count { sheet, amount, day } => write!(f, "c\t{sheet}\t{amount}\t{day}"),
            Call::Strike { sheet } => write!(f, "s\t{sheet}"),
            Call::Query { sheet } => write!(f, "q\t{sheet}"),
            Call::Total { low, high } => write!(f, "t\t{low}\t{high}"),
            Call::Figures { part: Part::Stock } => write!(f, "f"),
            Call::Figures { part: Part::Day } | Call::Open | Call::Close => Ok(()),
        }
    }
}

// Whether an amount has at most 18 digits.
fn is_short(amount: i64) -> bool
    ensures { IsTrue result ↔ Short amount }
{
    amount.unsigned_abs() < BEYOND
}

// Whether a line asks for the call.
fn is_asked(call: Call) -> bool
    ensures { IsTrue result ↔ Fitting call }
{
    match call {
        // Two arms: `Call::Booking { .. } | Call::Count { .. }` that binds fields of two types is not taken by the check.
        Call::Booking { amount, day, .. } => is_short(amount) && day < BEYOND,
        Call::Count { amount, day, .. } => is_short(amount) && day < BEYOND,
        Call::Strike { .. } | Call::Query { .. } | Call::Total { .. } => true,
        Call::Figures { part } => part == Part::Stock,
        Call::Open | Call::Close => false,
    }
}

// The line that asks for a call, and None where no line does. It is read back as that call.
pub fn line_for(heap: Global, call: Call) -> Result<Option<String>, AllocError>
    ensures reads { IfOk result (λ o. MatchOption o ((line : List ℕ) → Reads line call → ⊥) (λ t. Reads (string_bytes t) call)) }
    ensures back { IfOk result (λ o. IfSome o (λ t. asked (string_bytes t) ≡ Some call)) }
{
    if !is_asked(call) {
        return Ok(None);
    }
    let line = CallLine(call);
    let text = format!(in heap; "{line}")?;
    Ok(Some(text))
}
