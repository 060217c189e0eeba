// A whole input: what its lines ask for, and the calls of its run.
ghost use Rattle.std.specs.Prelude.{◌≡◌, ◌+◌, ◌≤◌, map, length, IfOk, vec_capacity};
ghost use Rattle.fields.specs.Parts.{lines_of};
ghost use Rattle.requests.specs.Asked.{asked};
ghost use Rattle.requests.specs.Runs.{run_of};

use crate::line::parse;
use calls::call::Call;
use fields::lines::Lines;
use std::alloc::{AllocError, Global};
use std::iter::once;

// What each line asks for, in order. Room for all is reserved first, so memory can fail only there.
pub fn parse_all(heap: Global, input: &[u8]) -> Result<Vec<Option<Call>>, AllocError>
    ensures { IfOk result (λ v. v.items ≡ map asked (lines_of input.now)) }
{
    let mut asked = Vec::with_capacity(heap, input.len())?;
    for line in Lines::new(input) {
        asked.push_reserved(parse(line));
    }
    Ok(asked)
}

// The calls of a run: opening, what the good lines ask for, closing. Room for all is reserved first, which `collect` would not do.
pub fn run_of(heap: Global, lines: &[Option<Call>]) -> Result<Vec<Call>, AllocError>
    ensures calls { IfOk result (λ v. v.items ≡ run_of lines.now) }
    ensures room { IfOk result (λ v. length lines.now + 2 ≤ vec_capacity v) }
{
    let mut calls = Vec::with_capacity(heap, lines.len() + 2)?;
    let good = lines.iter().copied().flatten();
    calls.extend(once(Call::Open).chain(good).chain(once(Call::Close)))?;
    Ok(calls)
}
