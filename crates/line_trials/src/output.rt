// The output of a run whose answers are given.
use calls::answer::{Answer, Found, Holding, Sum};
use calls::call::Call;
use calls::point::{Point, Reading};
use calls::refusal::Refusal;
use replies::output::output;
use requests::input::{parse_all, run_of};
use std::alloc::{AllocError, Global};
use std::test::Fail;
use store_plan::figures::Figures;

const INPUT: &str =
    "b\t7\t100\t10\nb\t7\t-30\t0\n\nc\t12\t5\t11\nq\t7\nq\t8\nnone\nt\t0\t100\nf\nq\t9";

const OUTPUT: &str = "ok\nno 3\nbad\nok\nq 7 -70 10\nq 8 none\nbad\nt 2 75 1\nf 3 1 0\nnot made\n";

// What a trace too short leaves of it.
const SHORT_OUTPUT: &str = "ok\nno 3\nbad\nbad\n";

const ANSWERS: [Answer; 10] = [
    Answer::Opened {
        stock: None,
        day: None,
    },
    Answer::Done,
    Answer::Refused(Refusal::BadValue),
    Answer::Done,
    Answer::Found(Found {
        holding: Some(Holding {
            quantity: -70,
            day: 10,
        }),
        stock_reads: 1,
        day_reads: 2,
    }),
    Answer::Found(Found {
        holding: None,
        stock_reads: 1,
        day_reads: 1,
    }),
    Answer::Total(Sum {
        sheets: 2,
        sum: 75,
        pages: 3,
        stock_reads: 1,
    }),
    Answer::Figures(Figures {
        updates: 3,
        height: 1,
        tree_writes: 0,
    }),
    Answer::NotMade,
    Answer::Closed {
        stock: true,
        day: true,
    },
];

const NOTHING: Reading = Reading {
    stands: false,
    figures: Figures {
        updates: 0,
        height: 0,
        tree_writes: 0,
    },
    reads: 0,
    writes: 0,
};

// Each call with its answer.
fn trace_of(heap: Global, calls: &[Call]) -> Result<Vec<Point>, AllocError> {
    calls
        .iter()
        .zip(ANSWERS.iter())
        .map(|(call, answer)| Point {
            call: *call,
            answer: *answer,
            stock: NOTHING,
            day: NOTHING,
        })
        .collect(heap)
}

#[test]
fn output_has_a_line_for_each_line(rt: HostRuntime) -> Result<(), Fail> {
    let heap = rt.alloc();
    let lines = parse_all(heap, INPUT.as_bytes())?;
    let calls = run_of(heap, &lines)?;
    assert_eq!(rt; calls.len(), ANSWERS.len());
    let trace = trace_of(heap, &calls)?;
    let text = output(heap, &lines, &trace)?;
    assert_eq!(rt; text.as_str(), OUTPUT);
    Ok(())
}

#[test]
fn good_lines_past_the_trace_print_nothing(rt: HostRuntime) -> Result<(), Fail> {
    let heap = rt.alloc();
    let lines = parse_all(heap, INPUT.as_bytes())?;
    let calls = run_of(heap, &lines)?;
    let mut trace = trace_of(heap, &calls)?;
    trace.truncate(4);
    let text = output(heap, &lines, &trace)?;
    assert_eq!(rt; text.as_str(), SHORT_OUTPUT);
    Ok(())
}
