// Lines at the edges of what is good, and the lines of calls.
use calls::call::Call;
use calls::part::Part;
use requests::line::parse;
use requests::text::line_for;
use std::test::Fail;

const BAD: [&str; 36] = [
    "",
    "\t",
    " ",
    "x",
    "F",
    "ff",
    "f\r",
    "f\t",
    "f\t1",
    "\tf",
    "b",
    "b\t1\t2",
    "b\t1\t2\t3\t",
    "b\t1\t2\t3\t4",
    "b\t\t2\t3",
    "b 1 2 3",
    "B\t1\t2\t3",
    "b\t-1\t2\t3",
    "b\t1\t-0\t3",
    "b\t1\t-00\t3",
    "b\t1\t-\t3",
    "b\t1\t--2\t3",
    "b\t1\t+2\t3",
    "b\t1\t02\t3",
    "b\t1\t2.0\t3",
    "b\t1\t2\t-3",
    "b\t1\t1234567890123456789\t3",
    "b\t1\t-1234567890123456789\t3",
    "b\t1\t2\t1000000000000000000",
    "c\t4294967296\t2\t3",
    "s\t4294967296",
    "q\t",
    "q\t00",
    "t\t1",
    "t\t1\t4294967296",
    "q\t\u{663}",
];

const GOOD: [(&str, Call); 12] = [
    (
        "b\t7\t100\t10",
        Call::Booking {
            sheet: 7,
            amount: 100,
            day: 10,
        },
    ),
    (
        "b\t0\t-1\t0",
        Call::Booking {
            sheet: 0,
            amount: -1,
            day: 0,
        },
    ),
    (
        "b\t4294967295\t999999999999999999\t999999999999999999",
        Call::Booking {
            sheet: 4294967295,
            amount: 999999999999999999,
            day: 999999999999999999,
        },
    ),
    (
        "c\t1\t-999999999999999999\t1",
        Call::Count {
            sheet: 1,
            amount: -999999999999999999,
            day: 1,
        },
    ),
    (
        "c\t12\t0\t11",
        Call::Count {
            sheet: 12,
            amount: 0,
            day: 11,
        },
    ),
    ("s\t0", Call::Strike { sheet: 0 }),
    ("s\t4294967295", Call::Strike { sheet: 4294967295 }),
    ("q\t7", Call::Query { sheet: 7 }),
    ("q\t4294967295", Call::Query { sheet: 4294967295 }),
    (
        "t\t0\t4294967295",
        Call::Total {
            low: 0,
            high: 4294967295,
        },
    ),
    ("t\t9\t3", Call::Total { low: 9, high: 3 }),
    ("f", Call::Figures { part: Part::Stock }),
];

// Calls that no line asks for.
const WITHOUT_LINE: [Call; 5] = [
    Call::Open,
    Call::Close,
    Call::Figures { part: Part::Day },
    Call::Booking {
        sheet: 1,
        amount: 1000000000000000000,
        day: 1,
    },
    Call::Count {
        sheet: 1,
        amount: 1,
        day: 1000000000000000000,
    },
];

#[test]
fn bad_lines_ask_for_nothing(rt: HostRuntime) {
    for line in BAD.iter() {
        assert_eq!(rt; parse(line.as_bytes()), None);
    }
}

#[test]
fn good_lines_ask_for_calls(rt: HostRuntime) -> Result<(), Fail> {
    for (line, call) in GOOD.iter() {
        assert_eq!(rt; parse(line.as_bytes()), Some(*call));
        let Some(text) = line_for(rt.alloc(), *call)? else {
            return Err(Fail::new("no line"));
        };
        assert_eq!(rt; text.as_str(), *line);
    }
    Ok(())
}

#[test]
fn other_calls_have_no_line(rt: HostRuntime) -> Result<(), Fail> {
    for call in WITHOUT_LINE.iter() {
        assert!(rt; line_for(rt.alloc(), *call)?.is_none());
    }
    Ok(())
}
