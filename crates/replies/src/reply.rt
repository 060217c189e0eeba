// What a line is answered.
ghost use Rattle.std.specs.Prelude.{◌≡◌, Some};
ghost use Rattle.replies.specs.Replies.{reply_text, reply_to};

use calls::answer::Answer;
use calls::call::Call;
use std::fmt;
use store_plan::figures::Figures;

#[derive(Clone, Copy)]
pub enum Reply {
    // The line is bad.
    Bad,
    Accepted,
    // By the number that is printed: that of a refusal of the book, or of a report.
    Rejected { number: u8 },
    // What the sheet holds.
    Held { sheet: u32, quantity: i64, day: u64 },
    // The sheet holds nothing.
    Absent { sheet: u32 },
    Totalled { sheets: u64, sum: i64, reads: u64 },
    Figured(Figures),
    // The call does not fit the book.
    Unfit,
}

impl Reply {
    // The reply to a line that asked for the call, where the book gave the answer.
    pub fn to(call: Call, answer: Answer) -> Reply
        ensures { result ≡ reply_to call answer }
    {
        match answer {
            Answer::NotMade => Reply::Unfit,
            Answer::Opened { stock, day } => match stock.or(day) {
                Some(report) => Reply::Rejected {
                    number: report.number(),
                },
                None => Reply::Accepted,
            },
            Answer::Done => Reply::Accepted,
            Answer::Refused(refusal) => Reply::Rejected {
                number: refusal.number(),
            },
            Answer::Found(found) => {
                let Call::Query { sheet } = call else {
                    return Reply::Unfit;
                };
                match found.holding {
                    Some(holding) => Reply::Held {
                        sheet,
                        quantity: holding.quantity,
                        day: holding.day,
                    },
                    None => Reply::Absent { sheet },
                }
            }
            Answer::Total(total) => Reply::Totalled {
                sheets: total.sheets,
                sum: total.sum,
                reads: total.stock_reads,
            },
            Answer::Figures(figures) => Reply::Figured(figures),
            Answer::Closed { .. } => Reply::Accepted,
        }
    }
}

// Its words, a space apart.
impl fmt::Display for Reply {
    ghost output = { λ r. Some (reply_text r) };

    fn fmt<W: fmt::Write>(&self, f: &mut fmt::Formatter<W>) -> fmt::Result {
        match self {
            Reply::Bad => write!(f, "bad"),
            Reply::Accepted => write!(f, "ok"),
            Reply::Rejected { number } => write!(f, "no {number}"),
            Reply::Held {
                sheet,
                quantity,
                day,
            } => write!(f, "q {sheet} {quantity} {day}"),
            Reply::Absent { sheet } => write!(f, "q {sheet} none"),
            Reply::Totalled { sheets, sum, reads } => write!(f, "t {sheets} {sum} {reads}"),
            Reply::Figured(
                Figures {
                    updates,
                    height,
                    tree_writes,
                },
            ) => write!(f, "f {updates} {height} {tree_writes}"),
            Reply::Unfit => write!(f, "not made"),
        }
    }
}
