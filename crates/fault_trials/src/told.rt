// What calls answer, as text.
use blocks::refusal::Refusal;
use plan::cause::Cause;
use std::fmt;
use store::fault::Fault;
use store_plan::page::Page;

// A cause as text.
#[derive(Clone, Copy)]
struct Because(Cause<Refusal>);

impl fmt::Display for Because {
    fn fmt<W: fmt::Write>(&self, f: &mut fmt::Formatter<W>) -> fmt::Result {
        match self.0 {
            Cause::Device { fault, block } => {
                write!(f, "device refuses, {}, block {block}", fault.number())
            }
            Cause::BadNode { block, rule } => {
                write!(f, "bad node, block {block}, rule {}", rule.number())
            }
            Cause::Store(refusal) => write!(f, "store refuses, {refusal:?}"),
        }
    }
}

// A fault as text.
#[derive(Clone, Copy)]
struct Failed(Fault<Refusal>);

impl fmt::Display for Failed {
    fn fmt<W: fmt::Write>(&self, f: &mut fmt::Formatter<W>) -> fmt::Result {
        match self.0 {
            Fault::Met(cause) => write!(f, "{}", Because(cause)),
            Fault::Stopped(first) => write!(f, "stopped before: {}", Because(first)),
        }
    }
}

// What a call answered.
#[derive(Drop)]
pub enum Told {
    Update(Result<(), Fault<Refusal>>),
    Query(Result<(Option<u64>, u32), Fault<Refusal>>),
    Page(Result<Page, Fault<Refusal>>),
}

impl fmt::Display for Told {
    fn fmt<W: fmt::Write>(&self, f: &mut fmt::Formatter<W>) -> fmt::Result {
        match self {
            Told::Update(Ok(())) => write!(f, "update: accepted"),
            Told::Update(Err(fault)) => write!(f, "update: {}", Failed(*fault)),
            Told::Query(Ok((Some(word), reads))) => write!(f, "query: {word}, {reads} read"),
            Told::Query(Ok((None, reads))) => write!(f, "query: absent, {reads} read"),
            Told::Query(Err(fault)) => write!(f, "query: {}", Failed(*fault)),
            Told::Page(Ok(page)) => {
                write!(f, "page: {} entries, {} read", page.entries, page.reads)?;
                match page.next {
                    Some(key) => write!(f, ", next {key}"),
                    None => Ok(()),
                }
            }
            Told::Page(Err(fault)) => write!(f, "page: {}", Failed(*fault)),
        }
    }
}
