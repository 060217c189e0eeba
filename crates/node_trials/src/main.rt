// Reads blocks that break one rule or two, each where its node stands, and prints the rule that is told first.
#![tactic(auto)]

ghost use Rattle.std.specs.Prelude.{◌≡◌};
ghost use Rattle.messages.specs.Outcomes.{ok_unless};
ghost use Rattle.node_trials.specs.Trials.{changed};
ghost use Rattle.nodes.specs.Checks.{node_fault, root_fault};

use messages::span::Span;
use nodes::node::Node;
use nodes::root::Root;
use rules::limits::BLOCK_SIZE;
use rules::place::Place;
use rules::rule::Rule;
use std::io;
use tables::{Change, INNER, INNER_TRIALS, LEAF, LEAF_TRIALS, ROOT, ROOT_TRIALS, Trial};

mod tables;

// A device of so many blocks has the root.
const SIZE: u32 = 64;

// Makes the changes, one after another.
fn change(block: &mut [u8; BLOCK_SIZE], changes: &[Change])
    ensures { block.new ≡ changed changes.now block.old }
{
    for Change(place, byte) in changes {
        if *place < BLOCK_SIZE {
            block[*place] = *byte;
        }
    }
}

// The rule that a node's block breaks first, if any.
fn rule_of_node(node: &mut Node, place: &Place, block: &[u8; BLOCK_SIZE]) -> Result<(), Rule>
    ensures { result ≡ ok_unless (node_fault place.now block.now) tt }
{
    node.read(place, block)
}

// The rule that block 0 breaks first, if any.
fn rule_of_root(root: &mut Root, block: &[u8; BLOCK_SIZE]) -> Result<(), Rule>
    ensures { result ≡ ok_unless (root_fault 64 block.now) tt }
{
    root.read(SIZE, block).and(Ok(()))
}

// Prints the bytes that were changed, with the rule that the block breaks.
fn report(
    rt: &impl Print,
    subject: &str,
    changes: &[Change],
    outcome: Result<(), Rule>,
) -> io::Result<()> {
    print!(rt; "{subject}")?;
    for Change(place, byte) in changes {
        print!(rt; ", byte {place} is {byte}")?;
    }
    match outcome {
        Ok(()) => println!(rt; ": good"),
        Err(rule) => println!(rt; ": rule {}", rule.number()),
    }
}

// Tries each change of a good block, prints what `read` says of it, and counts those that are as expected.
fn try_blocks<F: FnMut(&[u8; BLOCK_SIZE]) -> Result<(), Rule>>(
    rt: &impl Print,
    subject: &str,
    good: &[Change],
    trials: &[Trial],
    mut read: F,
) -> io::Result<usize>
    requires { F.IsAlwaysCallable read }
{
    let mut as_expected = 0;
    for Trial(changes, expected) in trials {
        let mut block = [0u8; BLOCK_SIZE];
        change(&mut block, good);
        change(&mut block, changes);
        let outcome = read(&block);
        report(rt, subject, changes, outcome)?;
        as_expected += usize::from(outcome == *expected);
    }
    Ok(as_expected)
}

fn main(rt: HostRuntime) -> io::Result<()> {
    let mut node = Node::new(rt.alloc())?;
    let mut root = Root::new(rt.alloc(), 1)?;
    let leaf = Place {
        level: 0,
        span: Span { low: 0, high: 100 },
        kind: 1,
        next_free: 20,
    };
    let inner = Place { level: 1, ..leaf };
    let leaves = try_blocks(&rt, "leaf", &LEAF, &LEAF_TRIALS, |block| {
        rule_of_node(&mut node, &leaf, block)
    })?;
    let inners = try_blocks(&rt, "inner node", &INNER, &INNER_TRIALS, |block| {
        rule_of_node(&mut node, &inner, block)
    })?;
    let roots = try_blocks(&rt, "root", &ROOT, &ROOT_TRIALS, |block| {
        rule_of_root(&mut root, block)
    })?;
    let all = LEAF_TRIALS.len() + INNER_TRIALS.len() + ROOT_TRIALS.len();
    let expected = leaves.saturating_add(inners).saturating_add(roots);
    println!(rt; "{all} blocks, {expected} as expected")
}
