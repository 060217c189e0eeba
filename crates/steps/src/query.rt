// What a key holds, and how many blocks were read to tell.
ghost use Rattle.std.specs.Prelude.{◌≡◌, ◌≤◌, None};
ghost use Rattle.messages.specs.Lists.{find as found};
ghost use Rattle.node_ops.specs.CodeOf.{code_of};
ghost use Rattle.nodes.specs.Shapes.{IsInner};
ghost use Rattle.nodes.specs.Views.{view};
ghost use Rattle.plan.specs.Queries.{judged, seek};
ghost use Rattle.tree.specs.Query.{acted, joined_before};
ghost use Rattle.steps.specs.Outcomes.{image_of, outcome, SameAllowance};

use crate::bench::Bench;
use blocks::device::Device;
use messages::kind::Kind;
use messages::list::find;
use messages::message::Message;
use nodes::node::Node;
use nodes::root::Root;
use plan::cause::Cause;
use plan::verdict::Verdict;

// What a key holds once the deltas met above act on it.
fn act_on<K: Kind>(met: Option<u64>, value: Option<u64>) -> Option<u64>
    ensures { result ≡ acted K.algebra met value }
{
    met.map_or(value, |delta| Message::Add(delta).apply::<K>(value))
}

// An older delta joined with the newer ones met above it.
fn join_before<K: Kind>(older: u64, met: Option<u64>) -> u64
    ensures { result ≡ joined_before K.algebra older met }
{
    met.map_or(older, |newer| K::join(older, newer))
}

// What a node's message on the key says, with the newer deltas met above it.
fn judge<K: Kind>(node: &Node, key: u32, met: Option<u64>) -> Verdict
    ensures { result ≡ judged K.algebra (found key (view node.now).messages) met }
{
    let Some(message) = find(&node.messages, key) else {
        return Verdict::Down(met);
    };
    match message {
        Message::Put(value) => Verdict::Settled(act_on::<K>(met, Some(value))),
        Message::Remove => Verdict::Settled(act_on::<K>(met, None)),
        Message::Add(delta) => Verdict::Down(Some(join_before::<K>(delta, met))),
    }
}

impl Bench {
    // A query from the root on, which stays as it is, until the key is settled or the leaf is read.
    pub fn query<D: Device, K: Kind>(
        &mut self,
        device: &mut D,
        root: &Root,
        key: u32,
    ) -> Result<(Option<u64>, u32), Cause<D::Fault>>
        requires inner { IsInner root.now.node }
        requires level { root.now.node.level ≤ 8 }
        ensures value { outcome D.Device result device.new (λ d a. record { image = d; value = a.0; reads = a.1 }) ≡ seek (code_of K.Kind.algebra) root.now.node.level (image_of D.Device device.old) root.now.next_free (view root.now.node) key None 0 }
        ensures allowance { SameAllowance D.Device device.old device.new }
    {
        // The root is judged apart, since it stays where it is.
        let mut met = match judge::<K>(&root.node, key, None) {
            Verdict::Settled(value) => return Ok((value, 0)),
            Verdict::Down(met) => met,
        };
        self.enter::<D, K>(device, root, key)?;
        let height = u32::from(root.node.level);
        'down: for reads in 1..height {
            match judge::<K>(&self.here, key, met) {
                Verdict::Settled(value) => return Ok((value, reads)),
                Verdict::Down(deltas) => met = deltas,
            }
            self.go_down::<D, K>(device, root.next_free, key)?;
        }
        Ok((act_on::<K>(met, find(&self.here.records, key)), height))
    }
}
