// Messages that are pending for a part of a span.
ghost use Rattle.std.specs.Prelude.{◌≡◌, nat_lt};
ghost use Rattle.messages.specs.Lists.{pending};
ghost use Rattle.nodes.specs.Views.{view};

use messages::entry::Entry;
use messages::list::place_of;
use messages::message::Message;
use messages::span::Span;
use nodes::node::Node;

// How many messages have a key from `low` on and below `high`, where keys rise.
pub fn pending_in(messages: &[Entry<Message>], low: u64, high: u64) -> usize
    ensures { result ≡ pending low high messages.now }
{
    place_of(messages, high).saturating_sub(place_of(messages, low))
}

// How many messages have a key of a span.
fn pending_of(messages: &[Entry<Message>], span: Span) -> usize
    ensures { result ≡ pending span.low span.high messages.now }
{
    pending_in(messages, u64::from(span.low), span.high)
}

// Whether more of a parent's messages are pending for the upper half of a child than for the lower.
pub fn upper_has_more(parent: &Node, lower: Span, upper: Span) -> bool
    ensures { result ≡ nat_lt (pending lower.low lower.high (view parent.now).messages) (pending upper.low upper.high (view parent.now).messages) }
{
    pending_of(&parent.messages, lower) < pending_of(&parent.messages, upper)
}
