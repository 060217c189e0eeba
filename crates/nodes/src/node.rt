// A node in memory, with room for all that it may ever hold.
ghost use Rattle.std.specs.Prelude.{◌≡◌, ◌+◌, ◌<◌, ◌≤◌, vec_len, vec_capacity};

use messages::entry::Entry;
use messages::message::Message;
use messages::span::Span;

// A leaf, of level 0, has records; an inner node has pivots, children and messages on their way down. One struct for both, since the memory of
// a node is made beforehand and may become either.
#[derive(Drop)]
pub struct Node {
    pub level: u8,
    // The node's keys.
    pub span: Span,
    pub pivots: Vec<u32>,
    // The block numbers of the children.
    pub children: Vec<u32>,
    pub messages: Vec<Entry<Message>>,
    pub records: Vec<Entry<u64>>,
    // 256 messages and the 16 of a batch fit, so nothing afterwards asks for memory.
    ghost room: { (7 ≤ vec_capacity pivots) × (8 ≤ vec_capacity children) × (272 ≤ vec_capacity messages) × (256 ≤ vec_capacity records) },
    ghost few: { (vec_len pivots ≤ 7) × (vec_len children ≤ 8) × (vec_len messages ≤ 272) × (vec_len records ≤ 256) },
    ghost leaf: { (level ≡ 0 → (vec_len pivots ≡ 0) × (vec_len children ≡ 0) × (vec_len messages ≡ 0)) },
    ghost inner: { (0 < level → (vec_len records ≡ 0) × (vec_len pivots + 1 ≡ vec_len children)) },
}
