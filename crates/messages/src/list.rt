// Lists of entries by rising key, in a `Vec` with room for what comes in: no call asks for memory.
ghost use Rattle.std.specs.Prelude.{◌≡◌, ◌+◌, ◌<◌, ◌≤◌, true, ◌++◌, length, is_some, vec_len, vec_capacity};
ghost use Rattle.messages.specs.BatchLaw.{BatchIsSmallest};
ghost use Rattle.messages.specs.Lists.{below, find, join_in, act_in, batch, batch_size, most_moving, rest};
ghost use Rattle.messages.specs.Places.{value_at};

use crate::entry::Entry;
use crate::kind::Kind;
use crate::message::Message;
use crate::span::Span;

// How many messages move from a node to its child at once, at most.
pub const MOST_MOVING: usize = 16;

// How many entries at the front have a key below `key`, in any list: where keys rise, the place of `key`. A loop in place of
// `take_while(..).count()`, since only a key that it reads is known to be below 4294967296, as `all` needs.
pub fn place_of<V>(entries: &[Entry<V>], key: u64) -> usize
    ensures value { result ≡ below key entries.now }
    ensures within { result ≤ length entries.now }
    ensures all { 4294967296 ≤ key → result ≡ length entries.now }
{
    for (i, entry) in entries.iter().enumerate() {
        if u64::from(entry.key) >= key {
            return i;
        }
    }
    entries.len()
}

// The value of the entry at `place`, if there is one and it has the key.
fn value_at<V: Copy>(entries: &[Entry<V>], place: usize, key: u32) -> Option<V>
    ensures value { result ≡ value_at place key entries.now }
    ensures within { is_some result ≡ true → place < length entries.now }
{
    entries
        .get(place)
        .filter(|entry| entry.key == key)
        .map(|entry| entry.value)
}

// What stands for a key.
pub fn find<V: Copy>(entries: &[Entry<V>], key: u32) -> Option<V>
    ensures { result ≡ find key entries.now }
{
    value_at(entries, place_of(entries, u64::from(key)), key)
}

// Lets a message join the messages: it folds into the one held on its key, or takes its place in the order.
pub fn join_message<K: Kind>(messages: &mut Vec<Entry<Message>>, arriving: Entry<Message>)
    requires { vec_len messages.old < vec_capacity messages.old }
    ensures items { messages.new.items ≡ join_in K.algebra arriving.key arriving.value messages.old.items }
    ensures bound { vec_len messages.new ≤ vec_len messages.old + 1 }
    ensures capacity { vec_capacity messages.new ≡ vec_capacity messages.old }
{
    let place = place_of(messages, u64::from(arriving.key));
    match value_at(messages, place, arriving.key) {
        Some(held) => {
            messages[place] = Entry {
                key: arriving.key,
                value: held.fold::<K>(arriving.value),
            };
        }
        None => messages.insert(place, arriving).unwrap(),
    }
}

// Lets a message act on the records of a leaf: the record of its key is replaced, removed or put in.
pub fn apply_message<K: Kind>(records: &mut Vec<Entry<u64>>, message: Entry<Message>)
    requires { vec_len records.old < vec_capacity records.old }
    ensures items { records.new.items ≡ act_in K.algebra message.key message.value records.old.items }
    ensures bound { vec_len records.new ≤ vec_len records.old + 1 }
    ensures capacity { vec_capacity records.new ≡ vec_capacity records.old }
{
    let key = message.key;
    let place = place_of(records, u64::from(key));
    let held = value_at(records, place, key);
    match (held, message.value.apply::<K>(held)) {
        (Some(_), Some(value)) => records[place] = Entry { key, value },
        (Some(_), None) => {
            records.remove(place);
        }
        (None, Some(value)) => records.insert(place, Entry { key, value }).unwrap(),
        (None, None) => {}
    }
}

// Moves the messages of smallest key in a span, at most `MOST_MOVING`, to the end of `out`.
pub fn take_batch(messages: &mut Vec<Entry<Message>>, span: Span, out: &mut Vec<Entry<Message>>)
    requires { vec_len out.old + most_moving ≤ vec_capacity out.old }
    ensures taken { out.new.items ≡ out.old.items ++ batch span.low span.high messages.old.items }
    ensures kept { messages.new.items ≡ rest span.low span.high messages.old.items }
    ensures taken_len { vec_len out.new ≡ vec_len out.old + batch_size span.low span.high messages.old.items }
    ensures kept_len { vec_len messages.new + batch_size span.low span.high messages.old.items ≡ vec_len messages.old }
    ensures taken_room { vec_capacity out.old ≤ vec_capacity out.new }
    ensures kept_room { vec_capacity messages.new ≡ vec_capacity messages.old }
{
    let first = place_of(messages, u64::from(span.low));
    let count = place_of(messages, span.high)
        .saturating_sub(first)
        .min(MOST_MOVING);
    let next = first + count;
    let len = messages.len();
    out.extend_from_slice(&messages[first..next]).unwrap();
    // `drain` would take twice as long: it turns the messages behind the batch round.
    messages.copy_within(next..len, first);
    messages.truncate(len - count);
}

// Where keys rise, a batch is the 16 messages of smallest key among those of the span. Nothing is computed: the contract is the theorem.
pub fn batch_is_smallest()
    ensures { BatchIsSmallest }
{}
