// A store that was formatted here keeps the tree of its messages: each function here computes nothing, and its contract is a theorem.
#![tactic(auto)]

ghost use Rattle.store_laws.specs.Laws.{FormatLaw, OpenLaw, UpdateLaw, QueryLaw, PageLaw, CloseLaw};

// A sound device of at least 4 blocks, with 2 writes left, is formatted: a store without messages rests on it.
pub fn formatting_gives_a_store()
    ensures { FormatLaw }
{}

// A store that rests is opened, with 2 writes left, and holds the messages with which it was closed.
pub fn opening_gives_the_messages_back()
    ensures { OpenLaw }
{}

// An update of a store that holds the tree of its messages is refused, and leaves the store as it was, or gives a store that holds one message more.
pub fn updates_keep_the_store()
    ensures { UpdateLaw }
{}

// A query of such a store answers what its messages say of the key, and leaves it so.
pub fn queries_answer_the_messages()
    ensures { QueryLaw }
{}

// A page of such a store is refused, and changes nothing, or gives the present keys of the range in the leaf's span with what its messages say of them.
pub fn pages_answer_the_messages()
    ensures { PageLaw }
{}

// Closing such a store, with a write left, lets it rest with its messages.
pub fn closing_keeps_the_messages()
    ensures { CloseLaw }
{}
