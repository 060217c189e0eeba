// The layer at which a call was refused.
#[derive(Clone, Copy, PartialEq, Eq, Debug)]
pub enum Layer {
    Device,
    Node,
    Store,
    Book,
}
