// A key with what stands for it: a message on its way down, or the word of a leaf's record.
#[derive(Clone, Copy, PartialEq, Eq, Debug)]
pub struct Entry<V> {
    pub key: u32,
    pub value: V,
}
