// Good blocks of a leaf, an inner node and a root, and what each trial changes in them.
use rules::rule::Rule;

// A place in a block, and the byte that it is changed to.
#[derive(Clone, Copy, PartialEq, Eq)]
pub struct Change(pub usize, pub u8);

// What is changed in a good block, and what reading it then gives.
#[derive(Clone, Copy)]
pub struct Trial<'a>(pub &'a [Change], pub Result<(), Rule>);

// A leaf of the records 10 with 70 and 20 with 5, of kind 1.
pub const LEAF: [Change; 6] = [
    Change(3, 2),
    Change(5, 1),
    Change(35, 10),
    Change(43, 70),
    Change(47, 20),
    Change(55, 5),
];

// An inner node of level 1 and kind 1 over the blocks 2 to 5, parted at 10, 20 and 30: 5 is put to 1, 15 removed, and 7 added to 25.
pub const INNER: [Change; 19] = [
    Change(0, 1),
    Change(3, 3),
    Change(4, 4),
    Change(5, 1),
    Change(35, 10),
    Change(39, 20),
    Change(43, 30),
    Change(63, 2),
    Change(67, 3),
    Change(71, 4),
    Change(75, 5),
    Change(95, 5),
    Change(96, 1),
    Change(104, 1),
    Change(108, 15),
    Change(109, 2),
    Change(121, 25),
    Change(122, 3),
    Change(130, 7),
];

// A closed root of level 2 and kind 1 over the blocks 6 and 7, parted at 50: 5 is put to 1 and 60 removed; 3 updates, 9 tree writes, next free number 20.
pub const ROOT: [Change; 16] = [
    Change(0, 2),
    Change(1, 1),
    Change(3, 2),
    Change(4, 2),
    Change(5, 1),
    Change(11, 20),
    Change(23, 3),
    Change(31, 9),
    Change(35, 50),
    Change(63, 6),
    Change(67, 7),
    Change(95, 5),
    Change(96, 1),
    Change(104, 1),
    Change(108, 60),
    Change(109, 2),
];

pub const LEAF_TRIALS: [Trial<'static>; 21] = [
    // as it is
    Trial(&[Change(4095, 0)], Ok(())),
    // level 1
    Trial(&[Change(0, 1)], Err(Rule::Level)),
    // mark 1
    Trial(&[Change(1, 1)], Err(Rule::Mark)),
    // 257 records
    Trial(&[Change(2, 1), Change(3, 1)], Err(Rule::Count)),
    // a child
    Trial(&[Change(4, 1)], Err(Rule::Children)),
    // another kind
    Trial(&[Change(5, 2)], Err(Rule::Kind)),
    // byte 8 used
    Trial(&[Change(8, 1)], Err(Rule::HeaderNumbers)),
    // byte 15 used
    Trial(&[Change(15, 1)], Err(Rule::HeaderNumbers)),
    // byte 31 used
    Trial(&[Change(31, 1)], Err(Rule::HeaderNumbers)),
    // equal keys
    Trial(&[Change(47, 10)], Err(Rule::Keys)),
    // falling keys
    Trial(&[Change(47, 9)], Err(Rule::Keys)),
    // the last key of the span
    Trial(&[Change(47, 99)], Ok(())),
    // a key at the span's end
    Trial(&[Change(47, 100)], Err(Rule::Keys)),
    // byte 6 used
    Trial(&[Change(6, 1)], Err(Rule::Unused)),
    // byte 7 used
    Trial(&[Change(7, 1)], Err(Rule::Unused)),
    // a byte behind the last record
    Trial(&[Change(56, 1)], Err(Rule::Unused)),
    // the last byte used
    Trial(&[Change(4095, 1)], Err(Rule::Unused)),
    // level 1 and the last byte used
    Trial(&[Change(0, 1), Change(4095, 1)], Err(Rule::Level)),
    // another kind and mark 3
    Trial(&[Change(5, 2), Change(1, 3)], Err(Rule::Mark)),
    // equal keys and byte 8 used
    Trial(&[Change(47, 10), Change(8, 1)], Err(Rule::HeaderNumbers)),
    // equal keys and byte 7 used
    Trial(&[Change(47, 10), Change(7, 1)], Err(Rule::Keys)),
];

pub const INNER_TRIALS: [Trial<'static>; 28] = [
    // as it is
    Trial(&[Change(4095, 0)], Ok(())),
    // level 2
    Trial(&[Change(0, 2)], Err(Rule::Level)),
    // mark 2
    Trial(&[Change(1, 2)], Err(Rule::Mark)),
    // 257 messages
    Trial(&[Change(2, 1), Change(3, 1)], Err(Rule::Count)),
    // 3 children
    Trial(&[Change(4, 3)], Err(Rule::Children)),
    // 9 children
    Trial(&[Change(4, 9)], Err(Rule::Children)),
    // no kind
    Trial(&[Change(5, 0)], Err(Rule::Kind)),
    // updates in the header
    Trial(&[Change(23, 1)], Err(Rule::HeaderNumbers)),
    // equal pivots
    Trial(&[Change(39, 10)], Err(Rule::Pivots)),
    // a pivot at the span's end
    Trial(&[Change(43, 100)], Err(Rule::Pivots)),
    // the first pivot at the span's start
    Trial(&[Change(35, 0)], Ok(())),
    // a child in block 0
    Trial(&[Change(63, 0)], Err(Rule::ChildNumbers)),
    // a child in the next free block
    Trial(&[Change(75, 20)], Err(Rule::ChildNumbers)),
    // a child in the block before it
    Trial(&[Change(75, 19)], Ok(())),
    // equal keys
    Trial(&[Change(108, 5)], Err(Rule::Keys)),
    // a key at the span's end
    Trial(&[Change(121, 100)], Err(Rule::Keys)),
    // message number 0
    Trial(&[Change(122, 0)], Err(Rule::Keys)),
    // message number 4
    Trial(&[Change(122, 4)], Err(Rule::Keys)),
    // a remove with a word
    Trial(&[Change(117, 1)], Err(Rule::Unused)),
    // byte 7 used
    Trial(&[Change(7, 1)], Err(Rule::Unused)),
    // an unused pivot
    Trial(&[Change(47, 1)], Err(Rule::Unused)),
    // an unused child number
    Trial(&[Change(79, 1)], Err(Rule::Unused)),
    // a byte behind the last message
    Trial(&[Change(131, 1)], Err(Rule::Unused)),
    // the last byte used
    Trial(&[Change(4095, 1)], Err(Rule::Unused)),
    // a child in block 0 and equal pivots
    Trial(&[Change(63, 0), Change(39, 10)], Err(Rule::Pivots)),
    // a child in the next free block and equal keys
    Trial(&[Change(75, 20), Change(108, 5)], Err(Rule::ChildNumbers)),
    // a remove with a word and message number 4
    Trial(&[Change(117, 1), Change(122, 4)], Err(Rule::Keys)),
    // no kind and a byte behind the last message
    Trial(&[Change(5, 0), Change(131, 1)], Err(Rule::Kind)),
];

pub const ROOT_TRIALS: [Trial<'static>; 32] = [
    // as it is
    Trial(&[Change(4095, 0)], Ok(())),
    // level 0
    Trial(&[Change(0, 0)], Err(Rule::Level)),
    // level 9
    Trial(&[Change(0, 9)], Err(Rule::Level)),
    // level 8
    Trial(&[Change(0, 8)], Ok(())),
    // mark 0
    Trial(&[Change(1, 0)], Err(Rule::Mark)),
    // mark 2
    Trial(&[Change(1, 2)], Ok(())),
    // mark 3
    Trial(&[Change(1, 3)], Err(Rule::Mark)),
    // 257 messages
    Trial(&[Change(2, 1), Change(3, 1)], Err(Rule::Count)),
    // 1 child at level 2
    Trial(&[Change(4, 1)], Err(Rule::Children)),
    // 9 children
    Trial(&[Change(4, 9)], Err(Rule::Children)),
    // kind 255
    Trial(&[Change(5, 255)], Ok(())),
    // next free number 1
    Trial(&[Change(11, 1)], Err(Rule::HeaderNumbers)),
    // next free number past the size
    Trial(&[Change(11, 65)], Err(Rule::HeaderNumbers)),
    // next free number at the size
    Trial(&[Change(11, 64)], Ok(())),
    // updates past 2^32
    Trial(&[Change(19, 1)], Err(Rule::HeaderNumbers)),
    // 2^32 updates
    Trial(&[Change(19, 1), Change(23, 0)], Ok(())),
    // a second pivot below the first
    Trial(&[Change(4, 3)], Err(Rule::Pivots)),
    // a child in block 0
    Trial(&[Change(63, 0)], Err(Rule::ChildNumbers)),
    // a child in the next free block
    Trial(&[Change(67, 20)], Err(Rule::ChildNumbers)),
    // equal keys
    Trial(&[Change(108, 5)], Err(Rule::Keys)),
    // message number 4
    Trial(&[Change(96, 4)], Err(Rule::Keys)),
    // a remove with a word
    Trial(&[Change(117, 1)], Err(Rule::Unused)),
    // byte 7 used
    Trial(&[Change(7, 1)], Err(Rule::Unused)),
    // byte 12 used
    Trial(&[Change(12, 1)], Err(Rule::Unused)),
    // byte 15 used
    Trial(&[Change(15, 1)], Err(Rule::Unused)),
    // an unused pivot
    Trial(&[Change(39, 1)], Err(Rule::Unused)),
    // an unused child number
    Trial(&[Change(71, 1)], Err(Rule::Unused)),
    // a byte behind the last message
    Trial(&[Change(118, 1)], Err(Rule::Unused)),
    // 1 child at level 1 and bytes of a second left
    Trial(&[Change(0, 1), Change(4, 1)], Err(Rule::Unused)),
    // mark 3 and the last byte used
    Trial(&[Change(1, 3), Change(4095, 1)], Err(Rule::Mark)),
    // a child in block 0 and equal keys
    Trial(&[Change(63, 0), Change(108, 5)], Err(Rule::ChildNumbers)),
    // level 9 and mark 0
    Trial(&[Change(0, 9), Change(1, 0)], Err(Rule::Level)),
];
