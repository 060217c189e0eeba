// All the memory that a book ever needs, made before it is opened.
use std::alloc::{AllocError, Global};
use store::workspace::Workspace;

#[derive(Drop)]
pub struct Rooms {
    pub stock: Workspace,
    pub day: Workspace,
}

impl Rooms {
    // Only here may memory be short.
    pub fn new(heap: Global) -> Result<Rooms, AllocError> {
        Ok(Rooms {
            stock: Workspace::new(heap)?,
            day: Workspace::new(heap)?,
        })
    }
}
