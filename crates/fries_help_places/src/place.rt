// What a file tells of the place of a fault.
use std::alloc::Global;

/// What a file tells of the place of a fault.
#[derive(Drop)]
pub struct Place {
    /// What stands in brackets after the code, or nothing.
    pub note: String,
    /// Sentences, or nothing.
    pub detail: String,
}

impl Place {
    /// Nothing is told. Takes no memory.
    pub fn new(alloc: Global) -> Self {
        Place {
            note: String::new(alloc),
            detail: String::new(alloc),
        }
    }
}
