//! The nodes that are searched, and the two stores that keep them.
#![tactic(auto)]

mod block_store;
mod lent_store;
mod memory;
mod node;
mod slice_store;
mod store;

pub use block_store::BlockStore;
pub use node::Node;
pub use slice_store::SliceStore;
pub use store::{ReadStore, WriteStore};

#[cfg(test)]
mod tests;
