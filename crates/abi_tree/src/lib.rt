//! Types as trees and as they were laid out: their places and handles, and the values that their bytes hold.
#![tactic(auto)]

// Types as trees, and as they were laid out.
mod laid;
mod layouts;
mod mark;
mod node;
mod nodes;
mod reading;
mod same_layout;
mod tree;

// Their places, and their handles.
mod counted;
mod handle;
mod needed;
mod parts;
mod runs_of;
mod unused;

// Values, and the bytes that hold them.
mod value;

pub use handle::TreeTy;
pub use laid::Laid;
pub use mark::Mark;
pub use node::{Node, NodeRef, Shape, offsets, state_tag_offset, tag_offset};
pub use nodes::Nodes;
pub use parts::{PartBytes, PartName};
pub use tree::TypeTree;
pub use value::Value;
pub use value::error::ValueError;
pub use value::named::{encoding_of, is_named, own_parts};
pub use value::read::read_value;
pub use value::write::write_value;
