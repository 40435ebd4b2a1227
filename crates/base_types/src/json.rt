//! JSON values as trees: reading, printing, pointers, equality and the stored form.
mod copying;
mod edits;
mod equality;
mod parts;
mod pointers;
mod search;
mod stored;
mod texts;
mod tree;
mod values;

pub use copying::copy;
pub use equality::equal;
pub use pointers::{Pointer, PointerFault, get, read_index, read_pointer};
pub use stored::stored_form;
pub use tree::{Member, MemberList, Node, Tree, TreeFault, Trees};
pub use values::{from_number, from_value, to_value};
