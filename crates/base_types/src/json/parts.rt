ghost use Rattle.std.specs.Prelude.{◌≡◌, option_map};
ghost use Rattle.base_types.specs.Parts.{member_of, is_null, flag_of, whole_of, text_of, items_of, members_of};

use crate::foundation::Text;
use crate::json::tree::{MemberList, Node, Tree, Trees};

impl Tree {
    /// The value of an object's member.
    pub fn member(&self, name: &str) -> Option<&Tree>
        ensures { option_map (λ t. t.now) result ≡ member_of name.now self.now }
    {
        match &self.node {
            Node::Members(list) => list.get(name),
            _ => None,
        }
    }

    pub fn is_null(&self) -> bool
        ensures { result ≡ is_null self.now }
    {
        matches!(&self.node, Node::Null)
    }

    pub fn as_flag(&self) -> Option<bool>
        ensures { result ≡ flag_of self.now }
    {
        match &self.node {
            Node::Flag(flag) => Some(*flag),
            _ => None,
        }
    }

    pub fn as_whole(&self) -> Option<i128>
        ensures { result ≡ whole_of self.now }
    {
        match &self.node {
            Node::Whole(number) => Some(*number),
            _ => None,
        }
    }

    pub fn as_text(&self) -> Option<&Text>
        ensures { option_map (λ s. s.now) result ≡ text_of self.now }
    {
        match &self.node {
            Node::Words(text) => Some(text),
            _ => None,
        }
    }

    pub fn as_items(&self) -> Option<&Trees>
        ensures { option_map (λ ts. ts.now) result ≡ items_of self.now }
    {
        match &self.node {
            Node::Items(list) => Some(list),
            _ => None,
        }
    }

    pub fn as_members(&self) -> Option<&MemberList>
        ensures { option_map (λ ms. ms.now) result ≡ members_of self.now }
    {
        match &self.node {
            Node::Members(list) => Some(list),
            _ => None,
        }
    }
}
