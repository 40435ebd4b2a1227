use base_types::{Listed, Moment, Revision, Text};
use setup_file::Snapshot;

/// A page of a list that was read in several.
#[derive(Drop)]
pub struct Page {
    /// The line of its event.
    pub line: u64,
    /// When it was answered.
    pub staged: Moment,
    pub group: Text,
    pub resource: Text,
    /// The namespace of the request's path.
    pub namespace: Text,
    /// The namespace whose objects were listed; empty for all.
    pub scope: Text,
    pub revision: Revision,
    pub items: Snapshot,
    /// The answer's `metadata.continue`, with which the next page is asked for.
    pub token: Option<Text>,
    pub asked: Asked,
}

/// Which page a request asks for, by the members `continue` of its query that aren't empty.
#[derive(Drop, PartialEq, Eq)]
pub enum Asked {
    First,
    Next(Text),
    /// There are several tokens.
    Unclear,
}

/// What joins a page to the pages before it and behind it.
#[derive(Drop)]
pub struct Joint {
    /// The namespace of the request's path.
    pub namespace: Text,
    /// The token with which the next page is asked for.
    pub token: Option<Text>,
    pub asked: Asked,
}

pub type Pages = Listed<Page>;

/// What a page has in common with the one before it, and the token that leads to it.
#[derive(Drop, PartialEq, Eq, Hash)]
pub struct PageKey {
    pub group: Text,
    pub resource: Text,
    pub namespace: Text,
    pub revision: Revision,
    pub token: Text,
}
