use label_select::Selector;
use std::collections::BTreeMap;

/// The label selectors of the whole lists that have one, by the numbers of their events.
pub type Selectors = BTreeMap<u32, Selector>;
