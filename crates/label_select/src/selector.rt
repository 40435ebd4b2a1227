use base_types::{Listed, OutOfMemory, Text, Texts};
use thiserror::Error;

/// A label selector: it takes the labels that meet each of its requirements.
pub type Selector = Listed<Requirement>;

/// What a selector asks of one label (Kubernetes "Labels and Selectors", "Label selectors").
#[derive(Drop, PartialEq, Eq)]
pub struct Requirement {
    /// The name of the label.
    pub key: Text,
    pub test: Test,
}

/// What is asked of a label of some name.
#[derive(Drop, PartialEq, Eq)]
pub enum Test {
    /// `KEY`: there is such a label.
    Exists,
    /// `!KEY`: there is none.
    Missing,
    /// `KEY=V` and `KEY==V`: its value is this one.
    Is(Text),
    /// `KEY!=V`: its value is another one, or there is none.
    IsNot(Text),
    /// `KEY in (V,..)`: its value is one of these.
    In(Texts),
    /// `KEY notin (V,..)`: its value is none of these, or there is none.
    NotIn(Texts),
}

/// Why a text is no selector.
#[derive(Clone, Copy, Debug, PartialEq, Eq, Error)]
pub enum SelectorFault {
    /// The text isn't in the grammar.
    #[error("not a label selector")]
    Form,
    #[error("out of memory")]
    OutOfMemory,
}

impl From<OutOfMemory> for SelectorFault {
    ghost use Rattle.label_select.specs.declared.selector.SelectorFault.TheVariants.{OutOfMemory as Refused};
    ghost use Rattle.std.specs.Prelude.{◌≡◌};

    ghost from_gives = { λ _ fault. fault ≡ Refused };

    fn from(_: OutOfMemory) -> SelectorFault {
        SelectorFault::OutOfMemory
    }
}
