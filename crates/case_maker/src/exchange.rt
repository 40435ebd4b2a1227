ghost use Rattle.std.specs.Prelude.{◌≡◌, ◌<◌, ◌+◌, ◌^◌, Option};
ghost use Rattle.case_maker.specs.Exchanges.{exchange_of, object_after, revision_after};

/// An object that is there.
#[derive(Clone, Copy, PartialEq, Eq)]
pub struct Held {
    /// The number of the event that created it.
    pub created: u32,
    /// The revision of its last write.
    pub revision: u64,
    /// The number of the event of its last write.
    pub written: u32,
}

/// What an event does.
#[derive(Clone, Copy, PartialEq, Eq)]
pub enum Exchange {
    /// The object as created.
    Create(Held),
    /// A read of an absent object.
    Miss,
    /// The object as updated.
    Update(Held),
    Get(Held),
    /// The object that was there.
    Delete(Held),
    /// A list of all objects, drawn at one that is there.
    List(Held),
}

/// What event `number` does with the object of the drawn name, by a number from 0 to 7.
pub fn choose(object: Option<Held>, choice: u64, number: u32, revision: u64) -> Exchange
    requires { revision + 1 < 2 ^ 64 }
    ensures { result ≡ exchange_of object choice number revision }
{
    match (object, choice) {
        (None, 0..=5) => Exchange::Create(Held {
            created: number,
            revision: revision + 1,
            written: number,
        }),
        (None, _) => Exchange::Miss,
        (Some(held), 0..=3) => Exchange::Update(Held {
            created: held.created,
            revision: revision + 1,
            written: number,
        }),
        (Some(held), 4..=5) => Exchange::Get(held),
        (Some(held), 6) => Exchange::Delete(held),
        (Some(held), _) => Exchange::List(held),
    }
}

impl Exchange {
    /// The last revision after it: a write takes the next one.
    pub fn revision_after(&self, revision: u64) -> u64
        requires { revision + 1 < 2 ^ 64 }
        ensures { result ≡ revision_after self.now revision }
    {
        match self {
            Exchange::Create(_) | Exchange::Update(_) | Exchange::Delete(_) => revision + 1,
            Exchange::Miss | Exchange::Get(_) | Exchange::List(_) => revision,
        }
    }

    /// The object of the drawn name after it.
    pub fn object_after(&self) -> Option<Held>
        ensures { result ≡ object_after self.now }
    {
        match self {
            Exchange::Create(held)
            | Exchange::Update(held)
            | Exchange::Get(held)
            | Exchange::List(held) => Some(*held),
            Exchange::Miss | Exchange::Delete(_) => None,
        }
    }
}
