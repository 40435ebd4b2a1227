use base_types::Text;
use std::marker::Model;

/// A document while a patch works on it: a tree whose arrays and objects are kept in chunks, so that an item or a
/// member comes and goes at any place of a long one without moving all that stand behind it.
#[cycle(draft)]
#[derive(Drop)]
pub struct Draft {
    pub node: DraftNode,
}

/// One level of a draft.
#[cycle(draft)]
#[derive(Drop)]
pub enum DraftNode {
    Null,
    Flag(bool),
    Whole(i128),
    Words(Text),
    Items(Chunks),
    Members(DraftMembers),
}

/// The items of an array: those of the chunks, one chunk after another. Some may be empty.
#[cycle(draft)]
#[derive(Drop)]
pub struct Chunks {
    pub parts: Vec<Chunk>,
}

/// Items of an array that stand one after another.
#[cycle(draft)]
#[derive(Drop)]
pub struct Chunk {
    pub all: Vec<Draft>,
}

/// The members of an object, in the order of the bytes of their names, which are distinct: those of the
/// chunks, one chunk after another.
#[cycle(draft)]
#[derive(Drop)]
pub struct DraftMembers {
    pub parts: Vec<MemberChunk>,
}

/// Members of an object that stand one after another. There is at least one, by which a search knows where
/// the chunk begins.
#[cycle(draft)]
#[derive(Drop)]
pub struct MemberChunk {
    pub all: Vec<DraftMember>,
}

/// One member of an object.
#[cycle(draft)]
#[derive(Drop)]
pub struct DraftMember {
    pub name: Text,
    pub value: Draft,
}

impl Model for Draft {
    ghost use Rattle.base_types.specs.Meaning.{Meaning};
    ghost use Rattle.base_types.specs.Code.{coded_meaning};

    ghost Value = { Meaning };

    ghost coded = { coded_meaning };

    ghost use Rattle.json_patch.specs.Weights.{weight};
    ghost use Rattle.json_patch.specs.Drafts.{drafted};

    ghost view = { λ t. drafted t.node };

    ghost size = { weight };
}

impl Model for Chunks {
    ghost use Rattle.std.specs.Prelude.{List};
    ghost use Rattle.base_types.specs.Meaning.{Meaning};
    ghost use Rattle.base_types.specs.Code.{coded_meaning};
    ghost use Rattle.std.specs.Coded.{coded_list};

    ghost Value = { List Meaning };

    ghost coded = { coded_list coded_meaning };

    ghost use Rattle.json_patch.specs.Weights.{chunks_weight};
    ghost use Rattle.json_patch.specs.Joined.{joined};

    ghost view = { λ ts. joined ts.parts.items };

    ghost size = { chunks_weight };

    ghost use Rattle.std.proofs.Common.{arith};
    ghost use Rattle.json_patch.specs.Weights.{most_le-chunks};

    ghost size_decreases = { λ a h. omega (arith, most_le-chunks a.parts.items) };
}

impl Model for Chunk {
    ghost use Rattle.std.specs.Prelude.{List};
    ghost use Rattle.base_types.specs.Meaning.{Meaning};
    ghost use Rattle.base_types.specs.Code.{coded_meaning};
    ghost use Rattle.std.specs.Coded.{coded_list};

    ghost Value = { List Meaning };

    ghost coded = { coded_list coded_meaning };

    ghost use Rattle.json_patch.specs.Weights.{chunk_weight};

    ghost view = { λ ts. ts.all.items };

    ghost size = { chunk_weight };

    ghost use Rattle.std.proofs.Common.{arith};
    ghost use Rattle.json_patch.specs.Weights.{most_le-chunk};

    ghost size_decreases = { λ a h. omega (arith, most_le-chunk a.all.items) };
}

impl Model for DraftMembers {
    ghost use Rattle.std.specs.Prelude.{ℕ, List};
    ghost use Rattle.base_types.specs.Meaning.{Meaning};
    ghost use Rattle.base_types.specs.Code.{coded_meaning, coded_bytes};
    ghost use Rattle.std.specs.Coded.{coded_list, coded×};

    ghost Value = { List (List ℕ × Meaning) };

    ghost coded = { coded_list (coded× coded_bytes coded_meaning) };

    ghost use Rattle.json_patch.specs.Weights.{members_weight};
    ghost use Rattle.json_patch.specs.Joined.{joined};

    ghost view = { λ ms. joined ms.parts.items };

    ghost use Rattle.base_types.specs.Names.{AreSorted};

    ghost invariant = { λ ms. AreSorted (joined ms.parts.items) };

    ghost size = { members_weight };

    ghost use Rattle.std.proofs.Common.{arith};
    ghost use Rattle.json_patch.specs.Weights.{most_le-members};

    ghost size_decreases = { λ a h. omega (arith, most_le-members a.parts.items) };
}

impl Model for MemberChunk {
    ghost use Rattle.std.specs.Prelude.{ℕ, List, ◌<◌, length};
    ghost use Rattle.base_types.specs.Meaning.{Meaning};
    ghost use Rattle.base_types.specs.Code.{coded_meaning, coded_bytes};
    ghost use Rattle.std.specs.Coded.{coded_list, coded×};

    ghost Value = { List (List ℕ × Meaning) };

    ghost coded = { coded_list (coded× coded_bytes coded_meaning) };

    ghost use Rattle.json_patch.specs.Weights.{member_chunk_weight};

    ghost view = { λ ms. ms.all.items };

    ghost invariant = { λ ms. 0 < length ms.all.items };

    ghost size = { member_chunk_weight };

    ghost use Rattle.std.proofs.Common.{arith};
    ghost use Rattle.json_patch.specs.Weights.{most_le-member_chunk};

    ghost size_decreases = { λ a h. omega (arith, most_le-member_chunk a.all.items) };
}

impl Model for DraftMember {
    ghost use Rattle.std.specs.Prelude.{ℕ, List, ◌+◌};
    ghost use Rattle.base_types.specs.Meaning.{Meaning};
    ghost use Rattle.base_types.specs.Code.{coded_meaning, coded_bytes};
    ghost use Rattle.std.specs.Coded.{coded×};

    ghost Value = { List ℕ × Meaning };

    ghost coded = { coded× coded_bytes coded_meaning };

    ghost use Rattle.json_patch.specs.Weights.{weight};

    ghost view = { λ m. (m.name, m.value) };

    ghost size = { λ m. weight m.1 + 1 };
}
