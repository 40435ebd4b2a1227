use base_types::Text;
use std::hash::{Hash, Hasher};
use std::marker::Model;

/// One level of a tree: its children are numbers of the pool, and its names are numbers of the pool's names.
#[derive(Drop)]
pub enum Form {
    Null,
    Flag(bool),
    Whole(i128),
    Words(Text),
    Items(Vec<u32>),
    /// The members in the order of the bytes of their names: the number of each name, and that of its value.
    Members(Vec<(usize, u32)>),
}

/// A level as a store holds it. Contracts see it as a `Flat`, so that capacities play no part.
#[derive(Drop)]
pub struct Level {
    pub form: Form,
}

impl Model for Level {
    ghost use Rattle.node_pool.specs.Flat.{Flat, flat_of};

    ghost Value = { Flat };

    ghost view = { λ l. flat_of l.form };
}

impl PartialEq for Level {
    ghost use Rattle.std.specs.Cmp.{partial_equiv_from_equiv};
    ghost use Rattle.node_pool.specs.Flat.{flat_eq, flat_eq-equiv};

    ghost eq = { flat_eq };

    ghost laws = { partial_equiv_from_equiv flat_eq-equiv };

    fn eq(&self, other: &Level) -> bool {
        match (&self.form, &other.form) {
            (Form::Null, Form::Null) => true,
            (Form::Flag(a), Form::Flag(b)) => a == b,
            (Form::Whole(a), Form::Whole(b)) => a == b,
            (Form::Words(a), Form::Words(b)) => a == b,
            (Form::Items(a), Form::Items(b)) => a == b,
            (Form::Members(a), Form::Members(b)) => a == b,
            _ => false,
        }
    }
}

impl Eq for Level {
    ghost use Rattle.node_pool.specs.Flat.{flat_eq-equiv};

    ghost laws = { flat_eq-equiv };
}

impl Hash for Level {
    ghost use Rattle.node_pool.specs.Flat.{flat_fed, flat_eq-fed};

    ghost hash_input = { flat_fed };

    ghost respects_eq = { flat_eq-fed };

    fn hash<H: Hasher>(&self, state: &mut H) {
        match &self.form {
            Form::Null => state.write_u8(0),
            Form::Flag(flag) => {
                state.write_u8(1);
                flag.hash(state);
            }
            Form::Whole(number) => {
                state.write_u8(2);
                number.hash(state);
            }
            Form::Words(text) => {
                state.write_u8(3);
                text.hash(state);
            }
            Form::Items(numbers) => {
                state.write_u8(4);
                numbers.hash(state);
            }
            Form::Members(members) => {
                state.write_u8(5);
                members.hash(state);
            }
        }
    }
}
