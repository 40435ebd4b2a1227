ghost use Rattle.std.specs.Prelude.{◌≡◌, is_some, option_map, option_and_then};
ghost use Rattle.serde_json.specs.Find.{get, as_null, as_str, as_number, as_u64, as_array, as_object};
ghost use Rattle.serde_json.specs.View.{number_view};
ghost use Rattle.borrowed_json.specs.View.{view, items_view, members_view};

use serde_json::Number;
use std::collections::BTreeMap;

/// An object's members, in the order of their names.
pub type Map<'a> = BTreeMap<&'a str, JsonValue<'a>>;

/// A JSON value (RFC 8259) whose texts are borrowed.
#[derive(Drop)]
pub enum JsonValue<'a> {
    Null,
    Bool(bool),
    Number(Number),
    String(&'a str),
    Array(Vec<JsonValue<'a>>),
    Object(Map<'a>),
}

impl<'a> JsonValue<'a> {
    /// The member of this name, where this is an object.
    pub fn get(&self, name: &str) -> Option<&JsonValue<'a>>
        ensures { option_map (λ value. view value.now) result ≡ get name.now (view self.now) }
    {
        self.as_object()?.get(name)
    }

    pub fn is_null(&self) -> bool
        ensures { result ≡ is_some (as_null (view self.now)) }
    {
        matches!(self, JsonValue::Null)
    }

    pub fn as_str(&self) -> Option<&'a str>
        ensures { option_map (λ text. text.now) result ≡ as_str (view self.now) }
    {
        match self {
            JsonValue::String(text) => Some(*text),
            _ => None,
        }
    }

    pub fn as_number(&self) -> Option<&Number>
        ensures { option_map (λ number. number_view number.now) result ≡ as_number (view self.now) }
    {
        match self {
            JsonValue::Number(number) => Some(number),
            _ => None,
        }
    }

    pub fn as_u64(&self) -> Option<u64>
        ensures { result ≡ option_and_then as_u64 (as_number (view self.now)) }
    {
        self.as_number()?.as_u64()
    }

    pub fn as_array(&self) -> Option<&Vec<JsonValue<'a>>>
        ensures { option_map (λ list. items_view list.now.items) result ≡ as_array (view self.now) }
    {
        match self {
            JsonValue::Array(list) => Some(list),
            _ => None,
        }
    }

    pub fn as_object(&self) -> Option<&Map<'a>>
        ensures { option_map (λ map. members_view map.now.entries) result
            ≡ as_object (view self.now) }
    {
        match self {
            JsonValue::Object(map) => Some(map),
            _ => None,
        }
    }

    pub fn is_object(&self) -> bool
        ensures { result ≡ is_some (as_object (view self.now)) }
    {
        self.as_object().is_some()
    }
}
