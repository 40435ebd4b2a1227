ghost use Rattle.std.specs.Prelude.{◌≡◌, IfOk, option_map, option_and_then, find};
ghost use Rattle.std.specs.Cow.{cow_str_bytes};
ghost use Rattle.request_attrs.specs.Queries.{pairs_of, term_name, name_in, is_field_selector};

use base_types::{OutOfMemory, Pair, Pairs, Text};
use std::alloc::Global;
use std::borrow::CowStr;

fn owned_pair(alloc: Global, name: CowStr<'_>, value: CowStr<'_>) -> Result<Pair, OutOfMemory>
    ensures { IfOk result (λ pair. pair ≡ record {
      name = cow_str_bytes name.entry;
      value = cow_str_bytes
          value.entry;
    }) }
{
    let name = Text::from_string(name.into_owned(alloc)?);
    let value = Text::from_string(value.into_owned(alloc)?);
    Ok(Pair { name, value })
}

/// The pairs of a query, decoded (URL Standard, `application/x-www-form-urlencoded`).
pub(crate) fn pairs(alloc: Global, query: &str) -> Result<Pairs, OutOfMemory>
    ensures { IfOk result (λ pairs. pairs ≡ pairs_of query.now) }
{
    let mut all = Pairs::new(alloc);
    for pair in form_urlencoded::parse(alloc, query.as_bytes()) {
        let (name, value) = pair?;
        all.push(owned_pair(alloc, name, value)?)?;
    }
    Ok(all)
}

// The name that a term of a field selector asks for.
fn term_name(term: &str) -> Option<&str>
    ensures { option_map (λ name. name.now) result ≡ term_name term.now }
{
    if let Some(name) = term.strip_prefix("metadata.name==") {
        return Some(name);
    }
    term.strip_prefix("metadata.name=")
}

fn name_in(selector: &str) -> Option<&str>
    ensures { option_map (λ name. name.now) result ≡ name_in selector.now }
{
    for term in selector.split(',') {
        if let Some(name) = term_name(term) {
            return Some(name);
        }
    }
    None
}

/// The name that the first field selector of the query asks for (Kubernetes "Field selectors").
pub(crate) fn selected_name(query: &[Pair]) -> Option<&str>
    ensures { option_map (λ name. name.now) result
        ≡ option_and_then (λ pair. name_in pair.value) (find is_field_selector query.now) }
{
    let selector = query
        .iter()
        .find(|pair| pair.name.as_str() == "fieldSelector")?;
    name_in(selector.value.as_str())
}
