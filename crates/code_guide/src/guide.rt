ghost use Rattle.std.specs.Prelude.{◌≡◌, map, option_map};
ghost use Rattle.std.specs.List.{find};
ghost use Rattle.code_guide.specs.Listed.{guide_of, is_named};
ghost use Rattle.code_guide.specs.Texts.{text_in};

/// The last word of a code, with the code's text.
pub struct Guide {
    pub name: &'static str,
    pub text: &'static str,
}

fn guide_named<'a>(guides: &'a [Guide], name: &str) -> Option<&'a Guide>
    ensures { option_map (λ guide. guide.now) result ≡ find (is_named name.now) guides.entry.now }
{
    guides.iter().find(|guide| name == guide.name)
}

/// The text of the first guide of a name.
pub fn text_in(guides: &[Guide], name: &str) -> Option<&'static str>
    ensures { option_map (λ text. text.now) result ≡ text_in (map guide_of guides.now) name.now }
{
    match guide_named(guides, name) {
        Some(guide) => Some(guide.text),
        None => None,
    }
}
