ghost use Rattle.std.specs.Prelude.{◌≡◌, ◌<◌, ◌≤◌, ◌↔◌, [], ◌∷◌, ◌++◌, IsTrue, IfSome, Any};

/// The ends of one span. Marks are in order by `low`.
#[derive(Clone, Copy, PartialEq, Eq)]
pub struct Mark {
    pub low: u64,
    pub high: u64,
    /// The greatest `high` up to this mark.
    pub reach: u64,
}

ghost use Rattle.clouds.specs.Marks.{AreMarks, Reaches};
ghost use Rattle.clouds.specs.FirstPlace.{IsFirstPlace};

/// The mark of these ends behind the others, unless it begins before the last.
pub fn next_mark(marks: &[Mark], low: u64, high: u64) -> Option<Mark>
    requires { AreMarks marks.now }
    ensures order { IfSome result (λ mark. AreMarks (marks.now ++ mark ∷ [])) }
    ensures low { IfSome result (λ mark. mark.low ≡ low) }
    ensures high { IfSome result (λ mark. mark.high ≡ high) }
{
    let Some(last) = marks.last() else {
        return Some(Mark {
            low,
            high,
            reach: high,
        });
    };
    if low < last.low {
        return None;
    }
    Some(Mark {
        low,
        high,
        reach: high.max(last.reach),
    })
}

/// Whether some mark begins below the place and reaches the revision.
pub fn reaches(marks: &[Mark], place: u64, revision: u64) -> bool
    requires { AreMarks marks.now }
    ensures { IsTrue result ↔ Any (Reaches place revision) marks.now }
{
    let begun = marks.partition_point(|mark| mark.low < place);
    if begun == 0 {
        return false;
    }
    revision <= marks[begun - 1].reach
}

/// The least place from `low` to `high` at which some mark that reaches the revision has begun.
pub fn first_reached(marks: &[Mark], revision: u64, low: u64, high: u64) -> Option<u64>
    requires { AreMarks marks.now }
    ensures { IsFirstPlace (λ place. Any (Reaches place revision) marks.now) low high result }
{
    if low > high {
        return None;
    }
    let short = marks.partition_point(|mark| mark.reach < revision);
    if short >= marks.len() {
        return None;
    }
    let begins = marks[short].low;
    if begins >= high {
        return None;
    }
    Some(low.max(begins + 1))
}
