ghost use Rattle.std.specs.Prelude.{◌≡◌, ◌≤◌, ◌↔◌, [], ◌∷◌, ◌++◌, IsTrue, IfOk, OnErr, Any, true, false};

use crate::mark::{Mark, first_reached, next_mark, reaches};
use crate::span::OpaqueSpan;
use base_types::{Cover, ObjectKey, OutOfMemory, covers};
use std::alloc::Global;
use std::marker::Model;

/// Spans of one cover, in order by their lows.
#[derive(Drop)]
pub struct CoverSpans {
    cover: Cover,
    marks: Vec<Mark>,
}

impl Model for CoverSpans {
    ghost use Rattle.std.specs.Prelude.{List};
    ghost use Rattle.clouds.specs.declared.span.OpaqueSpan.{OpaqueSpan};

    ghost Value = { List OpaqueSpan };

    ghost use Rattle.clouds.specs.Marks.{AreMarks, spans_of};

    ghost view = { λ s. spans_of s.cover s.marks.items };

    ghost invariant = { λ s. AreMarks s.marks.items };
}

impl CoverSpans {
    ghost use Rattle.clouds.specs.FirstPlace.{IsFirstPlace};
    ghost use Rattle.clouds.specs.Hiding.{ReachesKey};

    pub fn of(alloc: Global, span: &OpaqueSpan) -> Result<CoverSpans, OutOfMemory>
        ensures { IfOk result (λ spans. spans ≡ span.now ∷ []) }
    {
        let mut marks = Vec::new(alloc);
        marks.push(Mark {
            low: span.low,
            high: span.high,
            reach: span.high,
        })?;
        Ok(CoverSpans {
            cover: span.cover.clone()?,
            marks,
        })
    }

    /// Takes a span of the same cover that doesn't begin before the others, and tells whether it did.
    pub fn take(&mut self, span: &OpaqueSpan) -> Result<bool, OutOfMemory>
        ensures taken { IfOk result (λ taken. taken ≡ true → self.new ≡ self.old ++ span.now ∷ []) }
        ensures left { IfOk result (λ taken. taken ≡ false → self.new ≡ self.old) }
    {
        if !is_same(&self.cover, &span.cover) {
            return Ok(false);
        }
        let Some(mark) = next_mark(&self.marks, span.low, span.high) else {
            return Ok(false);
        };
        self.marks.push(mark)?;
        Ok(true)
    }

    /// Whether some span of the key begins below the place and reaches the revision.
    pub fn reach(&self, key: &ObjectKey, place: u64, revision: u64) -> bool
        ensures { IsTrue result ↔ Any (ReachesKey key.now place revision) self.now }
    {
        covers(&self.cover, key) && reaches(&self.marks, place, revision)
    }

    /// The least place from `low` to `high` at which some span of the key has begun that reaches the revision.
    pub fn first_reached(&self, key: &ObjectKey, revision: u64, low: u64, high: u64) -> Option<u64>
        ensures { IsFirstPlace (λ place. Any (ReachesKey key.now place revision) self.now) low
            high result }
    {
        if !covers(&self.cover, key) {
            return None;
        }
        first_reached(&self.marks, revision, low, high)
    }
}

fn is_same(a: &Cover, b: &Cover) -> bool
    ensures { IsTrue result ↔ (a.now ≡ b.now) }
{
    a == b
}
