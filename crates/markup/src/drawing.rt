ghost use Rattle.std.specs.Prelude.{◌≡◌, ◌+◌, ◌≤◌};
ghost use Rattle.markup.specs.Drawing.{FirstIsLeft, LastIsRight, PlacesRise};

/// A line of a drawing that stands for the numbers from `low` to `high`: revisions, or nanoseconds.
#[derive(Clone, Copy, PartialEq, Eq)]
pub struct Axis {
    pub low: u64,
    pub high: u64,
    /// Where the line begins, in the drawing's units.
    pub left: u32,
    pub width: u32,
}

impl Axis {
    ghost use Rattle.markup.specs.Drawing.{position};

    /// How far right a number stands, in the drawing's units. One that is beyond an end stands there.
    pub fn position(&self, place: u64) -> u64
        ensures value { result ≡ position self.now place }
        ensures left { self.now.left ≤ result }
        ensures right { result ≤ self.now.left + self.now.width }
    {
        let kept = place.min(self.high).max(self.low);
        let span = u128::from(self.high.saturating_sub(self.low).max(1));
        let right = u128::from(kept - self.low) * u128::from(self.width) / span;
        u64::from(self.left) + right as u64
    }
}

/// Places rise along a line, from its begin to its end.
pub fn position_law()
    ensures rise { PlacesRise }
    ensures first { FirstIsLeft }
    ensures last { LastIsRight }
{}
