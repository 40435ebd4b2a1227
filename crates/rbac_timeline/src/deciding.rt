//! The law of decisions.

ghost use Rattle.std.specs.Prelude.{◌≡◌, ◌↔◌, true};
ghost use Rattle.base_types.specs.declared.verdict.placed.Places.{Places};
ghost use Rattle.base_types.specs.declared.kubernetes.request.Decision.{Decision};
ghost use Rattle.base_types.specs.declared.kubernetes.request.RequestAttrs.{RequestAttrs};
ghost use Rattle.base_types.specs.declared.kubernetes.request.User.{User};
ghost use Rattle.rbac_timeline.specs.Deciding.{is_possible};
ghost use Rattle.rbac_timeline.specs.Decisions.{IsPossible};
ghost use Rattle.rbac_timeline.specs.Known.{Known};
ghost use Rattle.rbac_timeline.specs.Sound.{AreSound};

/// Of sound versions and removals, a decision is possible by some choice of states exactly where the test
/// of the greatest and the least states says so.
pub fn deciding_law()
    ensures { (known : Known) (places : Places) (who : User) (attrs : RequestAttrs)
        (decision : Decision)
        → AreSound known.versions known.ends
        → (is_possible known places who attrs decision ≡ true)
        ↔ IsPossible known places who attrs decision }
{}
