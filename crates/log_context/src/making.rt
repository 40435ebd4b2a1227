ghost use Rattle.std.specs.Prelude.{◌≡◌, IfOk, None, option_map};
ghost use Rattle.history_model.specs.Groups as model;
ghost use Rattle.history_model.specs.Groups.{IsMaking};
ghost use Rattle.history_model.specs.Making.{IsLeastFault};
ghost use Rattle.object_past.specs.Modelled.{version_of};
ghost use Rattle.log_context.specs.Histories.{history_of};
ghost use Rattle.log_context.specs.Uses.{AreUsesOf};

use crate::bodies::RequestBodies;
use crate::context::Context;
use crate::uses::{FirstUses, is_used};
use base_types::{OutOfMemory, Reason};
use object_past::Version;
use past_building::{making_at, making_fault};
use std::alloc::Global;

impl Context {
    /// The least code by which a write could not have made its revision, where `before` was the object before it; None
    /// where it could, and for an event that is no write. The uses are those of the context's history.
    pub fn making_fault(
        &self,
        alloc: Global,
        uses: &FirstUses,
        event: u32,
        before: Option<&Version>,
    ) -> Result<Option<Reason>, OutOfMemory>
        requires { AreUsesOf (history_of self.now) uses.now }
        ensures write { IfOk result (λ fault. (m : model.Making) → IsMaking (history_of self.now) m
            → m.number ≡ event → IsLeastFault (history_of self.now) m
            (option_map (λ v. version_of v.now) before.entry) fault) }
        ensures other { IfOk result (λ fault. ((m : model.Making) → IsMaking (history_of self.now) m
            → m.number ≡ event → ⊥) → fault ≡ None) }
    {
        let log = self.log.events.as_slice();
        let Some(making) = making_at(log, event) else {
            return Ok(None);
        };
        let bodies = RequestBodies {
            setup: &self.setup,
            events: self.events.as_slice(),
            log,
            pool: &self.pool,
        };
        let is_used = is_used(&uses.revisions, making.item.revision, &making.item.uid);
        making_fault(
            alloc,
            &self.windows,
            &self.clouds,
            &bodies,
            making,
            is_used,
            before,
        )
    }
}
