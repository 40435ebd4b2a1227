ghost use Rattle.std.specs.Prelude.{◌≡◌};

use crate::kind::Kind;

/// How a request may be granted: by bindings of one kind that name roles of one kind.
#[derive(Clone, Copy)]
pub enum Way {
    Roles,
    ClusterRoles,
    ClusterBindings,
}

impl Way {
    ghost use Rattle.rbac_timeline.specs.Extents.{bindings_in, roles_in};

    /// The kind of the bindings.
    pub fn bindings(self) -> Kind
        ensures { result ≡ bindings_in self }
    {
        match self {
            Way::Roles | Way::ClusterRoles => Kind::RoleBinding,
            Way::ClusterBindings => Kind::ClusterRoleBinding,
        }
    }

    /// The kind of the roles that they name.
    pub fn roles(self) -> Kind
        ensures { result ≡ roles_in self }
    {
        match self {
            Way::Roles => Kind::Role,
            Way::ClusterRoles | Way::ClusterBindings => Kind::ClusterRole,
        }
    }
}

/// A way, with the places of its two caches.
#[derive(Clone, Copy)]
pub struct Link {
    pub way: Way,
    pub role_place: u64,
    pub binding_place: u64,
}

impl Link {
    /// The place of the cache of bindings, so that proofs know its range.
    pub fn bindings_at(self) -> u64
        ensures { result ≡ self.binding_place }
    {
        self.binding_place
    }
}
