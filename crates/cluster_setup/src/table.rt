ghost use Rattle.std.specs.Prelude.{◌≡◌};
ghost use Rattle.cluster_setup.specs.Table.{core_form, rbac_form, lease_form, event_form, form_of, patch_of};

/// How a resource is judged: whether its patches that are objects are merge patches, and what the server fills in.
#[derive(Clone, Copy)]
pub enum Form {
    /// Patches are merge patches; an answer has what was asked.
    Merged,
    /// An answer has what was asked.
    Plain,
    /// The server fills in `/subjects` and `/roleRef`.
    Bound,
    /// The server fills in `/spec`; a write of the status may change labels and annotations.
    Pods,
    /// The server fills in `/spec`, and keeps `/status`.
    Usual,
}

fn core_form(resource: &str) -> Form
    ensures { result ≡ core_form resource.now }
{
    match resource {
        "configmaps" => Form::Merged,
        "secrets" => Form::Plain,
        "serviceaccounts" => Form::Plain,
        "endpoints" => Form::Plain,
        "events" => Form::Plain,
        "pods" => Form::Pods,
        _ => Form::Usual,
    }
}

fn rbac_form(resource: &str) -> Form
    ensures { result ≡ rbac_form resource.now }
{
    match resource {
        "roles" => Form::Plain,
        "clusterroles" => Form::Plain,
        "rolebindings" => Form::Bound,
        "clusterrolebindings" => Form::Bound,
        _ => Form::Usual,
    }
}

fn lease_form(resource: &str) -> Form
    ensures { result ≡ lease_form resource.now }
{
    match resource {
        "leases" => Form::Merged,
        _ => Form::Usual,
    }
}

fn event_form(resource: &str) -> Form
    ensures { result ≡ event_form resource.now }
{
    match resource {
        "events" => Form::Plain,
        _ => Form::Usual,
    }
}

/// The form of a resource of a group; the core group's name is empty.
pub fn form_of(group: &str, resource: &str) -> Form
    ensures { result ≡ form_of group.now resource.now }
{
    match group {
        "" => core_form(resource),
        "rbac.authorization.k8s.io" => rbac_form(resource),
        "coordination.k8s.io" => lease_form(resource),
        "events.k8s.io" => event_form(resource),
        _ => Form::Usual,
    }
}

/// What an entry says of patches that are objects.
pub fn patch_of(form: Form) -> &'static str
    ensures { result.now ≡ patch_of form }
{
    match form {
        Form::Merged => "merge",
        Form::Plain => "recorded",
        Form::Bound => "recorded",
        Form::Pods => "recorded",
        Form::Usual => "recorded",
    }
}
