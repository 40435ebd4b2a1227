ghost use Rattle.std.specs.Prelude.{◌≡◌, IfOk};
ghost use Rattle.cluster_setup.specs.Making.{shapes_of, status_shapes_of};
ghost use Rattle.cluster_setup.specs.Parts.{shape_list, shape_tree};

use crate::building::{items, object, said};
use crate::table::Form;
use base_types::OutOfMemory;
use base_types::json::Tree;
use std::alloc::Global;

/// An entry of `shapes`.
pub struct Shape {
    /// Which values of an object it is about.
    pub path: &'static str,
    /// How the server treats them.
    pub class: &'static str,
}

const BOUND: [Shape; 2] = [
    Shape {
        path: "/subjects",
        class: "Defaulted",
    },
    Shape {
        path: "/roleRef",
        class: "Defaulted",
    },
];

const USUAL: [Shape; 2] = [
    Shape {
        path: "/spec",
        class: "Defaulted",
    },
    Shape {
        path: "/status",
        class: "Kept",
    },
];

const STATUS: [Shape; 1] = [Shape {
    path: "/status",
    class: "Asked",
}];

const POD_STATUS: [Shape; 3] = [
    Shape {
        path: "/status",
        class: "Asked",
    },
    Shape {
        path: "/metadata/labels",
        class: "Asked",
    },
    Shape {
        path: "/metadata/annotations",
        class: "Asked",
    },
];

/// What the server fills in of a resource's objects.
pub fn shapes_of(form: Form) -> &'static [Shape]
    ensures { shape_list result.now ≡ shapes_of form }
{
    match form {
        Form::Merged => &[],
        Form::Plain => &[],
        Form::Bound => &BOUND,
        Form::Pods => &USUAL,
        Form::Usual => &USUAL,
    }
}

/// What a write of the status may change.
pub fn status_shapes_of(form: Form) -> &'static [Shape]
    ensures { shape_list result.now ≡ status_shapes_of form }
{
    match form {
        Form::Merged => &STATUS,
        Form::Plain => &STATUS,
        Form::Bound => &STATUS,
        Form::Pods => &POD_STATUS,
        Form::Usual => &STATUS,
    }
}

fn shape_tree(alloc: Global, shape: &Shape) -> Result<Tree, OutOfMemory>
    ensures { IfOk result (λ tree. tree ≡ shape_tree shape.now) }
{
    let fields = said(alloc, &[("path", shape.path), ("class", shape.class)])?;
    Ok(object(fields))
}

/// The list of these shapes.
pub fn shape_list(alloc: Global, shapes: &[Shape]) -> Result<Tree, OutOfMemory>
    ensures { IfOk result (λ tree. tree ≡ shape_list shapes.now) }
{
    let mut all = Vec::new(alloc);
    for shape in shapes {
        all.push(shape_tree(alloc, shape)?)?;
    }
    Ok(items(all))
}
