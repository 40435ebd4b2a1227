ghost use Rattle.std.specs.Prelude.{◌≡◌, ◌≤◌, IfOk};
ghost use Rattle.case_maker.specs.Case.{log_text, setup_text};

use crate::cluster::{append_next, first_cluster};
use base_types::{Bytes, OutOfMemory};
use std::alloc::Global;

/// A setup and a log for trials.
#[derive(Drop, PartialEq, Eq)]
pub struct Case {
    pub setup: Bytes,
    pub log: Bytes,
}

const SETUP: &str =
    r#"{"kind":"PastSetup","version":1,"start":{"revision":"10","time":"2024-05-01T10:00:00.000000Z"},"until":"2024-05-01T11:00:00.000000Z","policy":{"apiVersion":"audit.k8s.io/v1","kind":"Policy","rules":[{"level":"RequestResponse"}]},"resources":[{"group":"","version":"v1","resource":"configmaps","kind":"ConfigMap","listKind":"ConfigMapList","namespaced":true}],"snapshot":[]}"#;

/// Makes the case of a number: so many events, one each millisecond, on the configmaps of 64 names. The
/// number and the count alone decide its bytes.
pub fn make_case(alloc: Global, number: u64, events: u32) -> Result<Case, OutOfMemory>
    requires { events ≤ 100000 }
    ensures setup { IfOk result (λ case. case.setup ≡ setup_text) }
    ensures log { IfOk result (λ case. case.log ≡ log_text number events) }
{
    let mut log = String::new(alloc);
    let mut cluster = first_cluster(number);
    for event in 1..events + 1 {
        append_next(&mut log, &mut cluster, event)?;
    }
    Ok(Case {
        setup: Bytes::from_vec(Vec::from_slice(alloc, SETUP.as_bytes())?),
        log: Bytes::from_vec(log.into_bytes()),
    })
}
