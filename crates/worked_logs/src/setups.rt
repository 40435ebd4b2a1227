//! Setups of several logs.

/// Nothing was there at the start.
pub const EMPTY: &str =
    r#"{"kind":"PastSetup","version":1,"start":{"revision":"10","time":"2024-05-01T10:00:00Z"},"until":"2024-05-01T11:00:00Z",
    "policy":{"apiVersion":"audit.k8s.io/v1","kind":"Policy","rules":[{"level":"RequestResponse"}]},
    "resources":[{"group":"","version":"v1","resource":"configmaps","kind":"ConfigMap","listKind":"ConfigMapList","namespaced":true}],
    "snapshot":[]}"#;

/// Two lists are known from elsewhere.
pub const CHECKED: &str =
    r#"{"kind":"PastSetup","version":2,"start":{"revision":"10","time":"2024-05-01T10:00:00Z"},"until":"2024-05-01T11:00:00Z",
    "policy":{"apiVersion":"audit.k8s.io/v1","kind":"Policy","rules":[{"level":"RequestResponse"}]},
    "resources":[{"group":"","version":"v1","resource":"configmaps","kind":"ConfigMap","listKind":"ConfigMapList","namespaced":true}],
    "snapshot":[],"checkpoints":[
    {"group":"","resource":"configmaps","namespace":"d","list":{"kind":"ConfigMapList","apiVersion":"v1","metadata":{"resourceVersion":"16"},"items":[]}},
    {"group":"","resource":"configmaps","namespace":"d","list":{"kind":"ConfigMapList","apiVersion":"v1","metadata":{"resourceVersion":"20"},"items":[
    {"metadata":{"name":"a","namespace":"d","uid":"A","resourceVersion":"14"},"data":{"k":"x"}}]}}]}"#;
