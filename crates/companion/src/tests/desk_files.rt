//! The files of the desk from which the companion's calls are answered, and texts that are wanted.

// Each begins with a line of `=` and its name. The log has an event, a line that isn't one, a blank line, the event
// again, and one of its audit ID that differs from it. `kubectl-list` is as `kubectl get pods -o json` prints it.
const FILES: &str = r#"=log
{"kind":"Event","apiVersion":"audit.k8s.io/v1","level":"Metadata","auditID":"a1","stage":"ResponseComplete","requestURI":"/readyz","verb":"get","user":{"username":"u"},"requestReceivedTimestamp":"2024-05-01T10:00:01Z","stageTimestamp":"2024-05-01T10:00:02Z"}
{

{"kind":"Event","apiVersion":"audit.k8s.io/v1","level":"Metadata","auditID":"a1","stage":"ResponseComplete","requestURI":"/readyz","verb":"get","user":{"username":"u"},"requestReceivedTimestamp":"2024-05-01T10:00:01Z","stageTimestamp":"2024-05-01T10:00:02Z"}
{"kind":"Event","apiVersion":"audit.k8s.io/v1","level":"Metadata","auditID":"a1","stage":"ResponseComplete","requestURI":"/livez","verb":"get","user":{"username":"u"},"requestReceivedTimestamp":"2024-05-01T10:00:01Z","stageTimestamp":"2024-05-01T10:00:02Z"}
=sifted
{"kind":"Event","apiVersion":"audit.k8s.io/v1","level":"Metadata","auditID":"a1","stage":"ResponseComplete","requestURI":"/readyz","verb":"get","user":{"username":"u"},"requestReceivedTimestamp":"2024-05-01T10:00:01Z","stageTimestamp":"2024-05-01T10:00:02Z"}

{"kind":"Event","apiVersion":"audit.k8s.io/v1","level":"Metadata","auditID":"a1","stage":"ResponseComplete","requestURI":"/readyz","verb":"get","user":{"username":"u"},"requestReceivedTimestamp":"2024-05-01T10:00:01Z","stageTimestamp":"2024-05-01T10:00:02Z"}
=blank

=made
{"authorize":false,"kind":"PastSetup","policy":{"apiVersion":"audit.k8s.io/v1","kind":"Policy","rules":[]},"resources":[{"group":"","kind":"ConfigMap","listKind":"ConfigMapList","namespaced":true,"objectPatch":"merge","resource":"configmaps","shapes":[],"subresources":[],"version":"v1"}],"snapshot":[{"group":"","object":{"apiVersion":"v1","kind":"ConfigMap","metadata":{"name":"a","namespace":"d","resourceVersion":"9","uid":"A"}},"resource":"configmaps"}],"start":{"revision":"10","time":"2024-05-01T10:00:00Z"},"version":1}
=policy
{"apiVersion":"audit.k8s.io/v1","kind":"Policy","rules":[]}
=braces
{}
=odd
{
=word
x
=core
{"kind":"APIResourceList","groupVersion":"v1","resources":[
    {"name":"configmaps","namespaced":true,"kind":"ConfigMap"},{"name":"nodes","namespaced":false,"kind":"Node"},
    {"name":"pods","namespaced":true,"kind":"Pod"},{"name":"pods/binding","namespaced":true,"kind":"Binding"},
    {"name":"pods/log","namespaced":true,"kind":"Pod"},{"name":"pods/status","namespaced":true,"kind":"Pod"}]}
=rbac
{"kind":"APIResourceList","groupVersion":"rbac.authorization.k8s.io/v1","resources":[
    {"name":"roles","namespaced":true,"kind":"Role"},{"name":"rolebindings","namespaced":true,"kind":"RoleBinding"},
    {"name":"clusterroles","namespaced":false,"kind":"ClusterRole"},
    {"name":"clusterrolebindings","namespaced":false,"kind":"ClusterRoleBinding"}]}
=maps
{"kind":"ConfigMapList","apiVersion":"v1","metadata":{"resourceVersion":"10"},"items":[
    {"metadata":{"name":"a","namespace":"d","uid":"A","resourceVersion":"9"}}]}
=again
{"kind":"ConfigMapList","apiVersion":"v1","metadata":{"resourceVersion":"10"},"items":[
    {"metadata":{"name":"a","namespace":"d","uid":"A","resourceVersion":"9"}}]}
=pods
{"kind":"PodList","apiVersion":"v1","metadata":{"resourceVersion":"10","continue":""},"items":[
    {"metadata":{"name":"p","namespace":"d","uid":"P","resourceVersion":"8"}}]}
=nodes
{"kind":"NodeList","apiVersion":"v1","metadata":{"resourceVersion":"10"},"items":[
    {"kind":"Node","apiVersion":"v1","metadata":{"name":"n","uid":"N","resourceVersion":"7"}}]}
=roles
{"kind":"RoleList","apiVersion":"rbac.authorization.k8s.io/v1","metadata":{"resourceVersion":"10"},
    "items":[{"metadata":{"name":"r","namespace":"d","uid":"R","resourceVersion":"6"},"rules":null}]}
=odd-roles
{"kind":"RoleList","apiVersion":"rbac.authorization.k8s.io/v1","metadata":{"resourceVersion":"10"},
    "items":[{"metadata":{"name":"r","namespace":"d","uid":"R","resourceVersion":"6"},"rules":5}]}
=bindings
{"kind":"RoleBindingList","apiVersion":"rbac.authorization.k8s.io/v1",
    "metadata":{"resourceVersion":"10"},"items":[]}
=odd-bindings
{"kind":"RoleBindingList","apiVersion":"rbac.authorization.k8s.io/v1","metadata":{"resourceVersion":"10"},
    "items":[{"metadata":{"name":"b","namespace":"d","uid":"B","resourceVersion":"5"},"roleRef":5}]}
=cluster-roles
{"kind":"ClusterRoleList","apiVersion":"rbac.authorization.k8s.io/v1",
    "metadata":{"resourceVersion":"10"},"items":[]}
=cluster-bindings
{"kind":"ClusterRoleBindingList","apiVersion":"rbac.authorization.k8s.io/v1",
    "metadata":{"resourceVersion":"10"},"items":null}
=later
{"kind":"PodList","apiVersion":"v1","metadata":{"resourceVersion":"11"},"items":[]}
=page
{"kind":"PodList","apiVersion":"v1","metadata":{"resourceVersion":"10","continue":"t"},"items":[]}
=front
{"kind":"PodList","apiVersion":"v1","metadata":{"resourceVersion":"10","remainingItemCount":3},"items":[]}
=secrets
{"kind":"SecretList","apiVersion":"v1","metadata":{"resourceVersion":"10"},"items":[]}
=beta
{"kind":"RoleList","apiVersion":"rbac.authorization.k8s.io/v1beta1",
    "metadata":{"resourceVersion":"10"},"items":[]}
=bare
{"kind":"PodList","apiVersion":"v1","metadata":{"resourceVersion":"10"},"items":[{"metadata":{"name":"p"}}]}
=no-uid
{"kind":"PodList","apiVersion":"v1","metadata":{"resourceVersion":"10"},"items":[
    {"metadata":{"name":"p","namespace":"d","resourceVersion":"8"}}]}
=same-uid
{"kind":"PodList","apiVersion":"v1","metadata":{"resourceVersion":"10"},"items":[
    {"metadata":{"name":"p","namespace":"d","uid":"A","resourceVersion":"8"}}]}
=alone
{"kind":"ConfigMap","apiVersion":"v1","metadata":{"name":"a"}}
=pod
{"kind":"Pod","apiVersion":"v1"}
=no-items
{"kind":"PodList"}
=document
{"kind":"APIResourceList","groupVersion":"v1","resources":[{"name":"pods","kind":"Pod"}]}
=no-revision
{"kind":"PodList","apiVersion":"v1","metadata":{},"items":[]}
=empty-revision
{"kind":"PodList","apiVersion":"v1","metadata":{"resourceVersion":""},"items":[]}
=zero-revision
{"kind":"PodList","apiVersion":"v1","metadata":{"resourceVersion":"0"},"items":[]}
=kubectl-list
{"kind":"List","apiVersion":"v1","metadata":{"resourceVersion":""},"items":[]}
=fraction
{"kind":"PodList","metadata":{"resourceVersion":"10"},"items":[1.5]}
=made-nodes
{"authorize":false,"kind":"PastSetup","policy":{"apiVersion":"audit.k8s.io/v1","kind":"Policy","rules":[]},"resources":[{"group":"","kind":"Node","listKind":"NodeList","namespaced":false,"objectPatch":"recorded","resource":"nodes","shapes":[{"class":"Defaulted","path":"/spec"},{"class":"Kept","path":"/status"}],"subresources":[],"version":"v1"}],"snapshot":[{"group":"","object":{"apiVersion":"v1","kind":"Node","metadata":{"name":"n","resourceVersion":"7","uid":"N"}},"resource":"nodes"}],"start":{"revision":"10","time":"2024-05-01T10:00:00Z"},"version":1}
=made-pods
{"authorize":false,"kind":"PastSetup","policy":{"apiVersion":"audit.k8s.io/v1","kind":"Policy","rules":[]},"resources":[{"group":"","kind":"Pod","listKind":"PodList","namespaced":true,"objectPatch":"recorded","resource":"pods","shapes":[{"class":"Defaulted","path":"/spec"},{"class":"Kept","path":"/status"}],"subresources":[{"effect":"same","name":"status","shapes":[{"class":"Asked","path":"/status"},{"class":"Asked","path":"/metadata/labels"},{"class":"Asked","path":"/metadata/annotations"}]},{"effect":"none","name":"log"}],"version":"v1"}],"snapshot":[{"group":"","object":{"apiVersion":"v1","kind":"Pod","metadata":{"name":"p","namespace":"d","resourceVersion":"8","uid":"P"}},"resource":"pods"}],"start":{"revision":"10","time":"2024-05-01T10:00:00Z"},"version":1}
=made-rbac
{"authorize":true,"kind":"PastSetup","lagNanos":1000000000,"policy":{"apiVersion":"audit.k8s.io/v1","kind":"Policy","rules":[]},"resources":[{"group":"rbac.authorization.k8s.io","kind":"Role","listKind":"RoleList","namespaced":true,"objectPatch":"recorded","resource":"roles","shapes":[],"subresources":[],"version":"v1"},{"group":"rbac.authorization.k8s.io","kind":"RoleBinding","listKind":"RoleBindingList","namespaced":true,"objectPatch":"recorded","resource":"rolebindings","shapes":[{"class":"Defaulted","path":"/subjects"},{"class":"Defaulted","path":"/roleRef"}],"subresources":[],"version":"v1"},{"group":"rbac.authorization.k8s.io","kind":"ClusterRole","listKind":"ClusterRoleList","namespaced":false,"objectPatch":"recorded","resource":"clusterroles","shapes":[],"subresources":[],"version":"v1"},{"group":"rbac.authorization.k8s.io","kind":"ClusterRoleBinding","listKind":"ClusterRoleBindingList","namespaced":false,"objectPatch":"recorded","resource":"clusterrolebindings","shapes":[{"class":"Defaulted","path":"/subjects"},{"class":"Defaulted","path":"/roleRef"}],"subresources":[],"version":"v1"}],"snapshot":[{"group":"rbac.authorization.k8s.io","object":{"apiVersion":"rbac.authorization.k8s.io/v1","kind":"Role","metadata":{"name":"r","namespace":"d","resourceVersion":"6","uid":"R"},"rules":null},"resource":"roles"}],"start":{"revision":"10","time":"2024-05-01T10:00:00Z"},"version":1}
=left-lines
2 M1
5 M12
kept 2 left 2
"#;

/// The files, each behind a `=`: its name, a newline and its text.
pub fn files() -> &'static str {
    FILES
}
