// What is asked of a history: objects and their versions, who wrote a value, and what a user could do.

/// An object that was created and removed.
pub const OBJECTS: &str = r#"row the versions of an object that was removed
words versions s l /configmaps/d/a
event a1 create configmaps 01 02 201 new|a|x cm|a|A|14|x
event a2 delete configmaps/a 03 08 200 - ok|a|A
tells 14 A 1
tells removed 15 18446744073709551615 2
status 0

row an object that may have been removed
words show s l /configmaps/d/a 15
event a1 create configmaps 01 02 201 new|a|x cm|a|A|14|x
event a2 delete configmaps/a 03 08 200 - ok|a|A
tells present 14 {"data":{"k":"x"},"metadata":{"name":"a","namespace":"d","resourceVersion":"14","uid":"A"}}
tells absent
status 0

row an object before it was created
words show s l /configmaps/d/a 13
event a1 create configmaps 01 02 201 new|a|x cm|a|A|14|x
tells absent
status 0

row objects that may be there
words state s l 16
event a1 create configmaps 01 02 201 new|a|x cm|a|A|14|x
event a2 create configmaps 01 02 201 new|b|x cm|b|B|15|x
event a3 delete configmaps/a 03 08 200 - ok|a|A
tells maybe /configmaps/d/a 14
tells present /configmaps/d/b 15
status 0

row whatever the verdict is
words state s l 12
event a1 get configmaps/a 01 02 200 - cm|a|A|9|x
holds /configmaps cm|c|C|8|x
tells present /configmaps/d/c 8
status 0

row a refused log
words versions s l /configmaps/d/a
line {
tells malformed 1 M1
status 4"#;

/// Values and those who wrote them.
pub const VALUES: &str = r#"row a value that an update left as it was
words blame s l /configmaps/d/a /metadata/name 20
event a1 create configmaps 01 02 201 new|a|x cm|a|A|14|x
event a2 update configmaps/a 03 04 200 put|a|14|y cm|a|A|15|y
tells value "a"
tells since 14 1 u
status 0

row a value that an update changed
words blame s l /configmaps/d/a /data/k 20
event a1 create configmaps 01 02 201 new|a|x cm|a|A|14|x
event a2 update configmaps/a 03 04 200 put|a|14|y cm|a|A|15|y
tells value "y"
tells since 15 2 u
status 0

row a value of the snapshot
words blame s l /configmaps/d/c /data/none 12
holds /configmaps cm|c|C|8|x
tells no value
tells since 8 snapshot -
status 0

row no object that could have a value
words blame s l /configmaps/d/a /data/k 13
event a1 create configmaps 01 02 201 new|a|x cm|a|A|14|x
tells absent
status 0

row a place before the log
words show s l /configmaps/d/c 9
holds /configmaps cm|c|C|8|x
tells unknown
status 0

row a resource that isn't tracked
words versions s l /secrets/d/c
tells unknown
status 0

row a write that may have changed an object
words show s l /configmaps/d/c 20
holds /configmaps cm|c|C|8|x
event a1 update configmaps/c 01 02 504 put|c|8|y -
tells clouded
status 0"#;

/// What a user could do.
pub const RIGHTS: &str = r#"row a request that a binding grants
words can s l 10 u - get /api/v1/namespaces/d/configmaps/a
rbac
tells allow
status 0

row a request by a group that is allowed everything
words can s l 10 v a,system:masters get /api/v1/namespaces/e/configmaps/a
rbac
tells allow
status 0

row a request that nothing grants
words can s l 10 v - get /api/v1/namespaces/d/configmaps/a
rbac
tells forbid
status 0

row a binding that may have been removed
words can s l 11 u - get /api/v1/namespaces/d/configmaps/a
rbac
event a1 delete /apis/rbac.authorization.k8s.io/v1/namespaces/d/rolebindings/b 01 02 200 - {"kind":"Status","apiVersion":"v1","status":"Success","details":{"name":"b","kind":"rolebindings","uid":"RB"}} admin allow
event a2 create configmaps 03 04 201 new|z|x cm|z|Z|13|x admin allow
tells either
status 0

row decisions that aren't judged
words can s l 10 u - get /api/v1/namespaces/d/configmaps/a
tells unjudged
status 0

row a place from 1
words show s l /configmaps/d/a 0
tells usage
status 2

row a URI from its slash
words can s l 10 u - get api
tells usage
status 2"#;
