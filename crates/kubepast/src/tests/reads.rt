// Logs that turn on what was read, and on decisions.

/// Gets, in and out of time.
pub const GETS: &str = r#"row an empty log
tells explained 0
status 0

row a create and a get
event a1 create configmaps 01 02 201 new|a|x cm|a|A|11|x
event a2 get configmaps/a 03 04 200 - cm|a|A|11|x
tells explained 2
tells 1 made 11 none
tells 2 at 11 none
status 0

row lines in another order
event a1 get configmaps/a 03 04 200 - cm|a|A|11|x
event a2 create configmaps 01 02 201 new|a|x cm|a|A|11|x
tells explained 2
tells 1 at 11 none
tells 2 made 11 none
status 0

row an object seen before it was made
event a1 get configmaps/a 01 02 200 - cm|a|A|11|x
event a2 create configmaps 03 04 201 new|a|x cm|a|A|11|x
tells unexplained 1 a1 U10 10 10
status 1

row an object seen before it was made, by clocks that differ
sets "slackNanos":1000000000
event a1 get configmaps/a 01 02 200 - cm|a|A|11|x
event a2 create configmaps 03 04 201 new|a|x cm|a|A|11|x
tells explained 2
tells 1 at 11 none
tells 2 made 11 none
status 0

row a read from a cache
holds /configmaps cm|a|A|9|x
event a1 update configmaps/a 01 02 200 new|a|y cm|a|A|12|y
event a2 get configmaps/a?resourceVersion=0 50 51 200 - cm|a|A|9|x
tells explained 2
tells 1 made 12 none
tells 2 at 10 none
status 0

row a read that is too old
holds /configmaps cm|a|A|9|x
event a1 update configmaps/a 01 02 200 new|a|y cm|a|A|12|y
event a2 get configmaps/a 50 51 200 - cm|a|A|9|x
tells unexplained 2 a2 U10 12 18446744073709551615
tells made 12 1 /configmaps/d/a
status 1"#;

/// Lists, at their revisions.
pub const LISTS: &str = r#"row a list bounds a removal
event a1 create configmaps 01 02 201 new|a|x cm|a|A|14|x
event a2 delete configmaps/a 03 20 200 - ok|a|A
event a3 list configmaps 04 05 200 - list|16+
tells explained 3
tells 1 made 14 none
tells 2 removed 15 none
tells 3 at 16 none
status 0

row two lists about one removal
event a1 create configmaps 01 02 201 new|a|x cm|a|A|14|x
event a2 delete configmaps/a 03 20 200 - ok|a|A
event a3 list configmaps 04 05 200 - list|16+
event a4 list configmaps 06 07 200 - list|17+cm|a|A|14|x
tells unexplained 4 a4 U13 14 18446744073709551615
tells made 14 1 /configmaps/d/a
tells removed 15 18446744073709551615 2 /configmaps/d/a
status 1

row a list at an exact revision
event a1 create configmaps 01 02 201 new|a|x cm|a|A|11|x
event a2 create configmaps 03 04 201 new|b|x cm|b|B|12|x
event a3 list configmaps?resourceVersion=11&resourceVersionMatch=Exact 05 06 200 - list|11+cm|a|A|11|x
tells explained 3
tells 1 made 11 none
tells 2 made 12 none
tells 3 at 11 none
status 0

row a list that lacks an object
event a1 create configmaps 01 02 201 new|a|x cm|a|A|11|x
event a2 create configmaps 03 04 201 new|b|x cm|b|B|12|x
event a3 list configmaps 05 06 200 - list|11+cm|a|A|11|x
tells unexplained 3 a3 U13 12 18446744073709551615
tells made 12 2 /configmaps/d/b
status 1

row a list below the start
event a1 create configmaps 01 02 201 new|a|x cm|a|A|11|x
event a2 create configmaps 03 04 201 new|b|x cm|b|B|12|x
event a3 list configmaps?resourceVersion=9&resourceVersionMatch=Exact 05 06 200 - list|9+
tells explained 3
tells 1 made 11 none
tells 2 made 12 none
tells 3 none none
status 0

row a list at a revision that came later
event a1 create configmaps 01 02 201 new|a|x cm|a|A|11|x
event a2 create configmaps 03 04 201 new|b|x cm|b|B|12|x
event a3 list configmaps?resourceVersion=15&resourceVersionMatch=Exact 05 06 200 - list|15+
event a4 create configmaps 07 08 201 new|c|x cm|c|D|14|x
tells unexplained 3 a3 U13 1 0
status 1

row two lists of which the later one is older
event a1 create configmaps 01 02 201 new|a|x cm|a|A|11|x
event a2 create configmaps 01 09 201 new|b|x cm|b|B|12|x
event a3 list configmaps 03 04 200 - list|12+cm|a|A|11|x+cm|b|B|12|x
event a4 list configmaps 05 06 200 - list|11+cm|a|A|11|x
tells explained 4
tells 1 made 11 none
tells 2 made 12 none
tells 3 at 12 none
tells 4 at 11 none
status 0"#;

/// Lists by labels, and in pages.
pub const SELECTIONS: &str = r#"row a list with a label
holds /configmaps cm|a|A|9|x|,"labels":{"app":"w"}
holds /configmaps cm|b|B|8|y
event a1 list configmaps?labelSelector=app%3Dw 01 02 200 - list|10+cm|a|A|9|x|,"labels":{"app":"w"}
tells explained 1
tells 1 at 10 none
status 0

row a list without a label
holds /configmaps cm|a|A|9|x|,"labels":{"app":"w"}
holds /configmaps cm|b|B|8|y
event a1 list configmaps?labelSelector=app%21%3Dw 01 02 200 - list|10+cm|b|B|8|y
tells explained 1
tells 1 at 10 none
status 0

row a list with a label that lacks an object
holds /configmaps cm|a|A|9|x|,"labels":{"app":"w"}
holds /configmaps cm|b|B|8|y
event a1 list configmaps?labelSelector=app 01 02 200 - list|10+
tells unexplained 1 a1 U13 10 18446744073709551615
status 1

row a list in two pages
holds /configmaps cm|a|A|9|x
holds /configmaps cm|b|B|8|y
event a1 list configmaps?limit=1 01 02 200 - list|10|,"continue":"t1"+cm|a|A|9|x
event a2 list configmaps?limit=1&continue=t1 03 04 200 - list|10+cm|b|B|8|y
tells explained 3
tells 1 at 10 none
tells 2 at 10 none
tells 1099511627777 at 10 none
status 0

row two pages that lack an object
holds /configmaps cm|a|A|9|x
holds /configmaps cm|b|B|8|y
event a1 list configmaps?limit=1 01 02 200 - list|10|,"continue":"t1"+cm|a|A|9|x
event a2 list configmaps?limit=1&continue=t1 03 04 200 - list|10+
tells unexplained 1099511627777 pages:1 U13 10 10
status 1

row a first page alone
holds /configmaps cm|a|A|9|x
holds /configmaps cm|b|B|8|y
event a1 list configmaps?limit=1 01 02 200 - list|10|,"continue":"t1"+cm|a|A|9|x
tells explained 1
tells 1 at 10 none
status 0"#;

/// Lists known from elsewhere.
pub const CHECKPOINTS: &str = r#"row a checkpoint behind a removal
checks list|16+
event a1 create configmaps 01 02 201 new|a|x cm|a|A|14|x
event a2 delete configmaps/a 03 08 200 - ok|a|A
event a3 get configmaps/a 04 06 200 - cm|a|A|14|x
event a4 get configmaps/a 05 07 404 - no|a|NotFound|404
tells explained 5
tells 1 made 14 none
tells 2 removed 15 none
tells 3 at 14 none
tells 4 at 15 none
tells 1099511627777 at 16 none
status 0

row a checkpoint before a removal
checks list|20+cm|a|A|14|x
event a1 create configmaps 01 02 201 new|a|x cm|a|A|14|x
event a2 delete configmaps/a 03 08 200 - ok|a|A
event a3 get configmaps/a 04 06 200 - cm|a|A|14|x
event a4 get configmaps/a 05 07 404 - no|a|NotFound|404
tells explained 5
tells 1 made 14 none
tells 2 removed 21 none
tells 3 at 14 none
tells 4 at 21 none
tells 1099511627777 at 20 none
status 0

row two checkpoints about one removal
checks list|16+
checks list|20+cm|a|A|14|x
event a1 create configmaps 01 02 201 new|a|x cm|a|A|14|x
event a2 delete configmaps/a 03 08 200 - ok|a|A
event a3 get configmaps/a 04 06 200 - cm|a|A|14|x
event a4 get configmaps/a 05 07 404 - no|a|NotFound|404
tells unexplained 1099511627778 checkpoint:2 U13 20 20
tells removed 15 18446744073709551615 2 /configmaps/d/a
status 1"#;

/// Events in lists of events, and an object that is not read.
pub const ITEMS: &str = r#"row events in a list
lists
item a1 create configmaps 01 02 201 new|a|x cm|a|A|11|x
item a2 get configmaps/a 03 04 200 - cm|a|A|11|x
listed
tells explained 2
tells 1 made 11 none
tells 2 at 11 none
status 0

row a list of no events
lists
listed
tells explained 0
status 0

row a fraction in an object
event a1 create configmaps 01 02 201 new|a|x cm|a|A|11|x
event a2 get configmaps/a 03 04 200 - {"kind":"ConfigMap","apiVersion":"v1","metadata":{"name":"a","namespace":"d","uid":"A","resourceVersion":"11"},"data":{"k":"x","n":1.5}}
tells explained 2
tells 1 made 11 none
tells 2 none none
status 0"#;

/// Decisions of the authorizer, over one role and one binding of it.
pub const DECISIONS: &str = r#"row a decision while a cache may be behind
rbac
event a1 delete /apis/rbac.authorization.k8s.io/v1/namespaces/d/rolebindings/b 01 02 200 - {"kind":"Status","apiVersion":"v1","status":"Success","details":{"name":"b","kind":"rolebindings","uid":"RB"}} admin allow
event a2 create configmaps 03 04 201 new|z|x cm|z|Z|13|x admin allow
event a3 get configmaps/a 09 10 200 - cm|a|A|9|x allow
tells explained 3
tells 1 removed 11 none
tells 2 made 13 none
tells 3 at 13 allow 10 10 10 10
status 0

row a decision when no cache may be so far behind
rbac
event a1 delete /apis/rbac.authorization.k8s.io/v1/namespaces/d/rolebindings/b 01 02 200 - {"kind":"Status","apiVersion":"v1","status":"Success","details":{"name":"b","kind":"rolebindings","uid":"RB"}} admin allow
event a2 create configmaps 03 04 201 new|z|x cm|z|Z|13|x admin allow
event a3 get configmaps/a 09.000000001 10 200 - cm|a|A|9|x allow
tells unexplained 3 a3 U14 13 18446744073709551615
tells made 13 2 /configmaps/d/z
status 1

row a request forbidden
rbac
event a1 get /api/v1/namespaces/e/configmaps/a 09 10 403 - no|a|Forbidden|403 forbid
tells explained 1
tells 1 none forbid 10 10 10 10
status 0

row a request allowed that no role grants
rbac
event a1 get /api/v1/namespaces/e/configmaps/a 09 10 403 - no|a|Forbidden|403 allow
tells unexplained 1 a1 U14 10 18446744073709551615
status 1

row caches at different places
rbac
event a1 delete /apis/rbac.authorization.k8s.io/v1/namespaces/d/roles/r 01 02 200 - {"kind":"Status","apiVersion":"v1","status":"Success","details":{"name":"r","kind":"roles","uid":"RR"}} admin allow
event a2 create configmaps 03 04 201 new|z|x cm|z|Z|13|x admin allow
event a3 create /apis/rbac.authorization.k8s.io/v1/namespaces/d/rolebindings 05 06 201 binding|b2||v binding|b2|,"uid":"B2","resourceVersion":"15"|v admin allow
event a4 get configmaps/a 07 08 200 - cm|a|A|9|x "user":{"username":"v"} allow
tells explained 4
tells 1 removed 11 none
tells 2 made 13 none
tells 3 made 15 allow 10 10 10 10
tells 4 at 15 allow 10 10 15 10
status 0"#;

/// Everything at once: a table, reads, unchanged updates, a write without an answer, a kubelet, finalizers.
pub const LONG: &str = r#"row a long log
rbac
tracks pods
holds /pods pod|7|new
event a1 list configmaps?limit=500 10 11 200 - {"kind":"Table","apiVersion":"meta.k8s.io/v1","metadata":{"resourceVersion":"10"},"columnDefinitions":[],"rows":[]} admin allow
event a2 get configmaps/a 12 13 200 - cm|a|A|9|x allow
event a3 update configmaps/a 14 15 200 put|a|9|x cm|a|A|9|x admin allow
event a4 patch pods/p 16 20 504 {"status":{"phase":"run"}} - admin allow
event a5 patch pods/p/status 21 22 200 {"status":{"phase":"run"}} pod|31|run kubelet
event a6 create configmaps 23 24 201 new|f|x|,"finalizers":["x/y"] cm|f|F|33|x|,"finalizers":["x/y"] admin allow
event a7 delete configmaps/f 25 26 200 - cm|f|F|34|x|,"finalizers":["x/y"],"deletionTimestamp":"2024-05-01T10:00:25Z","deletionGracePeriodSeconds":0 admin allow
event a8 update configmaps/f 27 28 200 cm|f|F|34|x|,"deletionTimestamp":"2024-05-01T10:00:25Z","deletionGracePeriodSeconds":0 cm|f|F|34|x|,"deletionTimestamp":"2024-05-01T10:00:25Z","deletionGracePeriodSeconds":0 admin allow
event a9 get configmaps/f 29 30 404 - no|f|NotFound|404 admin allow
event a10 list pods?limit=500 31 32 200 - {"kind":"PodList","apiVersion":"v1","metadata":{"resourceVersion":"40"},"items":[{"metadata":{"name":"p","namespace":"d","uid":"P","resourceVersion":"31"},"status":{"phase":"run"}}]} admin allow
tells explained 10
tells 1 none allow 10 10 10 10
tells 2 at 10 allow 10 10 10 10
tells 3 at 10 allow 10 10 10 10
tells 4 none allow 10 10 10 10
tells 5 made 31 none
tells 6 made 33 allow 10 10 10 10
tells 7 made 34 allow 10 10 10 10
tells 8 removed 35 allow 10 10 10 10
tells 9 at 35 allow 31 31 31 31
tells 10 at 40 allow 33 33 33 33
status 0"#;
