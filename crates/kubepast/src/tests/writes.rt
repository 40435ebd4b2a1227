// Logs that turn on what was written.

/// Revisions, fields and preconditions of updates.
pub const UPDATES: &str = r#"row two writers of one revision
holds /configmaps cm|a|A|9|x
holds /configmaps cm|b|B|8|y
event a1 update configmaps/b 01 02 200 put|b|8|z cm|b|B|12|z
event a2 update configmaps/a 03 04 200 put|a|9|w cm|a|A|12|w
tells unexplained 2 a2 U3 12 18446744073709551615
tells made 12 1 /configmaps/d/b
status 1

row a field that the server owns
holds /configmaps cm|a|A|9|x
sets "resources":[{"group":"","version":"v1","resource":"configmaps","kind":"ConfigMap","listKind":"ConfigMapList","namespaced":true,"shapes":[{"path":"/data/o","class":"Owned"}]}]
event a1 update configmaps/a 01 02 200 put|a|9|y {"kind":"ConfigMap","apiVersion":"v1","metadata":{"name":"a","namespace":"d","uid":"A","resourceVersion":"13"},"data":{"k":"y","o":"q"}}
tells explained 1
tells 1 made 13 none
status 0

row an answer that wasn't asked for
holds /configmaps cm|a|A|9|x
sets "resources":[{"group":"","version":"v1","resource":"configmaps","kind":"ConfigMap","listKind":"ConfigMapList","namespaced":true,"shapes":[{"path":"/data/o","class":"Owned"}]}]
event a1 update configmaps/a 01 02 200 put|a|9|y cm|a|A|13|w
tells unexplained 1 a1 U8 10 18446744073709551615
tells made 13 1 /configmaps/d/a
status 1

row an update that changes nothing
holds /configmaps cm|a|A|9|x
event a1 update configmaps/a 01 02 200 new|a|y cm|a|A|14|y
event a2 update configmaps/a 01 03 200 new|a|y cm|a|A|14|y
tells explained 2
tells 1 made 14 none
tells 2 at 14 none
status 0

row two updates of one revision
holds /configmaps cm|a|A|9|x
event a1 update configmaps/a 01 02 200 put|a|9|y cm|a|A|14|y
event a2 update configmaps/a 01 03 200 put|a|9|y cm|a|A|14|y
tells unexplained 2 a2 U7 10 18446744073709551615
tells made 14 1 /configmaps/d/a
status 1"#;

/// Removals, which show no revision.
pub const REMOVALS: &str = r#"row a removal seen before its answer
event a1 create configmaps 01 02 201 new|a|x cm|a|A|14|x
event a2 delete configmaps/a 03 08 200 - ok|a|A
event a3 get configmaps/a 04 06 200 - cm|a|A|14|x
event a4 get configmaps/a 05 07 404 - no|a|NotFound|404
tells explained 4
tells 1 made 14 none
tells 2 removed 15 none
tells 3 at 14 none
tells 4 at 15 none
status 0

row one removal for all readers
event a1 create configmaps 01 02 201 new|a|x cm|a|A|14|x
event a2 delete configmaps/a 03 20 200 - ok|a|A
event a3 get configmaps/a 05 06 404 - no|a|NotFound|404
event a4 create configmaps 07 08 201 new|b|x cm|b|B|16|x
event a5 get configmaps/a 09 10 200 - cm|a|A|14|x
tells unexplained 5 a5 U10 16 18446744073709551615
tells removed 15 18446744073709551615 2 /configmaps/d/a
tells made 16 4 /configmaps/d/b
status 1

row a removal without a place
event a1 create configmaps 01 02 201 new|a|x cm|a|A|20|x
event a2 delete configmaps/a 03 04 200 - ok|a|A
event a3 create configmaps 05 06 201 new|a|x cm|a|E|21|x
tells unexplained 2 a2 U9 20 20
tells made 20 1 /configmaps/d/a
status 1

row finalizers
event a1 create configmaps 01 02 201 new|f|x|,"finalizers":["x/y"] cm|f|F|33|x|,"finalizers":["x/y"]
event a2 delete configmaps/f 03 04 200 - cm|f|F|34|x|,"finalizers":["x/y"],"deletionTimestamp":"2024-05-01T10:00:03Z","deletionGracePeriodSeconds":0
event a3 update configmaps/f 05 06 200 cm|f|F|34|x|,"deletionTimestamp":"2024-05-01T10:00:03Z","deletionGracePeriodSeconds":0 cm|f|F|34|x|,"deletionTimestamp":"2024-05-01T10:00:03Z","deletionGracePeriodSeconds":0
event a4 get configmaps/f 07 08 404 - no|f|NotFound|404
event a5 create configmaps 09 10 409 new|f|x no|f|AlreadyExists|409
tells explained 5
tells 1 made 33 none
tells 2 made 34 none
tells 3 removed 35 none
tells 4 at 35 none
tells 5 at 34 none
status 0

row the greatest revision
event a1 create configmaps 01 02 201 new|a|x cm|a|A|18446744073709551614|x
event a2 delete configmaps/a 03 04 200 - ok|a|A
tells explained 2
tells 1 made 18446744073709551614 none
tells 2 removed 18446744073709551615 none
status 0"#;

/// Conflicts, and writes that were not recorded.
pub const CONFLICTS: &str = r#"row a conflict with what was there
event a1 create configmaps 01 02 201 new|a|x cm|a|A|14|x
event a2 update configmaps/a 03 04 409 put|a|14|y no|a|Conflict|409
tells unexplained 2 a2 U12 14 18446744073709551615
tells made 14 1 /configmaps/d/a
status 1

row a conflict without conditions
event a1 create configmaps 01 02 201 new|a|x cm|a|A|14|x
event a2 update configmaps/a 03 04 409 new|a|y no|a|Conflict|409
tells explained 2
tells 1 made 14 none
tells 2 none none
status 0

row a binding that hides a write
tracks pods
holds /pods pod|9|new
event a1 create pods/p/binding 01 02 201 {"kind":"Binding","apiVersion":"v1","metadata":{"name":"p","namespace":"d"},"target":{"kind":"Node","name":"n"}} {"kind":"Status","apiVersion":"v1","status":"Success"}
event a2 get pods/p 03 04 200 - pod|12|odd
event a3 update pods/p/status 05 06 200 pod|12|run pod|15|run
event a4 get pods/p 07 08 200 - pod|15|run
tells explained 4
tells 1 none none
tells 2 at 11 none
tells 3 made 15 none
tells 4 at 15 none
status 0

row a write that nothing hides
tracks pods
holds /pods pod|9|new
event a1 create pods/p/binding 01 02 201 {"kind":"Binding","apiVersion":"v1","metadata":{"name":"p","namespace":"d"},"target":{"kind":"Node","name":"n"}} {"kind":"Status","apiVersion":"v1","status":"Success"}
event a2 get pods/p 03 04 200 - pod|12|odd
event a3 update pods/p/status 05 06 200 pod|12|run pod|15|run
event a4 get pods/p 07 08 200 - pod|15|run
event a5 get pods/p 09 10 200 - pod|13|odd
tells unexplained 5 a5 U10 15 18446744073709551615
tells made 15 3 /pods/d/p
status 1"#;

/// Patches by RFC 6902 and RFC 7386.
pub const PATCHES: &str = r#"row a JSON Patch that fails
holds /configmaps cm|a|A|9|x
event a1 patch configmaps/a 01 02 200 [{"op":"test","path":"/data/k","value":"z"},{"op":"replace","path":"/data/k","value":"y"}] cm|a|A|12|y
tells unexplained 1 a1 U8 10 18446744073709551615
tells made 12 1 /configmaps/d/a
status 1

row a JSON Patch
holds /configmaps cm|a|A|9|x
event a1 patch configmaps/a 01 02 200 [{"op":"test","path":"/data/k","value":"x"},{"op":"replace","path":"/data/k","value":"y"}] cm|a|A|12|y
tells explained 1
tells 1 made 12 none
status 0

row a merge patch
holds /configmaps cm|a|A|9|x
sets "resources":[{"group":"","version":"v1","resource":"configmaps","kind":"ConfigMap","listKind":"ConfigMapList","namespaced":true,"objectPatch":"merge"}]
event a1 patch configmaps/a 01 02 200 {"data":{"k":null,"j":"y"}} {"kind":"ConfigMap","apiVersion":"v1","metadata":{"name":"a","namespace":"d","uid":"A","resourceVersion":"12"},"data":{"j":"y"}}
tells explained 1
tells 1 made 12 none
status 0

row a merge patch that removed nothing
holds /configmaps cm|a|A|9|x
sets "resources":[{"group":"","version":"v1","resource":"configmaps","kind":"ConfigMap","listKind":"ConfigMapList","namespaced":true,"objectPatch":"merge"}]
event a1 patch configmaps/a 01 02 200 {"data":{"k":null,"j":"y"}} {"kind":"ConfigMap","apiVersion":"v1","metadata":{"name":"a","namespace":"d","uid":"A","resourceVersion":"12"},"data":{"j":"y","k":"x"}}
tells unexplained 1 a1 U8 10 18446744073709551615
tells made 12 1 /configmaps/d/a
status 1"#;

/// Fields that a server fills in.
pub const FILLED: &str = r#"row fields that the server fills in
tracks filled-pods
event a1 create pods 01 02 201 {"kind":"Pod","apiVersion":"v1","metadata":{"name":"q","namespace":"d"},"spec":{"containers":[{"name":"c","image":"i"}]}} {"kind":"Pod","apiVersion":"v1","metadata":{"name":"q","namespace":"d","uid":"Q","resourceVersion":"12","creationTimestamp":"2024-05-01T10:00:01Z"},"spec":{"containers":[{"name":"c","image":"i","imagePullPolicy":"Always"}],"restartPolicy":"Always"},"status":{"phase":"Pending"}}
tells explained 1
tells 1 made 12 none
status 0

row fields that nobody may fill in
tracks pods
event a1 create pods 01 02 201 {"kind":"Pod","apiVersion":"v1","metadata":{"name":"q","namespace":"d"},"spec":{"containers":[{"name":"c","image":"i"}]}} {"kind":"Pod","apiVersion":"v1","metadata":{"name":"q","namespace":"d","uid":"Q","resourceVersion":"12","creationTimestamp":"2024-05-01T10:00:01Z"},"spec":{"containers":[{"name":"c","image":"i","imagePullPolicy":"Always"}],"restartPolicy":"Always"},"status":{"phase":"Pending"}}
tells unexplained 1 a1 U8 10 18446744073709551615
tells made 12 1 /pods/d/q
status 1"#;

/// Cases that the program makes.
pub const MADE: &str = r#"row a made case without events
words make 1 0
tells case 1 0
tells made 0
tells removed 0
tells at 0
tells none 0
tells explained
status 0

row a made case with one event
words make 0 1
tells case 0 1
tells made 1
tells removed 0
tells at 0
tells none 0
tells explained
status 0"#;

/// Made cases of many events, and one of them twice.
pub const MADE_LARGE: &str = r#"row a made case of two thousand events
words make 1 2000
tells case 1 2000
tells made 1107
tells removed 207
tells at 686
tells none 0
tells explained
status 0

row the same case once more
words make 1 2000
tells case 1 2000
tells made 1107
tells removed 207
tells at 686
tells none 0
tells explained
status 0

row a made case of twenty thousand events
words make 1 20000
tells case 1 20000
tells made 10748
tells removed 2190
tells at 7062
tells none 0
tells explained
status 0"#;
