// What is refused, and what the policy contradicts.

/// Words that are no command.
pub const WORDS: &str = r#"row no words
words
tells usage
status 2

row one name twice
words judge s s
tells usage
status 2

row the setup from the standard input
words judge - l
tells usage
status 2

row a word too many
words judge s l l
tells usage
status 2

row a made case of too many events
words make 1 100001
tells usage
status 2

row a number with a leading zero
words make 01 1
tells usage
status 2"#;

/// Setups that break a rule.
pub const SETUPS: &str = r#"row a setup that is no JSON text
sets "start"
tells setup S1
status 3

row a setup of another version
sets "version":3
tells setup S3
status 3

row a start that is no revision
sets "start":{"revision":"010","time":"2024-05-01T10:00:00Z"}
tells setup S4
status 3

row an end before the start
sets "until":"2024-05-01T09:59:59Z"
tells setup S5
status 3

row a policy with an unknown level
sets "policy":{"apiVersion":"audit.k8s.io/v1","kind":"Policy","rules":[{"level":"Loud"}]}
tells setup S7
status 3

row an object of the snapshot behind the start
holds /configmaps cm|a|A|11|x
tells setup S13
status 3

row an object of the snapshot twice
holds /configmaps cm|a|A|9|x
holds /configmaps cm|a|A|9|x
tells setup S13
status 3

row a fraction in an object of the snapshot
holds /configmaps {"kind":"ConfigMap","apiVersion":"v1","metadata":{"name":"a","namespace":"d","uid":"A","resourceVersion":"9"},"data":{"n":1.5}}
tells setup S1
status 3

row a checkpoint below the start
checks list|9+
tells setup S15
status 3"#;

/// Logs that break a rule, and lines that may be there twice.
pub const LOGS: &str = r#"row a line that is no JSON text
event a1 create configmaps 01 02 201 new|a|x cm|a|A|11|x
line x
tells malformed 2 M1
status 4

row a repeated line
event a1 create configmaps 01 02 201 new|a|x cm|a|A|11|x
event a2 get configmaps/a 03 04 200 - cm|a|A|11|x
event a2 get configmaps/a 03 04 200 - cm|a|A|11|x
tells explained 2
tells 1 made 11 none
tells 2 at 11 none
status 0

row an audit ID used twice
event a1 create configmaps 01 02 201 new|a|x cm|a|A|11|x
event a2 get configmaps/a 03 04 200 - cm|a|A|11|x
event a2 get configmaps/a 03 04 201 - cm|a|A|11|x
tells malformed 3 M12
status 4

row a fraction outside the objects
event a1 create configmaps 01 02 201 new|a|x cm|a|A|11|x
event a2 get configmaps/a 03 04 200 - cm|a|A|11|x "annotations":{"n":1.5}
tells malformed 2 M6
status 4

row an item without a verb
lists
item a1 create configmaps 01 02 201 new|a|x cm|a|A|11|x
item a2  configmaps/a 03 04 200 - cm|a|A|11|x
listed
tells malformed 2 M9
status 4

row a line behind a list of three events
lists
item a1 create configmaps 01 02 201 new|a|x cm|a|A|11|x
item a2 get configmaps/a 03 04 200 - cm|a|A|11|x
item a3 get configmaps/a 05 06 200 - cm|a|A|11|x
listed
line x
tells malformed 4 M1
status 4

row blank lines are counted
line
event a1 create configmaps 01 02 201 new|a|x cm|a|A|11|x
line
event a2 get configmaps/a 03 04 200 - cm|a|A|11|x
tells explained 2
tells 2 made 11 none
tells 4 at 11 none
status 0"#;

/// Events that the policy records otherwise, or not at all.
pub const POLICIES: &str = r#"row an event of a stage that the policy omits
sets "policy":{"apiVersion":"audit.k8s.io/v1","kind":"Policy","rules":[{"level":"RequestResponse"}],"omitStages":["RequestReceived"]}
event a1 get configmaps/a 01 01 - - - "stage":"RequestReceived"
tells unexplained 1 a1 U2 10 18446744073709551615
status 1

row an event below the level of the policy
event a1 get configmaps/a 01 02 404 - no|a|NotFound|404 "level":"Metadata"
tells unexplained 1 a1 U1 10 18446744073709551615
status 1

row an event that the policy doesn't record
sets "policy":{"apiVersion":"audit.k8s.io/v1","kind":"Policy","rules":[{"level":"None","users":["u"]},{"level":"RequestResponse"}]}
event a1 create configmaps 01 02 201 new|a|x cm|a|A|11|x
event a2 get configmaps/a 03 04 200 - cm|a|A|11|x
tells unexplained 1 a1 U1 10 18446744073709551615
tells made 11 1 /configmaps/d/a
status 1"#;
