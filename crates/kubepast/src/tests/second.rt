// What is asked beside the verdict: moments for each thing, and a second check of a placement.

/// Logs of which the order in time is that of the revisions, and one of which it isn't.
pub const STRICT: &str = r#"row two lists against their order in time
words judge --strict s l
event a1 create configmaps 01 02 201 new|a|x cm|a|A|11|x
event a2 create configmaps 01 09 201 new|b|x cm|b|B|12|x
event a3 list configmaps 03 04 200 - list|12+cm|a|A|11|x+cm|b|B|12|x
event a4 list configmaps 05 06 200 - list|11+cm|a|A|11|x
tells crossed 4 3
status 1

row the same lists at one time
words judge --strict s l
event a1 create configmaps 01 02 201 new|a|x cm|a|A|11|x
event a2 create configmaps 01 09 201 new|b|x cm|b|B|12|x
event a3 list configmaps 03 04 200 - list|12+cm|a|A|11|x+cm|b|B|12|x
event a4 list configmaps 03 06 200 - list|11+cm|a|A|11|x
tells explained 4
tells 1 made 11 none
tells 2 made 12 none
tells 3 at 12 none
tells 4 at 11 none
tells strict 4
tells 1 1714557601000000000
tells 2 1714557603000000000
tells 3 1714557603000000000
tells 4 1714557603000000000
status 0

row no events in strict order
words judge --strict s l
tells explained 0
tells strict 0
status 0"#;

/// Placements that hold, that are wrong, and that can't be read.
pub const PLACEMENTS: &str = r#"row a placement that holds
words verify s l p
event a1 create configmaps 01 02 201 new|a|x cm|a|A|14|x
event a2 delete configmaps/a 03 08 200 - ok|a|A
event a3 get configmaps/a 04 06 200 - cm|a|A|14|x
event a4 get configmaps/a 05 07 404 - no|a|NotFound|404
places explained 4
places 1 made 14 none
places 2 removed 15 none
places 3 at 14 none
places 4 at 15 none
tells holds
status 0

row a removal before its range
words verify s l p
event a1 create configmaps 01 02 201 new|a|x cm|a|A|14|x
event a2 delete configmaps/a 03 08 200 - ok|a|A
event a3 get configmaps/a 04 06 200 - cm|a|A|14|x
event a4 get configmaps/a 05 07 404 - no|a|NotFound|404
places explained 4
places 1 made 14 none
places 2 removed 14 none
places 3 at 14 none
places 4 at 15 none
tells wrong 2 V2
status 1

row an answer before the removal that it shows
words verify s l p
event a1 create configmaps 01 02 201 new|a|x cm|a|A|14|x
event a2 delete configmaps/a 03 08 200 - ok|a|A
event a3 get configmaps/a 04 06 200 - cm|a|A|14|x
event a4 get configmaps/a 05 07 404 - no|a|NotFound|404
places explained 4
places 1 made 14 none
places 2 removed 15 none
places 3 at 14 none
places 4 at 14 none
tells wrong 4 U11
status 1

row a placement without its last line
words verify s l p
event a1 create configmaps 01 02 201 new|a|x cm|a|A|14|x
places explained 2
places 1 made 14 none
tells placement 3
status 4"#;
