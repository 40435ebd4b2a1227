ghost use Rattle.log_sift.specs.NothingLeft.{NothingLeft};
ghost use Rattle.log_sift.specs.OneSifting.{OneSifting};
ghost use Rattle.log_sift.specs.Taken.{KeptIsTaken};

/// A log is sifted in one way: each of its lines becomes one thing, whoever sifts it.
pub fn one_sifting_law()
    ensures { OneSifting }
{}

/// What stays of a log reads as the kept events, whatever their numbers, unless there are too many or it is too long.
pub fn taken_law()
    ensures { KeptIsTaken }
{}

/// Of a log that a judge takes nothing is left out: what stays is the log.
pub fn whole_law()
    ensures { NothingLeft }
{}
