ghost use Rattle.log_intake.specs.OneReading.{OneReading, OneSetup};

/// The bytes of a log have one reading: no cutting of them and no order of work changes what `read_log` answers.
pub fn one_reading_law()
    ensures { OneReading }
{}

/// The bytes of a setup have one reading, however they come.
pub fn one_setup_law()
    ensures { OneSetup }
{}
