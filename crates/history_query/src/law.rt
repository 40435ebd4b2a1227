ghost use Rattle.history_query.specs.OneText.{OneText};

/// A question has one answer, of a setup and the events of a log.
pub fn one_text_law()
    ensures { OneText }
{}
