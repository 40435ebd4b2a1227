ghost use Rattle.cluster_setup.specs.OneSetupAnswer.{OneSetupAnswer};

/// The same bytes come to one setup, or none is made of them for one reason.
pub fn one_setup_answer_law()
    ensures { OneSetupAnswer }
{}
