ghost use Rattle.kubepast.specs.OneAnswer.{OneAnswer};
ghost use Rattle.kubepast.specs.PrintedHolds.{PrintedHolds};

/// The same words and the same bytes have no two answers.
pub fn one_answer_law()
    ensures { OneAnswer }
{
    serial_machine::one_answer_law();
    history_query::one_text_law();
}

/// What `judge` prints of an explained log holds as its placement.
pub fn printed_holds_law()
    ensures { PrintedHolds }
{
    context_laws::placement_law();
}
