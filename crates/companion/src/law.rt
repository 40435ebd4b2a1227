ghost use Rattle.companion.specs.OneAnswer.{OneAnswer};

/// The same words and the same bytes have no two answers.
pub fn one_answer_law()
    ensures { OneAnswer }
{
    log_picture::one_page_law();
}
