//! Small histories with the outcomes that the definitions give them.

ghost use Rattle.history_model.specs.Examples.{create_and_get, create_and_get_outcome, seen_before_made};
ghost use Rattle.history_model.specs.Examples.{seen_before_made_outcome, seen_within_slack};
ghost use Rattle.history_model.specs.Examples.{seen_within_slack_outcome, unchanged_update};
ghost use Rattle.history_model.specs.Examples.{unchanged_update_outcome, second_update, second_update_outcome};
ghost use Rattle.history_model.specs.Examples.{removal_seen_early, removal_seen_early_outcome, one_removal};
ghost use Rattle.history_model.specs.Examples.{one_removal_outcome, removal_without_place};
ghost use Rattle.history_model.specs.Examples.{removal_without_place_outcome, conflict, conflict_outcome};
ghost use Rattle.history_model.specs.Examples.{conflict_unasked, conflict_unasked_outcome, hidden_write};
ghost use Rattle.history_model.specs.Examples.{hidden_write_outcome, hidden_no_more, hidden_no_more_outcome};
ghost use Rattle.history_model.specs.Examples.{out_of_turn, out_of_turn_outcome};
ghost use Rattle.history_model.specs.Outcomes.{IsOutcome};
ghost use Rattle.history_model.specs.Readable.{IsReadable};

/// Explained logs: each history has the order, spans, versions and removals of its log, and its outcome.
pub fn explained_examples()
    ensures create_and_get { IsReadable create_and_get × IsOutcome create_and_get create_and_get_outcome }
    ensures seen_within_slack { IsReadable seen_within_slack × IsOutcome seen_within_slack seen_within_slack_outcome }
    ensures unchanged_update { IsReadable unchanged_update × IsOutcome unchanged_update unchanged_update_outcome }
    ensures removal_seen_early { IsReadable removal_seen_early
        × IsOutcome removal_seen_early removal_seen_early_outcome }
    ensures conflict_unasked { IsReadable conflict_unasked × IsOutcome conflict_unasked conflict_unasked_outcome }
    ensures hidden_write { IsReadable hidden_write × IsOutcome hidden_write hidden_write_outcome }
{}

/// Unexplained ones, with the event, its code, its window and the writes there.
pub fn unexplained_examples()
    ensures seen_before_made { IsReadable seen_before_made × IsOutcome seen_before_made seen_before_made_outcome }
    ensures second_update { IsReadable second_update × IsOutcome second_update second_update_outcome }
    ensures conflict { IsReadable conflict × IsOutcome conflict conflict_outcome }
    ensures hidden_no_more { IsReadable hidden_no_more × IsOutcome hidden_no_more hidden_no_more_outcome }
    ensures out_of_turn { IsReadable out_of_turn × IsOutcome out_of_turn out_of_turn_outcome }
{}

/// Unexplained ones about removals: two readers saw one removal at different places, and a removal has no place.
pub fn removal_examples()
    ensures one_removal { IsReadable one_removal × IsOutcome one_removal one_removal_outcome }
    ensures removal_without_place { IsReadable removal_without_place
        × IsOutcome removal_without_place removal_without_place_outcome }
{}
