//! The laws of the subject. Each function does nothing: its `ensures` clause is the law, and the contracts above cite it.

ghost use Rattle.path_model.specs.OnePath.{EachPathAdmitsItsWords};
ghost use Rattle.path_model.specs.AmongOthers.{EachPathGuards};
ghost use Rattle.path_model.specs.BurstCounts.{EachLabellingCounts, CountersTellOpenBraces};
ghost use Rattle.path_model.specs.AllPaths.{AllPathsJudge, ProjectionsKeepProgress, EachEventMoves, FirstIsOne};
ghost use Rattle.path_model.specs.AllPaths.{StartsOnlyBlock, EachBlockStays, FinishesUnblock};
ghost use Rattle.path_model.specs.Trimmed.{EachPathTrims, TrimmingKeepsAnswers, TrimmedAdmitsTheWords};
ghost use Rattle.path_model.specs.Flat.{OneTableShowsAll};
ghost use Rattle.path_model.specs.Downward.{SubstitutionReadsUpwards};
ghost use Rattle.path_model.specs.KeptTerms.{TrimmedTermsTouchTheKept, FinishesFindTheirCounters};
ghost use Rattle.path_model.specs.Agreement.{TheMachinesAgree};
ghost use Rattle.path_model.specs.BoundedValues.{EachValueIsBounded, ValuesAmongAreBounded, TableValuesAreBounded};
ghost use Rattle.path_model.specs.Honest.{FrontsAreHonest, TheMachineOwesTheSame, HonestByMachineIsHonest};
ghost use Rattle.path_model.specs.Honest.{EachHonestJournalIsLegal, EachHonestJournalHasRoom, EachLiveActivationIsFound};
ghost use Rattle.path_model.specs.Honest.{LiveActivationsAreInProgress, EachAttemptIsOwedAReply};
ghost use Rattle.path_model.specs.Owed.{OneReplyIsOwed};
ghost use Rattle.path_model.specs.Asked.{UnaskedDevicesMayBeReplaced};
ghost use Rattle.path_model.specs.Segments.{OneSegmentIsAJournal, MoreRoomKeepsHonest, SegmentsAreOneJournal, EachSegmentHasRoom};
ghost use Rattle.path_model.specs.Segments.{EachAttemptIsOwedAReplyBehind, OneReplyIsOwedBehind};
ghost use Rattle.path_model.specs.Stuck.{FrozenStaysFrozen, StuckStaysStuck, StartablesMayStart};
ghost use Rattle.path_model.specs.Stuck.{LiveActivationsMayFinish, FinishesComeBetween};
ghost use Rattle.path_model.specs.TreeTests.{WellFormedTreesPass};
ghost use Rattle.path_model.specs.Guarantees.{EachFrontIsLegal, EachFrontIsLegalOnAll, CountsAddUp};
ghost use Rattle.path_model.specs.Guarantees.{EachPathKeepsItsCounts, EachValueIsACount, EnteredPartsAreInProgress, EachEndWasBegun};
ghost use Rattle.path_model.specs.Guarantees.{EachPartOutsideBracesIsAlone, TreesOfOperationsAreInProgress, BoundsHold};
ghost use Rattle.path_model.specs.Guarantees.{SequencesKeepTheirOrder, SequencesGoRoundByRound};
ghost use Rattle.path_model.specs.Refusals.{EachRefusalHasAReason, StartsAreLegalUnlessOpposed, FinishesAreLegalInProgress};
ghost use Rattle.path_model.specs.JournalGuarantees.{EachJournalFollowsItsPaths, SegmentsFollowTheirPaths};
ghost use Rattle.path_model.specs.JournalGuarantees.{LiveIsInProgress, LiveCountsAddUp, LiveActivationsAreCounted};
ghost use Rattle.path_model.specs.JournalGuarantees.{LiveBoundsHold, OneIsLiveOutsideBraces, LivePartsOutsideBracesAreAlone};
ghost use Rattle.path_model.specs.JournalGuarantees.{EachBlockHasAReason, EachBlockHasAReasonBehind};
ghost use Rattle.path_model.specs.JournalGuarantees.{UnopposedStartsAreAdmitted, UnopposedStartsAreAdmittedBehind, OwnActivationsFinish};
ghost use Rattle.path_model.specs.JournalGuarantees.{RoomyStartsAreJudged, RoomyStartsAreJudgedBehind};
ghost use Rattle.path_model.specs.JournalGuarantees.{EachReplyTellsWhatIsLive, EachReplyTellsWhatIsLiveBehind};

/// After every history of a path's behaviour the semaphores let an operation begin or end exactly when the behaviour does.
pub fn each_path_admits_its_words()
    ensures { EachPathAdmitsItsWords }
{}

/// While braces are open, the values count the labels of each labelling.
pub fn each_labelling_counts()
    ensures { EachLabellingCounts }
{}

/// The counter of braces is above 0 exactly while they are open.
pub fn counters_tell_open_braces()
    ensures { CountersTellOpenBraces }
{}

/// What holds of a path alone holds of it among others.
pub fn each_path_guards()
    ensures { EachPathGuards }
{}

/// The semaphores of all paths judge starts and finishes as the words of all paths do.
pub fn all_paths_judge()
    ensures { AllPathsJudge }
{}

/// A path sees an operation that it names as in progress exactly when the whole history has it in progress.
pub fn projections_keep_progress()
    ensures { ProjectionsKeepProgress }
{}

/// The values of all paths move event by event.
pub fn each_event_moves()
    ensures { EachEventMoves }
{}

/// There is one first blocking path, or none.
pub fn first_is_one()
    ensures { FirstIsOne }
{}

/// What is blocked stays blocked through admitted starts; the first path that blocks it may become an earlier one.
pub fn starts_only_block()
    ensures { StartsOnlyBlock }
{}

/// Each path that forbade a start still forbids it after another start.
pub fn each_block_stays()
    ensures { EachBlockStays }
{}

/// Between a blocked start of an operation and the next admitted one something finishes.
pub fn finishes_unblock()
    ensures { FinishesUnblock }
{}

/// Trimming a path keeps the other values as they are, and removes only checks that always pass.
pub fn each_path_trims()
    ensures { EachPathTrims }
{}

/// The trimmed paths block as all paths do, and name the same path.
pub fn trimming_keeps_answers()
    ensures { TrimmingKeepsAnswers }
{}

/// The trimmed semaphores admit exactly what the words of all paths allow.
pub fn trimmed_admits_the_words()
    ensures { TrimmedAdmitsTheWords }
{}

/// The substitution from the root of a tree downwards puts around each name what is read upwards from it.
pub fn substitution_reads_upwards()
    ensures { SubstitutionReadsUpwards }
{}

/// One table, with numbers that count through the paths, has the values of each path.
pub fn one_table_shows_all()
    ensures { OneTableShowsAll }
{}

/// A path has the same values alone, among others, and in the one table.
pub fn the_machines_agree()
    ensures { TheMachinesAgree }
{}

/// No semaphore exceeds the number of starts by more than 1, no counter exceeds that number, and no bound's semaphore exceeds the bound.
pub fn each_value_is_bounded()
    ensures { EachValueIsBounded }
{}

/// The same holds of the values of a path among others.
pub fn values_among_are_bounded()
    ensures { ValuesAmongAreBounded }
{}

/// The same holds of the values of all paths in one table.
pub fn table_values_are_bounded()
    ensures { TableValuesAreBounded }
{}

/// No trimmed term touches what was removed.
pub fn trimmed_terms_touch_the_kept()
    ensures { TrimmedTermsTouchTheKept }
{}

/// A finish that keeps the history legal finds each counter that it lowers above 0.
pub fn finishes_find_their_counters()
    ensures { FinishesFindTheirCounters }
{}

/// A front of an honest journal is an honest journal.
pub fn fronts_are_honest()
    ensures { FrontsAreHonest }
{}

/// After an honest journal words and semaphores owe the same replies.
pub fn the_machine_owes_the_same()
    ensures { TheMachineOwesTheSame }
{}

/// The journals that are honest by the semaphores are the honest ones.
pub fn honest_by_machine_is_honest()
    ensures { HonestByMachineIsHonest }
{}

/// The admitted history of an honest journal is legal on every path.
pub fn each_honest_journal_is_legal()
    ensures { EachHonestJournalIsLegal }
{}

/// An honest journal has room for its lines, and for the finish of each live activation.
pub fn each_honest_journal_has_room()
    ensures { EachHonestJournalHasRoom }
{}

/// After an honest journal each live activation is found by its number.
pub fn each_live_activation_is_found()
    ensures { EachLiveActivationIsFound }
{}

/// After an honest journal each operation has as many live activations as it has begun and not ended.
pub fn live_activations_are_in_progress()
    ensures { LiveActivationsAreInProgress }
{}

/// After an honest journal some reply is owed to each attempt.
pub fn each_attempt_is_owed_a_reply()
    ensures { EachAttemptIsOwedAReply }
{}

/// At most one reply is owed to an attempt, except that a device may fail although its law would serve.
pub fn one_reply_is_owed()
    ensures { OneReplyIsOwed }
{}

/// While no line asked the device of a resource, the resource may have other opening contents.
pub fn unasked_devices_may_be_replaced()
    ensures { UnaskedDevicesMayBeReplaced }
{}

/// After a journal with nothing live and nothing to start, nothing is ever admitted again.
pub fn frozen_stays_frozen()
    ensures { FrozenStaysFrozen }
{}

/// After a journal with nothing of a resource live and nothing of it to start, nothing of that resource is ever admitted again.
pub fn stuck_stays_stuck()
    ensures { StuckStaysStuck }
{}

/// An operation that can be started is owed its start if there is room.
pub fn startables_may_start()
    ensures { StartablesMayStart }
{}

/// A live activation is owed its finish by its own worker.
pub fn live_activations_may_finish()
    ensures { LiveActivationsMayFinish }
{}

/// Between a blocked start of an operation and a later admitted one there is an admitted finish.
pub fn finishes_come_between()
    ensures { FinishesComeBetween }
{}

/// A journal of one segment is a journal.
pub fn one_segment_is_a_journal()
    ensures { OneSegmentIsAJournal }
{}

/// An honest journal is honest in more room.
pub fn more_room_keeps_honest()
    ensures { MoreRoomKeepsHonest }
{}

/// Honest segments are one honest journal together, so each law of honest journals holds of them.
pub fn segments_are_one_journal()
    ensures { SegmentsAreOneJournal }
{}

/// The last of honest segments has room for its lines, and for the finish of each live activation.
pub fn each_segment_has_room()
    ensures { EachSegmentHasRoom }
{}

/// Behind honest segments some reply is owed to each attempt.
pub fn each_attempt_is_owed_a_reply_behind()
    ensures { EachAttemptIsOwedAReplyBehind }
{}

/// Behind earlier lines, too, at most one reply is owed to an attempt, except that a device may fail.
pub fn one_reply_is_owed_behind()
    ensures { OneReplyIsOwedBehind }
{}

/// Whether a tree is well formed can be found by computing.
pub fn well_formed_trees_pass()
    ensures { WellFormedTreesPass }
{}

/// A front of a history that is legal on a path is legal on it.
pub fn each_front_is_legal()
    ensures { EachFrontIsLegal }
{}

/// A front of a history that is legal on all paths is legal on all of them.
pub fn each_front_is_legal_on_all()
    ensures { EachFrontIsLegalOnAll }
{}

/// How often an operation begins and ends adds up over the parts of a history.
pub fn counts_add_up()
    ensures { CountsAddUp }
{}

/// After a legal history each part of a path has kept its own order, bounds and turns, and the whole path is underway at most once.
pub fn each_path_keeps_its_counts()
    ensures { EachPathKeepsItsCounts }
{}

/// After a legal history each semaphore, counter and bound is a difference of how often parts of the path were entered and left.
pub fn each_value_is_a_count()
    ensures { EachValueIsACount }
{}

/// A part of a path was entered and not left exactly where an operation of it is in progress or one has still to follow another.
pub fn entered_parts_are_underway()
    ensures { EnteredPartsAreInProgress }
{}

/// No operation ends more often than it begins.
pub fn each_end_was_begun()
    ensures { EachEndWasBegun }
{}

/// What stands outside braces, as an operation or a pair of braces, excludes all else of its path while it is underway.
pub fn each_part_outside_braces_is_alone()
    ensures { EachPartOutsideBracesIsAlone }
{}

/// A part of a path is underway while an operation of it is in progress.
pub fn progress_is_underway()
    ensures { TreesOfOperationsAreInProgress }
{}

/// Of `{ S : n }` at most n operations are in progress.
pub fn bounds_hold()
    ensures { BoundsHold }
{}

/// In `S ; T` T is entered at most as often as S was left.
pub fn sequences_keep_their_order()
    ensures { SequencesKeepTheirOrder }
{}

/// In `S ; T` outside braces S is left at most once before T is entered, and entered at most once before T is left.
pub fn sequences_go_round_by_round()
    ensures { SequencesGoRoundByRound }
{}

/// A path forbids a start exactly where full braces, a missing predecessor, or what is underway stands against it.
pub fn each_refusal_has_a_reason()
    ensures { EachRefusalHasAReason }
{}

/// A start that nothing stands against is legal.
pub fn starts_are_legal_unless_opposed()
    ensures { StartsAreLegalUnlessOpposed }
{}

/// A finish is legal exactly where its operation is in progress.
pub fn finishes_are_legal_in_progress()
    ensures { FinishesAreLegalInProgress }
{}

/// An honest journal follows each path of its declaration: its admitted history is legal there, and what has begun and not ended is live.
pub fn each_journal_follows_its_paths()
    ensures { EachJournalFollowsItsPaths }
{}

/// Honest segments together follow each path of their declaration.
pub fn segments_follow_their_paths()
    ensures { SegmentsFollowTheirPaths }
{}

/// An operation is in progress exactly while an activation of it is live.
pub fn live_is_in_progress()
    ensures { LiveIsInProgress }
{}

/// The operations of a tree have begun as often as they have ended and are live.
pub fn live_counts_add_up()
    ensures { LiveCountsAddUp }
{}

/// Of `{ S : n }` at most n activations are live.
pub fn live_bounds_hold()
    ensures { LiveBoundsHold }
{}

/// Of what neither has braces nor stands in any at most one activation is live.
pub fn one_is_live_outside_braces()
    ensures { OneIsLiveOutsideBraces }
{}

/// While a part that stands outside braces is live, nothing else of its path is.
pub fn live_parts_outside_braces_are_alone()
    ensures { LivePartsOutsideBracesAreAlone }
{}

/// The path that blocks a start is the first in which something stands against it.
pub fn each_block_has_a_reason()
    ensures { EachBlockHasAReason }
{}

/// The same holds behind earlier segments.
pub fn each_block_has_a_reason_behind()
    ensures { EachBlockHasAReasonBehind }
{}

/// A start for which there is room, and against which nothing stands in any path, is admitted.
pub fn unopposed_starts_are_admitted()
    ensures { UnopposedStartsAreAdmitted }
{}

/// The same holds behind earlier segments, if there is a number for the start.
pub fn unopposed_starts_are_admitted_behind()
    ensures { UnopposedStartsAreAdmittedBehind }
{}

/// What is live is of declared operations: together it is as much as of each of them.
pub fn live_activations_are_counted()
    ensures { LiveActivationsAreCounted }
{}

/// A finish is admitted exactly where it is that of the worker's own live activation, be there earlier segments or none.
pub fn own_activations_finish()
    ensures { OwnActivationsFinish }
{}

/// A start of a declared operation for which there is room is admitted or blocked.
pub fn roomy_starts_are_judged()
    ensures { RoomyStartsAreJudged }
{}

/// The same holds behind earlier lines, if there is a number for the start.
pub fn roomy_starts_are_judged_behind()
    ensures { RoomyStartsAreJudgedBehind }
{}

/// Only an admitted start and an admitted finish change what is live.
pub fn each_reply_tells_what_is_live()
    ensures { EachReplyTellsWhatIsLive }
{}

/// The same holds behind earlier segments.
pub fn each_reply_tells_what_is_live_behind()
    ensures { EachReplyTellsWhatIsLiveBehind }
{}
