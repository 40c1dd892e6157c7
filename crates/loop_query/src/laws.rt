//! Laws of terms and plans. Each function does nothing: its contract is the law.

ghost use Rattle.loop_query.specs.ActivityLaws.{InactiveTermsAddNothing, ZerosStay, ActiveTermsSum, ActiveTermsSumInTurns, FilesBeginWithZeros};
ghost use Rattle.loop_query.specs.AnswerLaws.{AnswersAreActivePoints};
ghost use Rattle.loop_query.specs.PlanLaws.{FormatsTellPlans, ListedPlansAreReady, ReadyPlansAreListed, SomePlanIsListed, StepsBindTheirLevels};
ghost use Rattle.loop_query.specs.TermLaws.{TermsSum, TermsHaveSizes, TermsAreFew, TermsAreToldApart, TermsReadTheBody};

/// At every point and in every state the values of the terms sum to the value of the expression.
pub fn terms_sum()
    ensures { TermsSum }
{}

/// The terms of an accepted nest are few, and have few references, since the rules of jobs count them in the same way.
pub fn terms_are_few()
    ensures sizes { TermsHaveSizes }
    ensures few { TermsAreFew }
{}

/// Which references a term has: the job tells the dense from the sparse, and each is one that the body may read.
pub fn terms_read_the_body()
    ensures apart { TermsAreToldApart }
    ensures body { TermsReadTheBody }
{}

/// Where sparse arrays hold 0 where they store nothing, terms that are not active add nothing.
pub fn active_terms_sum()
    ensures inactive { InactiveTermsAddNothing }
    ensures sum { ActiveTermsSum }
{}

/// All states of an accepted job are such states, where the first one is, as that of its files is.
pub fn active_terms_sum_in_turns()
    ensures stay { ZerosStay }
    ensures sum { ActiveTermsSumInTurns }
    ensures files { FilesBeginWithZeros }
{}

/// The list of plans holds the sequences of ready steps that bind all variables, these alone, and at least one. After a
/// step the subscripts of each level that it locates are bound.
pub fn plans_are_ready_steps()
    ensures ready { ListedPlansAreReady }
    ensures all { ReadyPlansAreListed }
    ensures some { SomePlanIsListed }
    ensures bound { StepsBindTheirLevels }
{}

/// The plans of a term by what was measured of its arrays are those by their formats.
pub fn formats_tell_plans()
    ensures { FormatsTellPlans }
{}

/// The points that a rank visits for a term: those of the nest that are at home there, and at which the term is active.
pub fn answers_are_active_points()
    ensures { AnswersAreActivePoints }
{}
