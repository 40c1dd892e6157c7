ghost use Rattle.std.specs.Prelude.{◌≡◌, ◌≢◌, ℕ, ◌<◌, ◌≤◌, ◌↔◌, true, false, List, [], ◌∷◌, None, filter_map};
ghost use Rattle.std.specs.List.{range_with_len};
ghost use Rattle.bern_base.specs.declared.letter.Letter.{Letter};
ghost use Rattle.rank_scripts.specs.Acts.{receiver};
ghost use Rattle.rank_scripts.specs.Scripts.{IsClosed, book, total};
ghost use Rattle.rank_scripts.specs.Worlds.{World, Event, Posts, Takes, Fit, start, run as after, can, accepted, done};
ghost use Rattle.rank_scripts.specs.Orders.{GoesOn, Finishes, PostsNext, TakesNext, IsDelivered};
ghost use Rattle.turn_model.specs.Schedules.{request, values_letter};
ghost use Rattle.turn_model.specs.Runs.{Run, asked, events, nest_at, schedule, scripts, some_due, turns_of};

/// The book of a pair is the Request and then, for each turn in which some are due, one letter of values.
///
/// Values are due from p to q in a turn exactly where q asks p for some element for the turn's nest. So many events a run
/// has: each rank inspects, and works twice in each turn; each letter is posted and taken.
pub fn books_are_due()
    ensures book { (run : Run) (p q : ℕ) → q < run.ranks → p ≢ q →
        book (scripts run) p q ≡
        request (schedule run) p q ∷ filter_map (λ t. values_letter (schedule run) t p q) (range_with_len 0 (turns_of run)) }
    ensures own { (run : Run) (p : ℕ) → book (scripts run) p p ≡ [] }
    ensures due { (run : Run) (t p q : ℕ) →
        (values_letter (schedule run) t p q ≡ None) ↔ (some_due (nest_at run t) (asked run q p) ≡ false) }
    ensures closed { (run : Run) → IsClosed (scripts run) }
    ensures total { (run : Run) → total (scripts run) ≡ events run }
{}

/// Whatever happens, in whatever order, each rank keeps to its script, each book stays whole, and every order ends after
/// the same number of events.
///
/// An event that is not enabled changes nothing. A world that meets `Fit` and is not done has an enabled event.
pub fn every_order_of_turns()
    ensures fit { (run : Run) (events : List Event) → Fit (scripts run) (after (scripts run) (start (scripts run)) events) }
    ensures posts { (run : Run) (w : World Letter) (r : ℕ) →
        Fit (scripts run) w → can (scripts run) w (Posts r) ≡ true → PostsNext (scripts run) w r (receiver (w.node r).todo) }
    ensures takes { (run : Run) (w : World Letter) (r from : ℕ) →
        Fit (scripts run) w → can (scripts run) w (Takes r from) ≡ true → TakesNext (scripts run) w r from }
    ensures goes_on { (run : Run) (w : World Letter) →
        Fit (scripts run) w → done (scripts run) w ≡ false → GoesOn (scripts run) w }
    ensures finishes { (run : Run) (w : World Letter) → Fit (scripts run) w → Finishes (scripts run) w }
    ensures within { (run : Run) (list : List Event) → accepted (scripts run) (start (scripts run)) list ≤ events run }
    ensures ends { (run : Run) (list : List Event) →
        (done (scripts run) (after (scripts run) (start (scripts run)) list) ≡ true) ↔
        (accepted (scripts run) (start (scripts run)) list ≡ events run) }
    ensures delivered { (run : Run) (w : World Letter) →
        Fit (scripts run) w → done (scripts run) w ≡ true →
        (p q : ℕ) → p < run.ranks → q < run.ranks → IsDelivered (scripts run) w p q }
{}
