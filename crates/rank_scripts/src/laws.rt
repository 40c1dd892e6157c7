//! Each function does nothing: its contract is the law.

ghost use Rattle.std.specs.Prelude.{◌≡◌, ◌≢◌, ℕ, ◌+◌, ◌*◌, ◌-◌, ◌<◌, ◌≤◌, ◌↔◌, true, false, List, [], ◌∷◌, Option, take, sum_by, filter_map};
ghost use Rattle.std.specs.List.{range_with_len};
ghost use Rattle.bern_base.specs.declared.letter.Letter.{Letter};
ghost use Rattle.rank_scripts.specs.Acts.{Act, receiver};
ghost use Rattle.rank_scripts.specs.Scripts.{Scripts, IsClosed, book, letters, total};
ghost use Rattle.rank_scripts.specs.Nodes.{HasAllBefore, past_waits, has_all};
ghost use Rattle.rank_scripts.specs.Worlds.{World, Event, Posts, Takes, Fit, start, step, run, can, accepted, done};
ghost use Rattle.rank_scripts.specs.Orders.{GoesOn, Finishes, PostsNext, TakesNext, IsDelivered};
ghost use Rattle.rank_scripts.specs.Rounds.{Round, scripts_of, letters_of, turn_scripts, values_due, has_round};
ghost use Rattle.rank_scripts.specs.Examples.{two_ranks, two_ranks_events, IsDrawn};

/// Whatever happens, in whatever order, each rank keeps to its script and each book stays whole.
///
/// `Fit` holds at the start and after every event, enabled or not. So a post puts in flight the next letter of its
/// book, and a take gives the next one.
pub fn every_order_is_fit()
    ensures start { (scripts : Scripts Letter) → Fit scripts (start scripts) }
    ensures step { (scripts : Scripts Letter) (w : World Letter) (event : Event) →
        Fit scripts w → Fit scripts (step scripts w event) }
    ensures run { (scripts : Scripts Letter) (events : List Event) →
        Fit scripts (run scripts (start scripts) events) }
    ensures posts { (scripts : Scripts Letter) (w : World Letter) (r : ℕ) →
        Fit scripts w → can scripts w (Posts r) ≡ true →
        PostsNext scripts w r (receiver (w.node r).todo) }
    ensures takes { (scripts : Scripts Letter) (w : World Letter) (r from : ℕ) →
        Fit scripts w → can scripts w (Takes r from) ≡ true →
        TakesNext scripts w r from }
{}

/// No order gets stuck, and every order ends after the same number of enabled events.
///
/// A fit world that is not done has an enabled event, whatever the scripts. The number needs closed scripts, which any
/// rounds give.
pub fn every_order_ends()
    ensures goes_on { (scripts : Scripts Letter) (w : World Letter) →
        Fit scripts w → done scripts w ≡ false → GoesOn scripts w }
    ensures finishes { (scripts : Scripts Letter) (w : World Letter) →
        IsClosed scripts → Fit scripts w → Finishes scripts w }
    ensures within { (scripts : Scripts Letter) (events : List Event) →
        IsClosed scripts → accepted scripts (start scripts) events ≤ total scripts }
    ensures ends { (scripts : Scripts Letter) (events : List Event) →
        IsClosed scripts →
        (done scripts (run scripts (start scripts) events) ≡ true) ↔
        (accepted scripts (start scripts) events ≡ total scripts) }
    ensures delivered { (scripts : Scripts Letter) (w : World Letter) →
        IsClosed scripts → Fit scripts w → done scripts w ≡ true →
        (p q : ℕ) → p < scripts.ranks → q < scripts.ranks → IsDelivered scripts w p q }
{}

/// Rounds make closed scripts, whose books are the letters that are due.
pub fn rounds_are_closed()
    ensures closed { (ranks : ℕ) (first : Round Letter) (rounds : List (Round Letter)) →
        IsClosed (scripts_of ranks (first ∷ rounds)) }
    ensures books { (ranks : ℕ) (rounds : List (Round Letter)) (p q : ℕ) →
        q < ranks → book (scripts_of ranks rounds) p q ≡ letters_of p q rounds }
    ensures total { (ranks : ℕ) (rounds : List (Round Letter)) →
        total (scripts_of ranks rounds) ≡
        ranks * (1 + sum_by (λ (round : Round Letter). round.inner + round.outer) rounds)
        + 2 * letters (scripts_of ranks rounds) }
{}

/// A run of so many turns: the book of a pair is the Request and then the Values letters that are due, by turn.
///
/// `request p q` is what rank p asks of rank q, and `values turn p q` what p has for q in that turn, if it has any. A nest
/// that is done several times has as many turns.
pub fn turns_are_rounds()
    ensures closed { (ranks turns : ℕ) (request : ℕ → ℕ → Letter) (values : ℕ → ℕ → ℕ → Option Letter) →
        IsClosed (turn_scripts ranks turns request values) }
    ensures book { (ranks turns : ℕ) (request : ℕ → ℕ → Letter) (values : ℕ → ℕ → ℕ → Option Letter) (p q : ℕ) →
        q < ranks → p ≢ q →
        book (turn_scripts ranks turns request values) p q ≡
        request p q ∷ filter_map (λ turn. values turn p q) (range_with_len 0 turns) }
    ensures own { (ranks turns : ℕ) (request : ℕ → ℕ → Letter) (values : ℕ → ℕ → ℕ → Option Letter) (p : ℕ) →
        book (turn_scripts ranks turns request values) p p ≡ [] }
    ensures letters { (ranks turns : ℕ) (request : ℕ → ℕ → Letter) (values : ℕ → ℕ → ℕ → Option Letter) →
        letters (turn_scripts ranks turns request values) ≡
        ranks * (ranks - 1) + values_due ranks turns values }
    ensures total { (ranks turns : ℕ) (request : ℕ → ℕ → Letter) (values : ℕ → ℕ → ℕ → Option Letter) →
        total (turn_scripts ranks turns request values) ≡
        ranks * (1 + 2 * turns) + 2 * letters (turn_scripts ranks turns request values) }
{}

/// A wait names the letters of all rounds up to its own, and naming those of its own round alone is the same.
///
/// The premise is what `Fit` says of the waits that a rank has passed. `stop` is the law at the place where a rank
/// stops, so it covers a rank that passes several waits at once.
pub fn waits_name_their_round()
    ensures wait { (ranks : ℕ) (rounds : List (Round Letter)) (r : ℕ) (given : ℕ → List Letter) (m : ℕ) →
        r < ranks → HasAllBefore (scripts_of ranks rounds) r given m →
        has_all (scripts_of ranks rounds) r given m ≡ has_round ranks rounds r given m }
    ensures stop { (ranks : ℕ) (rounds : List (Round Letter)) (r : ℕ) (given : ℕ → List Letter) (m : ℕ)
        (acts : List (Act Letter)) →
        r < ranks → HasAllBefore (scripts_of ranks rounds) r given m →
        past_waits (has_all (scripts_of ranks rounds) r given) m acts ≡ past_waits (has_round ranks rounds r given) m acts }
{}

/// The number of events, worked out, and one run by hand.
pub fn worked_numbers()
    ensures two { (request : ℕ → ℕ → Letter) (values : ℕ → ℕ → ℕ → Option Letter) →
        letters (turn_scripts 2 1 request values) ≡ 4 → total (turn_scripts 2 1 request values) ≡ 14 }
    ensures three { (request : ℕ → ℕ → Letter) (values : ℕ → ℕ → ℕ → Option Letter) →
        letters (turn_scripts 3 2 request values) ≡ 10 → total (turn_scripts 3 2 request values) ≡ 35 }
    ensures repeated { (request : ℕ → ℕ → Letter) (values : ℕ → ℕ → ℕ → Option Letter) →
        letters (turn_scripts 2 3 request values) ≡ 8 → total (turn_scripts 2 3 request values) ≡ 30 }
    ensures most { (request : ℕ → ℕ → Letter) (values : ℕ → ℕ → ℕ → Option Letter) →
        letters (turn_scripts 64 1 request values) ≡ 4034 → total (turn_scripts 64 1 request values) ≡ 8260 }
    ensures example_letters { letters two_ranks ≡ 4 }
    ensures example_total { total two_ranks ≡ 14 }
    ensures example_refused { accepted two_ranks (start two_ranks) (Posts 0 ∷ Takes 1 0 ∷ []) ≡ 0 }
    ensures example_drawn { IsDrawn (run two_ranks (start two_ranks) (take 10 two_ranks_events)) }
    ensures example_accepted { accepted two_ranks (start two_ranks) two_ranks_events ≡ 14 }
    ensures example_done { done two_ranks (run two_ranks (start two_ranks) two_ranks_events) ≡ true }
{}
