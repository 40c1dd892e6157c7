ghost use Rattle.std.specs.Prelude.{◌≡◌, ℕ, ◌<◌, ◌+◌, true, false, List, ◌∷◌, slice_index};
ghost use Rattle.term_model.specs.Plans.{Known, deeper, is_bound};
ghost use Rattle.join_plan.specs.Progress.{Knows, Locates, Marks};
ghost use Rattle.join_plan.specs.declared.progress.TheConstants.{MOST_LEVELS};

/// More levels than a reference has.
pub(crate) const MOST_LEVELS: u32 = 65_536;

/// How far a plan has come: which variables are bound, and how many levels of each sparse reference are located.
#[derive(Clone, Copy, Debug)]
pub(crate) struct Progress {
    pub(crate) bound: [bool; 4],
    pub(crate) located: [u32; 4],
}

impl Progress {
    /// How many levels of a reference are located, which is the number of its next one.
    pub(crate) fn next_level(&self, reference: u32) -> u32
        requires { reference < 4 }
        ensures level { (k : Known) → Knows k self.now → result ≡ k.located reference }
        ensures value { result ≡ slice_index self.now.located reference }
    {
        self.located[reference as usize]
    }

    /// Whether all variables are bound.
    pub(crate) fn is_bound(&self) -> bool
        ensures { (k : Known) → Knows k self.now → result ≡ is_bound k }
    {
        self.bound[0] & self.bound[1] & self.bound[2] & self.bound[3]
    }
}

/// What is bound with one variable more.
pub(crate) fn with_mark(bound: &[bool; 4], var: u32) -> [bool; 4]
    ensures { (vs : List ℕ) → Marks vs bound.now → Marks (var ∷ vs) result }
{
    [
        (var == 0) | bound[0],
        (var == 1) | bound[1],
        (var == 2) | bound[2],
        (var == 3) | bound[3],
    ]
}

/// What is located with one more level of a reference.
pub(crate) fn deepened(located: &[u32; 4], reference: u32) -> [u32; 4]
    ensures { (at : ℕ → ℕ) → Locates at located.now → at reference < MOST_LEVELS → Locates (deeper reference at) result }
{
    [
        level_after(located[0], 0 == reference),
        level_after(located[1], 1 == reference),
        level_after(located[2], 2 == reference),
        level_after(located[3], 3 == reference),
    ]
}

fn level_after(level: u32, is: bool) -> u32
    ensures deeper { is ≡ true → level < MOST_LEVELS → result ≡ level + 1 }
    ensures same { is ≡ false → result ≡ level }
{
    if is { level.saturating_add(1) } else { level }
}
