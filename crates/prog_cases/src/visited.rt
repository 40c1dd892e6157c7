ghost use Rattle.std.specs.Prelude.{◌≡◌, ◌<◌, ◌≤◌, IfOk, map};
ghost use Rattle.plan_courses.specs.JobCourses.{IsPlanOf};
ghost use Rattle.prog_cases.specs.Settings.{AreDealt, AreViewsIn, IsLoaded};

use crate::boxes::points;
use crate::loading::{File, Loaded, load};
use crate::planning::planned;
use crate::views::{View, dealt, views};
use crate::visiting::{hits, hits_by_runs};
use access_joins::Access;
use bern_base::{Items, Nest, NoMemory, Steps, Text};
use formats::AnyStore;
use local_views::LocalView;
use loop_query::{PlanStep, PlannedTerm, terms};
use placement::Cyclic;
use plan_cases::all_plans;
use std::alloc::Global;
use std::marker::Brand;
use std::sync::ledger::{Blank, Ledger};
use std::test::Fail;
use visit_cases::Probe;
use walks::Hit;

/// What the visits of a plan give at a rank.
#[derive(Drop)]
struct Given {
    hits: Vec<Hit>,
    /// How often a child of the first array was read.
    calls: u32,
    /// The same by runs, where the runs of the plan are lines.
    by_runs: Option<(Vec<Hit>, u32)>,
}

/// How often a child of the first array was read since the last time.
fn calls(stores: &Items<View>) -> u32 {
    match stores.get(0) {
        Some(store) => store.calls.replace(0),
        None => 0,
    }
}

/// The visits of a plan at a rank.
fn visit_both<L: Ledger>(
    alloc: Global,
    loaded: &Loaded,
    nest: &Nest,
    planned: &PlannedTerm,
    ranks: u32,
    rank: u32,
    stores: &Items<View>,
    places: &Items<Cyclic>,
    blank: Blank,
) -> Result<Given, NoMemory>
    requires loaded { let l = loaded.now in IsLoaded l.job l.files.matrices l.files.orders l.stats }
    requires plan { IsPlanOf loaded.now.job nest.now planned.now.term planned.now.plan }
    requires dealt { AreDealt loaded.now.job ranks places.now }
    requires rank { rank < ranks }
    requires views { AreViewsIn loaded.now.job (map ⟦<Probe<LocalView<AnyStore, Cyclic>> as Access>⟧.tree stores.now) }
    requires name { blank.name ≡ L.name }
    requires parts { blank.parts ≡ L.parts }
    requires some { 0 < blank.parts }
{
    let mut steps: Steps<L> = Steps::start(blank);
    let job = &loaded.job;
    let _before = calls(stores);
    let found = hits(alloc, job, nest, planned, rank, stores, places, &mut steps)?;
    let count = calls(stores);
    let lines = hits_by_runs(alloc, job, nest, planned, rank, stores, places, &mut steps)?;
    let later = calls(stores);
    Ok(Given {
        hits: found,
        calls: count,
        by_runs: lines.map(|hits| (hits, later)),
    })
}

/// What the visits of the first nest's last term give at a rank by this plan.
fn given_by(
    alloc: Global,
    loaded: &Loaded,
    steps: &[PlanStep],
    ranks: u32,
    rank: u32,
) -> Result<Given, Fail>
    requires loaded { let l = loaded.now in IsLoaded l.job l.files.matrices l.files.orders l.stats }
    requires rank { rank < ranks }
{
    let nest = loaded.job.nests.get(0).ok_or("no nest")?;
    let planned = planned(alloc, loaded, nest, steps)?;
    let places = dealt(alloc, &loaded.job, ranks)?;
    let stores = views(alloc, loaded, ranks, rank)?;
    Ok(visit_both::<Brand>(
        alloc,
        loaded,
        nest,
        &planned,
        ranks,
        rank,
        &stores,
        &places,
        Blank::new(1),
    )?)
}

/// The points of hits, in order.
fn sorted(alloc: Global, hits: &[Hit]) -> Result<Vec<[i64; 4]>, NoMemory> {
    let mut points = Vec::new(alloc);
    for hit in hits {
        points.push(hit.point)?;
    }
    points.sort()?;
    Ok(points)
}

/// Whether hits are at these points, each once, and those by runs are the same.
fn agrees(alloc: Global, given: &Given, expected: &[[i64; 4]]) -> Result<bool, NoMemory> {
    let points = sorted(alloc, given.hits.as_slice())?;
    if points.as_slice() != expected {
        return Ok(false);
    }
    Ok(match &given.by_runs {
        Some((hits, _)) => hits.as_slice() == given.hits.as_slice(),
        None => true,
    })
}

/// How many plans a term has, how many of them were gone over by runs as well, and how many points count.
#[derive(Clone, Copy, Default)]
struct Counts {
    plans: u32,
    by_runs: u32,
    points: usize,
}

/// Whether each plan of the first nest's term gives at a rank the points of the box.
fn all_agree(alloc: Global, loaded: &Loaded, ranks: u32, rank: u32) -> Result<Counts, Fail>
    requires loaded { let l = loaded.now in IsLoaded l.job l.files.matrices l.files.orders l.stats }
    requires rank { rank < ranks }
{
    let nest = loaded.job.nests.get(0).ok_or("no nest")?;
    let mut found = terms(alloc, &loaded.job, nest)?;
    let term = found.pop().ok_or("no term")?;
    let expected = points(alloc, loaded, nest, &term, ranks, rank)?;
    let mut counts = Counts::default();
    counts.points = expected.len();
    for listed in all_plans(alloc, nest, &term, &loaded.stats)? {
        let given = given_by(alloc, loaded, listed.steps.as_slice(), ranks, rank)?;
        if !agrees(alloc, &given, expected.as_slice())? {
            return Err(Fail::from("a plan gives other points"));
        }
        counts.plans = counts.plans.saturating_add(1);
        if given.by_runs.is_some() {
            counts.by_runs = counts.by_runs.saturating_add(1);
        }
    }
    Ok(counts)
}

const HEAD: &[u8] =
    b"extent n 3\nplace p n block\nformat csr row dense > col packed\nformat vec row dense\narray A n,n csr row by p from a.mtx\narray C n,n csr row by p from a.mtx\narray X n vec row by p zero\narray Y n vec row by p zero\n";

const FILES: &[File<'static>] = &[(
    b"a.mtx",
    b"%%MatrixMarket matrix coordinate integer general\n3 3 3\n1 1 2\n1 3 1\n3 2 5\n",
)];

/// The job of a nest after these declarations.
fn job_of(
    alloc: Global,
    head: &[u8],
    nest: &[u8],
    files: &[File],
    ranks: u32,
) -> Result<Loaded, Fail>
    requires { 1 ≤ ranks }
    ensures { IfOk result (λ l. IsLoaded l.job l.files.matrices l.files.orders l.stats) }
{
    let mut text = Text::from_bytes(alloc, head)?;
    text.append(nest)?;
    load(alloc, text.as_bytes(), files, ranks)
}

fn drive(level: u32) -> PlanStep {
    PlanStep::Drive {
        reference: 0,
        level,
        var: level,
    }
}

fn merge(level: u32) -> PlanStep {
    PlanStep::Merge {
        left: 0,
        left_level: level,
        right: 1,
        right_level: level,
        var: level,
    }
}

fn hit(i: i64, j: i64, leaves: [u32; 4]) -> Hit {
    Hit {
        point: [i, j, 0, 0],
        leaves,
    }
}

#[test]
fn two_matrices_merged_give_the_entries_of_both(rt: HostRuntime) -> Result<(), Fail> {
    let alloc = rt.alloc();
    let nest = b"doany i 0..n j 0..n : Y[i] += A[i,j]*C[i,j]\n";
    let loaded = job_of(alloc, HEAD, nest, FILES, 1)?;
    let given = given_by(alloc, &loaded, &[merge(0), merge(1)], 1, 0)?;
    let expected = [
        hit(0, 0, [0, 0, 0, 0]),
        hit(0, 2, [1, 1, 0, 0]),
        hit(2, 1, [2, 2, 0, 0]),
    ];
    assert_eq!(&rt; given.hits.as_slice(), expected.as_slice());
    Ok(())
}

/// The three entries by rows and their entries: one call for each row, and one for each entry. A visit of the whole box makes more.
#[test]
fn a_visit_of_three_entries_reads_six_children(rt: HostRuntime) -> Result<(), Fail> {
    let alloc = rt.alloc();
    let nest = b"doany i 0..n j 0..n : Y[i] += A[i,j]*X[j]\n";
    let loaded = job_of(alloc, HEAD, nest, FILES, 1)?;
    let given = given_by(alloc, &loaded, &[drive(0), drive(1)], 1, 0)?;
    let Some((hits, calls)) = &given.by_runs else {
        return Err(Fail::from("no runs"));
    };
    assert_eq!(&rt; given.hits.len(), 3);
    assert!(&rt; given.calls <= 6);
    assert_eq!(&rt; hits.as_slice(), given.hits.as_slice());
    assert!(&rt; *calls <= 6);
    let box_steps = [PlanStep::Range { var: 0 }, PlanStep::Range { var: 1 }];
    let whole = given_by(alloc, &loaded, &box_steps, 1, 0)?;
    assert_eq!(&rt; whole.hits.as_slice(), given.hits.as_slice());
    assert!(&rt; whole.calls > 6);
    Ok(())
}

const FOUR: &[u8] =
    b"extent n 4\nplace p n block\nformat csr row dense > col packed\nformat dcsr row packed > col packed\nformat coo row col list\nformat vec row dense\narray A n,n csr row by p from a.mtx\narray B n,n csr row by p from b.mtx\narray C n,n dcsr row by p from b.mtx\narray D n,n coo row by p from b.mtx\narray Y n vec row by p zero\n";

const FOUR_FILES: &[File<'static>] = &[
    (
        b"a.mtx",
        b"%%MatrixMarket matrix coordinate integer general\n4 4 8\n1 1 2\n1 2 1\n1 4 5\n2 2 1\n2 3 1\n4 1 1\n4 3 1\n4 4 1\n",
    ),
    (
        b"b.mtx",
        b"%%MatrixMarket matrix coordinate integer general\n4 4 8\n1 2 2\n1 3 1\n2 1 5\n2 3 1\n2 4 1\n4 1 1\n4 2 1\n4 4 1\n",
    ),
];

/// Nests of one term each: how many points count, and whether the last step of some plan drives a level after which nothing is due.
const NESTS: &[(&[u8], usize, bool)] = &[
    (
        b"doany i 0..n j 0..n k 0..n where i <= k : Y[i] += A[i,j]*C[i,k]\n",
        13,
        true,
    ),
    (
        b"doany i 0..2 j 0..3 where i + j > 0 : Y[2*i+1] += A[2*i+1,j+1]*D[2*i+1,3-j]\n",
        2,
        false,
    ),
    (
        b"doany i 0..n j 0..n k 0..2 where j != 2*k : Y[i] += A[i,j]*B[i,j]*C[i,2*k]\n",
        3,
        false,
    ),
];

#[test]
fn all_plans_give_the_points_of_the_box(rt: HostRuntime) -> Result<(), Fail> {
    let alloc = rt.alloc();
    for (nest, points, by_runs) in NESTS {
        let loaded = job_of(alloc, FOUR, nest, FOUR_FILES, 2)?;
        let whole = all_agree(alloc, &loaded, 1, 0)?;
        let first = all_agree(alloc, &loaded, 2, 0)?;
        let second = all_agree(alloc, &loaded, 2, 1)?;
        assert!(&rt; whole.plans > 1);
        assert_eq!(&rt; whole.points, *points);
        assert_eq!(&rt; first.points.saturating_add(second.points), *points);
        assert_eq!(&rt; whole.by_runs > 0, *by_runs);
    }
    Ok(())
}
