//! Laws of the plans of accepted jobs. Each function does nothing: its contract is the law.

ghost use Rattle.job_plans.specs.Laws.{AcceptedJobsCanBePlanned, LeastPlansArePlans, PlansAreOne};

/// All terms of an accepted job can be scheduled by what is measured of matrices within the limits of files.
pub fn accepted_jobs_can_be_planned()
    ensures { AcceptedJobsCanBePlanned }
{}

/// Plans of least cost by what is measured of the matrices are plans of the terms by the formats of the job.
pub fn least_plans_are_plans()
    ensures { LeastPlansArePlans }
{}

/// A job has plans of least cost, one list of them alone.
pub fn plans_are_one()
    ensures { PlansAreOne }
{}
