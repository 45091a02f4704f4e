//! Laws of job texts: a text has one result.

ghost use Rattle.job.specs.JobFaults.{JobReadsAlways, JobReadsOnce};

/// Each text represents a job or has a fault, for any limits.
pub fn reads_job_always()
    ensures { JobReadsAlways }
{}

/// Reading a text gives a job or a fault, but not both, and no other job or fault, for any limits.
pub fn reads_job_once()
    ensures { JobReadsOnce }
{}
