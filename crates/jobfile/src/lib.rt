// A file of jobs, read one job after another.
#![tactic(auto)]

ghost use Rattle.std.specs.Prelude.{◌≡◌, length};
ghost use Rattle.refusals.specs.Told.{told};
ghost use Rattle.jobfile.specs.Jobs.{job_at, said_next};
ghost use Rattle.jobfile.specs.Offsets.{Onward};

pub mod cut;
mod decode;
mod fields;
pub mod finish;
pub mod job;
pub mod jobs;
mod kind;
pub mod read;
pub mod samples;
pub mod wait;
pub mod write;

use decode::job_of;
use fields::Fields;
use job::Job;
use kind::Kind;
use refusals::Refusal;

// The job that begins at `at`, and the offset of the next.
pub fn next_job(file: &[u8], at: usize) -> Result<(Job<'_>, usize), Refusal>
    ensures value { told said_next result ≡ job_at file.now at }
    ensures onward { Onward at (length file.now) result }
{
    let byte = *file.get(at).ok_or(Refusal::FileEnds)?;
    let kind = Kind::try_from(byte)?;
    let mut fields = Fields { file, at: at + 1 };
    let job = job_of(kind, &mut fields)?;
    Ok((job, fields.at))
}
