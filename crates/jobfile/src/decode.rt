// Each kind of job. Its fields are tested in the order of the file.
ghost use Rattle.std.specs.Prelude.{◌≡◌};
ghost use Rattle.refusals.specs.Told.{told};
ghost use Rattle.jobfile.specs.Jobs.{write_at, read_at, wait_at, finish_at, cut_at, samples_at, job_as, said};
ghost use Rattle.jobfile.specs.Kinds.{kind_byte};
ghost use Rattle.jobfile.specs.Reading.{ReadOn};

use crate::cut::Cut;
use crate::fields::Fields;
use crate::finish::Finish;
use crate::job::Job;
use crate::kind::Kind;
use crate::read::Read;
use crate::samples::Samples;
use crate::wait::Wait;
use crate::write::Write;
use refusals::Refusal;

fn write_job<'a>(fields: &mut Fields<'a>) -> Result<Job<'a>, Refusal>
    ensures value { told (λ job. (said job, fields.new.at)) result ≡ write_at fields.old.file.now fields.old.at }
    ensures onward { ReadOn fields.old fields.new }
{
    let address = fields.number_within(0, 127)?;
    let (bytes, at) = fields.counted(255)?;
    Ok(Job::Write(Write::new(address as u8, bytes, at)?))
}

fn read_job<'a>(fields: &mut Fields<'a>) -> Result<Job<'a>, Refusal>
    ensures value { told (λ job. (said job, fields.new.at)) result ≡ read_at fields.old.file.now fields.old.at }
    ensures onward { ReadOn fields.old fields.new }
{
    let address = fields.number_within(0, 127)?;
    let (aim, at) = fields.counted(2)?;
    let count = fields.number_within(1, 255)?;
    Ok(Job::Read(Read::new(address as u8, aim, at, count as u8)?))
}

fn wait_job<'a>(fields: &mut Fields<'a>) -> Result<Job<'a>, Refusal>
    ensures value { told (λ job. (said job, fields.new.at)) result ≡ wait_at fields.old.file.now fields.old.at }
    ensures onward { ReadOn fields.old fields.new }
{
    let address = fields.number_within(0, 127)?;
    let polls = fields.number_within(1, 1000)?;
    Ok(Job::Wait(Wait::new(address as u8, polls as u16)?))
}

fn finish_job<'a>(fields: &mut Fields<'a>) -> Result<Job<'a>, Refusal>
    ensures value { told (λ job. (said job, fields.new.at)) result ≡ finish_at fields.old.file.now fields.old.at }
    ensures onward { ReadOn fields.old fields.new }
{
    let part = fields.number()? as usize;
    Ok(Job::Finish(Finish { part }))
}

fn cut_job<'a>(fields: &mut Fields<'a>) -> Result<Job<'a>, Refusal>
    ensures value { told (λ job. (said job, fields.new.at)) result ≡ cut_at fields.old.file.now fields.old.at }
    ensures onward { ReadOn fields.old fields.new }
{
    let mask = fields.number_within(0, 65535)? as u16;
    Ok(Job::Cut(Cut { mask }))
}

fn samples_job<'a>(fields: &mut Fields<'a>) -> Result<Job<'a>, Refusal>
    ensures value { told (λ job. (said job, fields.new.at)) result ≡ samples_at fields.old.file.now fields.old.at }
    ensures onward { ReadOn fields.old fields.new }
{
    let (bytes, at) = fields.counted(255)?;
    Ok(Job::Samples(Samples::new(bytes, at)?))
}

// The job of a kind whose fields come next.
pub(crate) fn job_of<'a>(kind: Kind, fields: &mut Fields<'a>) -> Result<Job<'a>, Refusal>
    ensures value { told (λ job. (said job, fields.new.at)) result ≡ job_as (kind_byte kind) fields.old.file.now fields.old.at }
    ensures onward { ReadOn fields.old fields.new }
{
    match kind {
        Kind::Write => write_job(fields),
        Kind::Read => read_job(fields),
        Kind::Wait => wait_job(fields),
        Kind::Finish => finish_job(fields),
        Kind::Cut => cut_job(fields),
        Kind::Recover => Ok(Job::Recover),
        Kind::Samples => samples_job(fields),
    }
}
