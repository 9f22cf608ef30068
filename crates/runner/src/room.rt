// How much room the results of a job file take.
ghost use Rattle.std.specs.Prelude.{◌≡◌, ◌-◌, ◌^◌, min, length};
ghost use Rattle.jobfile.specs.Jobs.{said};
ghost use Rattle.jobfile.specs.FileJobs.{file_jobs};
ghost use Rattle.runner.specs.Sizes.{answers, all_answers};

use jobfile::job::Job;
use jobfile::jobs::Jobs;

#[derive(Clone, Copy)]
pub struct Room {
    pub results: usize,
    pub bytes: usize,
}

// How many bytes a job answers where it is accepted.
pub fn answers(job: &Job<'_>) -> usize
    ensures { result ≡ answers (said job.now) }
{
    match job {
        Job::Read(read) => usize::from(read.count()),
        Job::Recover => 1,
        Job::Samples(samples) => samples.bytes().len(),
        _ => 0,
    }
}

// A result for each job up to the first that cannot be decoded, and the bytes answered where every job is accepted.
pub fn room_for(file: &[u8]) -> Room
    ensures results { result.results ≡ length (file_jobs file.now) }
    ensures bytes { result.bytes ≡ min (all_answers (file_jobs file.now)) (2 ^ 64 - 1) }
{
    let mut room = Room {
        results: 0,
        bytes: 0,
    };
    for (_, job) in Jobs::new(file) {
        room.results += 1;
        if let Ok(job) = job {
            room.bytes = room.bytes.saturating_add(answers(&job));
        }
    }
    room
}
