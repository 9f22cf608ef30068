// The jobs of a whole file, one after another.
ghost use Rattle.std.specs.Prelude.{◌≡◌};
ghost use Rattle.std.specs.Iterator.{YieldsFirstBy, item_count};
ghost use Rattle.jobfile.specs.FileJobs.{file_jobs};
ghost use Rattle.jobfile.specs.Left.{file_job, left};

use crate::job::Job;
use crate::next_job;
use refusals::Refusal;

// What is left of a file, from the offset of a job on.
#[derive(Drop)]
pub struct Jobs<'a> {
    file: &'a [u8],
    at: usize,
}

impl<'a> Jobs<'a> {
    pub fn new(file: &'a [u8]) -> Jobs<'a>
        ensures { left result ≡ file_jobs file.now }
    {
        Jobs { file, at: 0 }
    }
}

// Each job comes with its offset. One that cannot be decoded is the last.
impl<'a> Iterator for Jobs<'a> {
    type Item = (usize, Result<Job<'a>, Refusal>);

    ghost next_gives = { YieldsFirstBy file_job left };

    ghost remaining = { item_count left };

    #[tactic(auto, using(crate::proofs::Turns::turns))]
    fn next(&mut self) -> Option<(usize, Result<Job<'a>, Refusal>)> {
        let at = self.at;
        if at >= self.file.len() {
            return None;
        }
        match next_job(self.file, at) {
            Ok((job, next)) => {
                self.at = next;
                Some((at, Ok(job)))
            }
            Err(refusal) => {
                self.at = self.file.len();
                Some((at, Err(refusal)))
            }
        }
    }
}
