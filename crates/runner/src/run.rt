// The jobs of a file, run one after another on a board.
ghost use Rattle.std.specs.Prelude.{◌≡◌, ◌+◌, ◌<◌, ◌≤◌, [], length};
ghost use Rattle.refusals.specs.Told.{ok, told};
ghost use Rattle.jobfile.specs.Said.{shown_write};
ghost use Rattle.jobfile.specs.Jobs.{said};
ghost use Rattle.jobfile.specs.FileJobs.{file_jobs};
ghost use Rattle.rows.specs.Rows.{items_of, row_of, room_of, first_with, Grown};
ghost use Rattle.board.specs.Runs.{Leads};
ghost use Rattle.controller.specs.Answers.{Into, Lasts};
ghost use Rattle.controller.specs.Master.{run};
ghost use Rattle.controller.specs.Recovery.{recovering};
ghost use Rattle.controller.specs.Said.{master_of};
ghost use Rattle.runner.specs.Sizes.{answers, job_answers, all_answers};
ghost use Rattle.runner.specs.Results.{Listed, seen, seen_between, fits, Filed, FileRun, calls_run};
ghost use Rattle.runner.specs.Runs.{job_run, file_job_run, ran, bytes_of, Within};

use super::result::{Done, JobResult, Refused};
use super::room::room_for;
use board::board::Board;
use controller::note::Note;
use controller::read::read;
use controller::recovery::recover;
use controller::samples::samples;
use controller::wait::wait;
use controller::write::write;
use jobfile::job::Job;
use jobfile::jobs::Jobs;
use jobfile::write::Write;
use part::Part;
use part::levels::Levels;
use part::power::PowerCut;
use refusals::Refusal;
use rows::row::Row;

// A note that is still held is given up.
fn let_go(note: Option<Note>) {
    if let Some(busy) = note {
        busy.give_up();
    }
}

// The note of an accepted write takes the place of an earlier one. A note is never dropped, so each arm says where it goes.
fn run_write<P: Part>(
    board: &mut Board<P>,
    lines: &mut Levels,
    job: &Write<'_>,
    note: Option<Note>,
) -> (Option<Note>, Result<(), Refusal>)
    ensures run { run P.Part.ops (master_of lines.old 0 (shown_write job.now)) board.old ≡ (board.new, told (λ _. []) result.1) }
    ensures lines { lines.new ≡ lines.old }
{
    match write(board, lines, job) {
        Ok(busy) => {
            let_go(note);
            (Some(busy), Ok(()))
        }
        Err(refusal) => (note, Err(refusal)),
    }
}

// A recovery answers its number of clocks as one byte.
fn run_recovery<P: Part>(board: &mut Board<P>, lines: &Levels, bytes: &mut Row<'_, u8>)
    requires { 1 ≤ room_of bytes.old }
    ensures run { Into (run P.Part.ops (recovering lines.now) board.old) board.new bytes.old bytes.new (ok tt) }
    ensures count { Lasts 1 (run P.Part.ops (recovering lines.now) board.old).1 }
    ensures lender { bytes.new.items.ghost_name ≡ bytes.old.items.ghost_name }
{
    let clocks = recover(board, lines);
    let _ = bytes.append(clocks);
}

// Runs a job whose bytes find room in the list.
fn run_job<P: Part>(
    board: &mut Board<P>,
    lines: &mut Levels,
    job: &Job<'_>,
    note: Option<Note>,
    bytes: &mut Row<'_, u8>,
) -> (Option<Note>, Result<(), Refusal>)
    requires { answers (said job.now) ≤ room_of bytes.old }
    ensures run { Into (job_run P.Part.ops lines.old (said job.now) board.old) board.new bytes.old bytes.new (told (λ x. x) result.1) }
    ensures within { Within (answers (said job.now)) (job_run P.Part.ops lines.old (said job.now) board.old).1 }
    ensures lines { lines.new ≡ lines.old }
    ensures lender { bytes.new.items.ghost_name ≡ bytes.old.items.ghost_name }
{
    match job {
        Job::Write(job) => run_write(board, lines, job, note),
        Job::Read(job) => (note, read(board, lines, job, bytes)),
        Job::Wait(job) => wait(board, lines, job, note),
        Job::Finish(job) => (note, board.finish(job.part)),
        Job::Cut(job) => {
            board.cut(PowerCut { mask: job.mask });
            (note, Ok(()))
        }
        Job::Recover => {
            run_recovery(board, lines, bytes);
            (note, Ok(()))
        }
        Job::Samples(job) => (note, samples(board, job, bytes)),
    }
}

// What became of a job whose bytes, if any, stand from `from` on.
fn outcome(answer: Result<(), Refusal>, from: usize, to: usize) -> Result<Done, Refused>
    requires { from ≤ to }
    ensures { seen result ≡ seen_between from to (told (λ x. x) answer) }
{
    let count = to - from;
    let refused = |refusal: Refusal| Refused::new(refusal, refusal.place());
    answer.map(|()| Done { from, count }).map_err(refused)
}

// Runs a job of a file, which comes with its offset, and appends its result. A job that cannot be decoded is not run.
// Board, lines and rows are parameters of their own: a struct of four `&mut` would need a clause for each that it is the same.
fn run_next<P: Part>(
    board: &mut Board<P>,
    lines: &mut Levels,
    at: usize,
    job: Result<Job<'_>, Refusal>,
    number: usize,
    note: Option<Note>,
    results: &mut Row<'_, JobResult>,
    bytes: &mut Row<'_, u8>,
) -> Option<Note>
    requires result { results.old.count < length (items_of results.old) }
    requires answer { job_answers (told said job) ≤ room_of bytes.old }
    ensures board { board.new ≡ (file_job_run P.Part.ops lines.old (told said job.entry) at board.old).0 }
    ensures results { Listed number bytes.old.count (file_job_run P.Part.ops lines.old (told said job.entry) at board.old).1 results.old results.new }
    ensures bytes { Grown bytes.old (bytes_of (file_job_run P.Part.ops lines.old (told said job.entry) at board.old).1) bytes.new }
    ensures within { Within (job_answers (told said job.entry)) (file_job_run P.Part.ops lines.old (told said job.entry) at board.old).1 }
    ensures lines { lines.new ≡ lines.old }
    ensures results_lender { results.new.items.ghost_name ≡ results.old.items.ghost_name }
    ensures bytes_lender { bytes.new.items.ghost_name ≡ bytes.old.items.ghost_name }
{
    match job {
        Ok(job) => {
            let from = bytes.len();
            let (note, answer) = run_job(board, lines, &job, note, bytes);
            let outcome = outcome(answer, from, bytes.len());
            let _ = results.append(JobResult { number, outcome });
            note
        }
        Err(refusal) => {
            let outcome = Err(Refused::new(refusal, at));
            let _ = results.append(JobResult { number, outcome });
            note
        }
    }
}

// Runs the jobs of a file whose results and bytes find room.
fn run_jobs<P: Part>(
    board: &mut Board<P>,
    lines: &mut Levels,
    file: &[u8],
    results: &mut Row<'_, JobResult>,
    bytes: &mut Row<'_, u8>,
)
    requires results { results.old.count + length (file_jobs file.now) ≤ length (items_of results.old) }
    requires bytes { bytes.old.count + all_answers (file_jobs file.now) ≤ length (items_of bytes.old) }
    ensures board { board.new ≡ (ran P.Part.ops lines.old (file_jobs file.now) board.old).0 }
    ensures filed { Filed (ran P.Part.ops lines.old (file_jobs file.now) board.old).1 results.old results.new bytes.old bytes.new }
    ensures lines { lines.new ≡ lines.old }
    ensures results_lender { results.new.items.ghost_name ≡ results.old.items.ghost_name }
    ensures bytes_lender { bytes.new.items.ghost_name ≡ bytes.old.items.ghost_name }
{
    let mut note: Option<Note> = None;
    for (before, (at, job)) in Jobs::new(file).enumerate() {
        note = run_next(board, lines, at, job, before + 1, note, results, bytes);
    }
    let_go(note);
}

// Runs a whole job file. Its results are appended to the row and the answered bytes to the byte list; where either is too short
// for all of them nothing is run.
#[tactic(auto, using(crate::proofs::Calling::none_called, crate::proofs::Calling::file_called))]
pub fn run_file<P: Part>(
    board: &mut Board<P>,
    lines: &mut Levels,
    file: &[u8],
    results: &mut Row<'_, JobResult>,
    bytes: &mut Row<'_, u8>,
) -> Result<(), Refusal>
    ensures run { FileRun (fits (file_jobs file.now) results.old bytes.old) (ran P.Part.ops lines.old (file_jobs file.now) board.old) board.old board.new results.old results.new bytes.old bytes.new (told (λ x. x) result) }
    ensures calls { Leads P.Part.ops board.old (calls_run P.Part.ops lines.old (fits (file_jobs file.now) results.old bytes.old) (file_jobs file.now) board.old) board.new }
    ensures lines { lines.new ≡ lines.old }
    ensures results_lender { results.new.items.ghost_name ≡ results.old.items.ghost_name }
    ensures bytes_lender { bytes.new.items.ghost_name ≡ bytes.old.items.ghost_name }
{
    let room = room_for(file);
    if results.room() < room.results || bytes.room() < room.bytes {
        return Err(Refusal::NoRoom);
    }
    run_jobs(board, lines, file, results, bytes);
    Ok(())
}

// What became of the job with the number.
pub fn result_of(results: &Row<'_, JobResult>, number: usize) -> Option<usize>
    ensures { result ≡ first_with (λ job. job.number) number (row_of results.now) }
{
    results.find(number)
}
