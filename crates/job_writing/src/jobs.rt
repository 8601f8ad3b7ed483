// Writing a job table.
ghost use Rattle.std.specs.Prelude.{◌≡◌, ◌++◌, ◌+◌, ◌*◌, ◌≤◌, length, drop};
ghost use Rattle.std.proofs.lemmas.List.Edits.{sets};
ghost use Rattle.model.specs.Limits.{max_jobs};
ghost use Rattle.model.specs.Jobs.{encode_jobs};
ghost use Rattle.job_tables.specs.Tables.{jobs_in};
ghost use Rattle.job_writing.specs.JobBytes.{window_bytes};

use model::MAX_JOBS;
use writing::{put_column, put16, put32};

// Writes the table of the first `count` jobs that stand in the arrays at the start of the buffer.
pub fn write_jobs(
    releases: &[u64; MAX_JOBS],
    deadlines: &[u64; MAX_JOBS],
    cycles: &[u64; MAX_JOBS],
    count: usize,
    out: &mut [u8],
)
    requires { (count ≤ max_jobs) × (2 + 12 * count ≤ length out.old) }
    ensures { out.new ≡ encode_jobs (jobs_in count releases.now deadlines.now cycles.now) ++ drop (2 + 12 * count) out.old }
{
    put16(out, 0, count as u64);
    write_windows(releases, deadlines, count, out);
    put_column(out, 2 + 8 * count, &cycles[..count]);
}

// Writes the windows of the jobs after the count.
fn write_windows(
    releases: &[u64; MAX_JOBS],
    deadlines: &[u64; MAX_JOBS],
    count: usize,
    out: &mut [u8],
)
    requires { (count ≤ max_jobs) × (2 + 8 * count ≤ length out.old) }
    ensures { out.new ≡ sets out.old 2 (window_bytes count releases.now deadlines.now) }
{
    for j in 0..count {
        put32(out, 2 + 8 * j, releases[j]);
        put32(out, 6 + 8 * j, deadlines[j]);
    }
}
