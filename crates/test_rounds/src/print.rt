// Printing what laying out rounds answers and writes.
use job_tables::JobTable;
use model::MAX_JOBS;
use rounds::LaidOut;
use test_support::show;

pub(crate) fn laid_out(round: LaidOut) {
    show::words(b" laid out");
    show::number(round.length as u64);
    show::number(round.multiple as u64);
}

// The jobs of a job table, or why it is none.
pub(crate) fn jobs(bytes: &[u8]) {
    show::words(b" jobs");
    match job_tables::read_jobs(bytes) {
        Ok(table) => entries(&table),
        Err(own) => show::refused(own),
    }
}

fn entries(table: &JobTable) {
    show::number(table.count as u64);
    for j in 0..table.count.min(MAX_JOBS) {
        job(table.releases[j], table.deadlines[j], table.cycles[j]);
    }
}

fn job(release: u64, deadline: u64, cycles: u64) {
    show::words(b" job");
    show::number(release);
    show::number(deadline);
    show::number(cycles);
}
