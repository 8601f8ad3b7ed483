// Reads bytes as a table, and prints what the reading answers.
use job_tables::JobTable;
use level_tables::LevelTable;
use mark_tables::MarkTable;
use model::MAX_JOBS;
use test_support::show;

pub(crate) fn levels(bytes: &[u8]) {
    match level_tables::read_levels(bytes) {
        Ok(table) => level_entries(&table),
        Err(own) => show::refused(own),
    }
}

pub(crate) fn jobs(bytes: &[u8]) {
    match job_tables::read_jobs(bytes) {
        Ok(table) => job_entries(&table),
        Err(own) => show::refused(own),
    }
}

pub(crate) fn marks(bytes: &[u8]) {
    match mark_tables::read_marks(bytes) {
        Ok(table) => mark_entries(&table),
        Err(own) => show::refused(own),
    }
}

pub(crate) fn entries(count: u64) {
    show::words(b" entries");
    show::number(count);
}

fn level_entries(table: &LevelTable) {
    entries(table.count as u64);
    for (&frequency, &voltage) in table
        .frequencies
        .iter()
        .zip(&table.voltages)
        .take(table.count)
    {
        show::number(frequency);
        show::number(voltage);
    }
}

fn mark_entries(table: &MarkTable) {
    entries(table.count as u64);
    for &mark in table.marks.iter().take(table.count) {
        show::number(mark);
    }
}

fn job_entries(table: &JobTable) {
    entries(table.count as u64);
    for j in 0..table.count.min(MAX_JOBS) {
        show::number(table.releases[j]);
        show::number(table.deadlines[j]);
        show::number(table.cycles[j]);
    }
}
