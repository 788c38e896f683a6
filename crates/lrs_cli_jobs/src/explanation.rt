//! What stands behind a fault in which a job ends.

use lrs_cli_help::Options;
use lrs_cli_help::explanation::{
    explain_cut_off, explain_header, explain_keep, explain_memory, explain_open, explain_other,
    explain_port, explain_read, explain_record, explain_reopening, explain_repeated_key,
    explain_unsound, explain_write, name_pages,
};
use lrs_cli_tasks::{ProgramFault, table_name};
use lrs_cli_words::Job;
use std::io;
use std::rt::HostRuntime;

/// Says on standard error what stands behind a fault of a job, and what to do about it. By `options` its
/// inventory had to be there, or to be another; `failure` says why standard output last took nothing.
pub(crate) fn explain(
    rt: &HostRuntime,
    job: &Job<'_>,
    options: Options,
    fault: ProgramFault,
    failure: Option<io::Error>,
) {
    match fault {
        ProgramFault::Open => explain_open(rt, job, options.has_to_be()),
        ProgramFault::OtherInventory(found) => explain_other(rt, job, found, options.expected),
        ProgramFault::Unsound(table) => explain_unsound(rt, job, table_name(table)),
        ProgramFault::Memory => explain_memory(rt),
        ProgramFault::Keep => explain_keep(rt, job),
        ProgramFault::MustReopen => explain_reopening(rt),
        ProgramFault::Read => explain_read(rt, job),
        ProgramFault::Write => explain_write(rt, job, failure),
        ProgramFault::BadHeader => explain_header(rt, job),
        ProgramFault::BadCsv => explain_record(rt, job),
        ProgramFault::RepeatedKey => explain_repeated_key(rt, job),
        ProgramFault::CutOff => explain_cut_off(rt, job),
        ProgramFault::Door => explain_port(rt, job),
    }
    name_pages(rt);
}
