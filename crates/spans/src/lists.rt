// Writing the members of a set into a lent list.
ghost use Rattle.std.specs.Prelude.{◌≡◌, ◌+◌, ◌*◌, ◌≤◌, length};
ghost use Rattle.std.proofs.lemmas.List.Edits.{sets};
ghost use Rattle.model.specs.Limits.{max_intervals, max_jobs};
ghost use Rattle.job_sets.specs.JobSets.{member_count};
ghost use Rattle.spans.specs.TouchedIn.{members_from};

use job_sets::JobSet;

// Writes the members, rising, each with a number added, from a place of the list on, and answers the place after them.
pub fn write_members(set: JobSet, base: usize, first: usize, list: &mut [u32]) -> usize
    requires { (base ≤ max_intervals * max_jobs) × (first + member_count set ≤ length list.old) }
    ensures value { result ≡ first + member_count set }
    ensures list_after { list.new ≡ sets list.old first (members_from base set) }
{
    let mut next = first;
    let mut rest = set;
    while !rest.is_empty() {
        let job = rest.least();
        list[next] = (base + job) as u32;
        next += 1;
        rest = rest.without(job);
    }
    next
}
