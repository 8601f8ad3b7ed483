// Runs sites whose answers document 01 gives, sites where idling draws power, and small sites against an exhaustive search,
// and prints one line a site or a group of sites.
// A line of a group has its name, how many sites it has, for how many of them a plan came out, how many agree with the
// search, and the exact energies of the plans together, multiplied out (search.rt). A site agrees where a plan comes out
// exactly if some cut of the jobs' cycles overloads no interval, the plan's exact energy is the least of all cuts, and the
// check accepts the plan with the figure that planning answered.
// A group of sites with marks has a second line: in how many of them the marks cut an interval, and for how many the search
// finds the same least energy without the marks.
#![tactic(auto)]

mod compare;
mod effects;
mod groups;
mod lines;

fn main() {
    lines::built_in();
    lines::mistakes();
    lines::idle_draws();
    groups::all();
}
