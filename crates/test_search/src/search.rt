// The least energy of a small site, by trying every cut of the jobs' cycles.
ghost use Rattle.test_search.specs.Sizes.{SmallEnergy};

use crate::cuts::{Cuts, cycles_in, first_cuts, next_cuts};
use crate::intervals::Intervals;
use crate::mixes::{Fraction, least_mix};
use crate::table::{JobColumns, LevelColumns};
use std::num::wrapping_add_u64;

// Energies are multiplied out by the least common multiple of the numbers up to twelve. Small sites have no
// higher frequencies, so the denominators of their energies divide it.
pub const SCALE: u64 = 27_720;

// No energy: a load past what the top level serves.
pub const OVERLOADED: u64 = 4_294_967_295;

// The search was given up.
const UNFINISHED: u64 = 4_294_967_296_000;

// More cuts than any of the small sites has.
const MOST_CUTS: usize = 1_000_000;

// The least energy of each load from 0 to 255 in each of eight intervals.
pub const ENERGIES: usize = 2_048;

pub fn energies_of(levels: LevelColumns, intervals: Intervals) -> [u32; ENERGIES] {
    let mut energies = [0u32; ENERGIES];
    for n in 0..ENERGIES {
        let i = n / 256;
        energies[n] = scaled(least_mix(levels, intervals.lengths[i], (n % 256) as u32));
    }
    energies
}

// An energy multiplied out.
fn scaled(energy: Fraction) -> u32
    requires { SmallEnergy energy.numerator energy.denominator }
{
    let denominator = energy.denominator;
    if denominator == 0 {
        return OVERLOADED as u32;
    }
    if SCALE % denominator > 0 {
        return OVERLOADED as u32;
    }
    let product = energy.numerator * (SCALE / denominator);
    if product < OVERLOADED {
        product as u32
    } else {
        OVERLOADED as u32
    }
}

// The energy of the loads of all intervals, or OVERLOADED.
pub fn energy_of(energies: &[u32; ENERGIES], loads: u64) -> u64 {
    let mut sum = 0u64;
    for i in 0u8..8 {
        let place = i as usize * 256 + cycles_in(loads, i) as usize;
        let energy = u64::from(energies[place]);
        if energy == OVERLOADED {
            return OVERLOADED;
        }
        sum += energy;
    }
    sum
}

// The least energy of all cuts, or OVERLOADED where each of them loads an interval past what the top level serves.
pub fn least_energy(jobs: JobColumns, intervals: Intervals, energies: &[u32; ENERGIES]) -> u64 {
    let mut least = OVERLOADED;
    let mut cuts = first_cuts(jobs, intervals);
    for _ in 0..MOST_CUTS {
        let energy = energy_of(energies, loads_of(cuts));
        least = least.min(energy);
        let next = next_cuts(cuts);
        if !next.found {
            return least;
        }
        cuts = next.cuts;
    }
    UNFINISHED
}

// The load of each interval: the cycles of all jobs there.
fn loads_of(cuts: Cuts) -> u64 {
    wrapping_add_u64(
        wrapping_add_u64(cuts.shares[0], cuts.shares[1]),
        wrapping_add_u64(cuts.shares[2], cuts.shares[3]),
    )
}
