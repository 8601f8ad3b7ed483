// Refusals: what is at fault by the table of documents 01 and 02, and the place that the table names.
ghost use Rattle.std.specs.Prelude.{◌≡◌};
ghost use Rattle.model.specs.Refusals.{number_of};

// What an operation refuses. A fault is known by its number to all who don't read this code, as callers from C.
#[derive(Clone, Copy, Debug, PartialEq, Eq)]
pub enum Fault {
    LevelsTooShort = 1,
    LevelCount = 2,
    LevelsLength = 3,
    LevelFrequency = 4,
    LevelVoltage = 5,
    JobsTooShort = 6,
    JobCount = 7,
    JobsLength = 8,
    JobWindow = 9,
    JobCycles = 10,
    OverfullWindow = 11,
    PlanRoom = 12,
    PricesRoom = 13,
    ListRoom = 14,
    PlanLength = 15,
    PlanIntervals = 16,
    StepPair = 17,
    StepCycles = 18,
    JobSum = 19,
    IntervalLoad = 20,
    PricesLength = 21,
    PriceEntry = 22,
    PriceLoad = 23,
    CheaperInterval = 24,
    IntervalLength = 25,
    LoadAboveTop = 26,
    WindowBounds = 27,
    TaskTable = 28,
    RoundLength = 29,
    RoundJobs = 30,
    IdleAlone = 31,
    IdleDraw = 32,
    SpanBounds = 33,
    Marks = 34,
    Parameter = 35,
    AlteredJob = 36,
}

// A fault and its place: the entry, step, job or interval that it is about, or the length wanted; 0 where none is named.
#[derive(Clone, Copy, Debug, PartialEq, Eq)]
pub struct Refusal {
    pub fault: Fault,
    pub place: u32,
}

impl Fault {
    // The fault's number in the table.
    pub fn number(self) -> u32
        ensures { result ≡ number_of self }
    {
        self as u32
    }

    // The refusal of the fault at a place. It is seldom made, and never in line: a loop that ends in it would carry the place packed
    // from turn to turn.
    #[cold]
    #[inline(never)]
    pub fn at(self, place: u32) -> Refusal
        ensures { result ≡ record { fault = self; place = place } }
    {
        Refusal { fault: self, place }
    }
}
