// The two level tables that are built in: frequency and voltage pairs.
ghost use Rattle.std.specs.Prelude.{◌≡◌};
ghost use Rattle.model.specs.BuiltIn.{first_built_in, second_built_in};

use model::Level;

const FIRST: [Level; 5] = [
    Level {
        frequency: 300,
        voltage: 90,
    },
    Level {
        frequency: 400,
        voltage: 100,
    },
    Level {
        frequency: 533,
        voltage: 110,
    },
    Level {
        frequency: 667,
        voltage: 120,
    },
    Level {
        frequency: 800,
        voltage: 130,
    },
];

const SECOND: [Level; 5] = [
    Level {
        frequency: 300,
        voltage: 140,
    },
    Level {
        frequency: 350,
        voltage: 150,
    },
    Level {
        frequency: 400,
        voltage: 160,
    },
    Level {
        frequency: 450,
        voltage: 170,
    },
    Level {
        frequency: 500,
        voltage: 180,
    },
];

pub fn first_built_in() -> [Level; 5]
    ensures { result ≡ first_built_in }
{
    FIRST
}

pub fn second_built_in() -> [Level; 5]
    ensures { result ≡ second_built_in }
{
    SECOND
}
