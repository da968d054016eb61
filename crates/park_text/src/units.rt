// The units of typed numbers: the unit that a name stands for, and the reading of a number's count, the
// double nearest to its exact value.
#![tactic(auto, using(pages::proofs::Same::same_is))]

ghost use Rattle.std.specs.Prelude.{◌≡◌};
ghost use Rattle.park_text.specs.Units.{unit_in, unit_named, places_of, numerator_of, denominator_of, reading_in};

use fields::fields::{ALTITUDE, DENSITY_ALTITUDE, HUMIDITY, TEMPERATURE};

// What a number counts: the unit in which its reading is kept (m, C, hPa or percent), or another one.
#[derive(Clone, Copy, Debug, PartialEq, Eq)]
pub enum Unit {
    Plain,
    Foot,
    Fahrenheit,
    Kelvin,
    Kilopascal,
    InchOfMercury,
}

// The names of units, by the quantity that they measure.
const OF_LENGTH: [(&[u8], Unit); 2] = [(b"m", Unit::Plain), (b"ft", Unit::Foot)];

const OF_TEMPERATURE: [(&[u8], Unit); 3] = [
    (b"C", Unit::Plain),
    (b"F", Unit::Fahrenheit),
    (b"K", Unit::Kelvin),
];

const OF_PRESSURE: [(&[u8], Unit); 3] = [
    (b"hPa", Unit::Plain),
    (b"kPa", Unit::Kilopascal),
    (b"inHg", Unit::InchOfMercury),
];

const OF_HUMIDITY: [(&[u8], Unit); 2] = [(b"percent", Unit::Plain), (b"%", Unit::Plain)];

// The unit that a name of a table stands for.
fn unit_in(names: &[(&[u8], Unit)], name: &[u8]) -> Option<Unit>
    ensures { result ≡ unit_in names.now name.now }
{
    names
        .iter()
        .find(|(known, _)| name == *known)
        .map(|&(_, unit)| unit)
}

// The unit of a meaning that a name stands for, and no name for the unit of the reading.
#[tactic(auto, using(pages::proofs::Same::same_is), unfolding(crate::specs::Units::unit_named))]
pub(crate) fn unit_named(meaning: usize, name: &[u8]) -> Option<Unit>
    ensures { result ≡ unit_named meaning name.now }
{
    if name.is_empty() {
        return Some(Unit::Plain);
    }
    match meaning {
        ALTITUDE | DENSITY_ALTITUDE => unit_in(&OF_LENGTH, name),
        TEMPERATURE => unit_in(&OF_TEMPERATURE, name),
        HUMIDITY => unit_in(&OF_HUMIDITY, name),
        _ => unit_in(&OF_PRESSURE, name),
    }
}

impl Unit {
    // How many decimals a number has at most.
    pub(crate) fn places(self) -> usize
        ensures { result ≡ places_of self }
    {
        match self {
            Unit::Plain => 3,
            Unit::Foot => 3,
            Unit::Fahrenheit => 3,
            Unit::Kelvin => 3,
            Unit::Kilopascal => 3,
            Unit::InchOfMercury => 4,
        }
    }

    fn numerator(self, count: i32) -> i64
        ensures { result ≡ numerator_of self count }
    {
        let n = i64::from(count);
        match self {
            Unit::Plain => n,
            Unit::Foot => n * 3048,
            Unit::Fahrenheit => n - 32000,
            Unit::Kelvin => n - 273150,
            Unit::Kilopascal => n,
            Unit::InchOfMercury => n * 338639,
        }
    }

    fn denominator(self) -> u32
        ensures { result ≡ denominator_of self }
    {
        match self {
            Unit::Plain => 1000,
            Unit::Foot => 10_000_000,
            Unit::Fahrenheit => 1800,
            Unit::Kelvin => 1000,
            Unit::Kilopascal => 100,
            Unit::InchOfMercury => 100_000_000,
        }
    }

    // The reading of a count of the last decimal. Its numerator and denominator are doubles exactly, so that
    // the quotient is rounded once.
    pub(crate) fn reading(self, count: i32) -> f64
        ensures { result ≡ reading_in self count }
    {
        self.numerator(count) as f64 / f64::from(self.denominator())
    }
}
