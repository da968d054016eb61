// Demand 3, promised of three calls, and what follows for two.
ghost use Rattle.std.specs.Prelude.{◌≡◌, T};
ghost use Rattle.std.specs.Float.Ieee.{le};
ghost use Rattle.density_altitude.specs.Inverse.{station};
ghost use Rattle.refusal.specs.Outcomes.{outcome};
ghost use Rattle.density_order.specs.Order.{Accepted, Demand₃, TwoInOrder};
ghost use Rattle.arithmetic.specs.Places.{places};

use atmosphere::given::Reading;
use density_altitude::inverse::station_for_density_altitude;
use refusal::Refusal;
use refusal::inverse::Station;

#[derive(Clone, Copy)]
pub struct Stations {
    pub low: Result<Station, Refusal>,
    pub middle: Result<Station, Refusal>,
    pub high: Result<Station, Refusal>,
}

// The stations with three density altitudes, for one given temperature or for none.
pub fn stations_for_density_altitudes(
    low_m: f64,
    middle_m: f64,
    high_m: f64,
    explicit_temperature_c: Reading,
) -> Stations
    ensures { (outcome result.low ≡ station places low_m explicit_temperature_c)
        × ((outcome result.middle ≡ station places middle_m explicit_temperature_c)
        × ((outcome result.high ≡ station places high_m explicit_temperature_c)
        × (T (le low_m middle_m) → T (le middle_m high_m) → Accepted (outcome result.low) → Accepted (outcome result.high)
        → Demand₃ explicit_temperature_c low_m high_m (outcome result.low) (outcome result.middle) (outcome result.high)))) }
{
    Stations {
        low: station_for_density_altitude(low_m, explicit_temperature_c),
        middle: station_for_density_altitude(middle_m, explicit_temperature_c),
        high: station_for_density_altitude(high_m, explicit_temperature_c),
    }
}

#[derive(Clone, Copy)]
pub struct Pair {
    pub low: Result<Station, Refusal>,
    pub high: Result<Station, Refusal>,
}

// The stations with two density altitudes, for one given temperature or for none.
pub fn two_stations_for_density_altitudes(
    low_m: f64,
    high_m: f64,
    explicit_temperature_c: Reading,
) -> Pair
    ensures { (outcome result.low ≡ station places low_m explicit_temperature_c)
        × ((outcome result.high ≡ station places high_m explicit_temperature_c)
        × TwoInOrder explicit_temperature_c low_m high_m (outcome result.low) (outcome result.high)) }
{
    let stations = stations_for_density_altitudes(low_m, low_m, high_m, explicit_temperature_c);
    let low = stations.low;
    let high = stations.high;
    Pair {
        low: low,
        high: high,
    }
}
