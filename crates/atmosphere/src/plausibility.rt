// How a station pressure compares with the standard atmosphere's pressure at its altitude, and whether
// both can describe one station.
ghost use Rattle.std.specs.Prelude.{◌≡◌};
ghost use Rattle.atmosphere.specs.Plausibility.{implausible_ratio, plausibility};
ghost use Rattle.arithmetic.specs.Places.{places};

use crate::layers::calculate_icao_standard_atmosphere;

// Weather on record, with room to spare: 870 to 1089.1 hPa at sea level are 0.859 and 1.075.
const STATION_PRESSURE_MIN_PLAUSIBLE_RATIO: f64 = 0.85;

const STATION_PRESSURE_MAX_PLAUSIBLE_RATIO: f64 = 1.08;

#[derive(Clone, Copy)]
pub struct StationPressurePlausibility {
    pub icao_standard_pa: f64,
    pub ratio: f64,
    pub implausible: bool,
}

// Both ends are plausible; NaN is not.
fn is_implausible(ratio: f64) -> bool
    ensures { result ≡ implausible_ratio ratio }
{
    !(STATION_PRESSURE_MIN_PLAUSIBLE_RATIO <= ratio
        && ratio <= STATION_PRESSURE_MAX_PLAUSIBLE_RATIO)
}

// Of a station pressure, Pa, at a geometric altitude.
#[tactic(auto, unfolding(crate::specs::Plausibility::plausibility))]
pub fn station_pressure_plausibility(
    station_pressure_pa: f64,
    altitude_m: f64,
) -> StationPressurePlausibility
    ensures { result ≡ plausibility places station_pressure_pa altitude_m }
{
    let standard = calculate_icao_standard_atmosphere(altitude_m);
    let icao_standard_pa = standard.pressure_pa;
    let ratio = station_pressure_pa / icao_standard_pa;
    StationPressurePlausibility {
        icao_standard_pa,
        ratio,
        implausible: is_implausible(ratio),
    }
}
