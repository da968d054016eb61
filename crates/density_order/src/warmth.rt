// Warmer means lower, promised of three calls of the inverse and of two of the FAA's rule.
ghost use Rattle.std.specs.Prelude.{◌≡◌};
ghost use Rattle.atmosphere.specs.declared.given.Reading.TheVariants.{Given};
ghost use Rattle.atmosphere.specs.Altitudes.{faa_density_altitude};
ghost use Rattle.density_altitude.specs.Inverse.{station};
ghost use Rattle.refusal.specs.Outcomes.{outcome};
ghost use Rattle.density_order.specs.Warmer.{WarmerMeansLower, FaaNeverFalls};
ghost use Rattle.arithmetic.specs.Places.{places};

use atmosphere::altitudes::faa_rule_density_altitude_ft;
use atmosphere::given::Reading;
use density_altitude::inverse::station_for_density_altitude;
use refusal::Refusal;
use refusal::inverse::Station;

#[derive(Clone, Copy)]
pub struct ByWarmth {
    pub cold: Result<Station, Refusal>,
    pub middle: Result<Station, Refusal>,
    pub warm: Result<Station, Refusal>,
}

// The stations with one density altitude at three given temperatures.
pub fn stations_for_temperatures(
    density_altitude_m: f64,
    cold_c: f64,
    middle_c: f64,
    warm_c: f64,
) -> ByWarmth
    ensures { (outcome result.cold ≡ station places density_altitude_m (Given cold_c))
        × ((outcome result.middle ≡ station places density_altitude_m (Given middle_c))
        × ((outcome result.warm ≡ station places density_altitude_m (Given warm_c))
        × WarmerMeansLower cold_c middle_c warm_c (outcome result.cold) (outcome result.middle) (outcome result.warm))) }
{
    ByWarmth {
        cold: station_for_density_altitude(density_altitude_m, Reading::Given(cold_c)),
        middle: station_for_density_altitude(density_altitude_m, Reading::Given(middle_c)),
        warm: station_for_density_altitude(density_altitude_m, Reading::Given(warm_c)),
    }
}

#[derive(Clone, Copy)]
pub struct FaaByWarmth {
    pub cold_ft: f64,
    pub warm_ft: f64,
}

// The FAA's density altitudes, ft, of one pressure at two temperatures in degrees Fahrenheit.
pub fn faa_density_altitudes_ft(station_pressure_hpa: f64, cold_f: f64, warm_f: f64) -> FaaByWarmth
    ensures { (result.cold_ft ≡ faa_density_altitude places station_pressure_hpa cold_f)
        × ((result.warm_ft ≡ faa_density_altitude places station_pressure_hpa warm_f)
        × FaaNeverFalls station_pressure_hpa cold_f warm_f result.cold_ft result.warm_ft) }
{
    FaaByWarmth {
        cold_ft: faa_rule_density_altitude_ft(station_pressure_hpa, cold_f),
        warm_ft: faa_rule_density_altitude_ft(station_pressure_hpa, warm_f),
    }
}
