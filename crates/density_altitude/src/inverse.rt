// The FAA's rule turned round: the station whose air has a given density altitude, with a given
// temperature or the standard one.
ghost use Rattle.std.specs.Prelude.{◌≡◌};
ghost use Rattle.arithmetic.specs.Doubles.{is_finite_above};
ghost use Rattle.refusal.specs.Outcomes.{accepted, passed, ◌then◌, outcome};
ghost use Rattle.density_altitude.specs.Inverse.{station_with, resolve, has_air, temperature_rows, given_rows, resolved_rows, station};
ghost use Rattle.arithmetic.specs.Places.{places};

use arithmetic::doubles::is_finite;
use atmosphere::altitudes::{
    DA_FAA_RULE_FT_PER_DEG_F, DA_FT_TO_M, DA_NWS_LAPSE_F_PER_1000FT, DA_NWS_PRESSURE_ALT_FT,
    DA_NWS_SEA_LEVEL_HPA, DA_NWS_SEA_LEVEL_TEMP_F,
};
use atmosphere::given::Reading;
use elementary::power::power;
use refusal::inverse::Station;
use refusal::{Refusal, first_of, refuse_if};

// the number of the exponent 1 / 0.190284 in elementary's table
const DA_NWS_EXPONENT_RECIPROCAL: usize = 12;

const ABSOLUTE_ZERO_C: f64 = -273.15;

// The altitude, temperature and pressure that a density altitude resolves to, whether or not a station
// can have them.
pub fn resolve_atmosphere_for_density_altitude(
    density_altitude_m: f64,
    explicit_temperature_c: Reading,
) -> Station
    ensures { result ≡ resolve places density_altitude_m explicit_temperature_c }
{
    let density_altitude_ft = density_altitude_m / DA_FT_TO_M;
    match explicit_temperature_c {
        Reading::Given(temp_c) => {
            let temp_f = temp_c * 9.0 / 5.0 + 32.0;
            let denom = 1.0 + DA_FAA_RULE_FT_PER_DEG_F * DA_NWS_LAPSE_F_PER_1000FT / 1000.0;
            let pressure_alt_ft = (density_altitude_ft
                - DA_FAA_RULE_FT_PER_DEG_F * (temp_f - DA_NWS_SEA_LEVEL_TEMP_F))
                / denom;
            station_at(pressure_alt_ft, temp_c)
        }
        Reading::FromLayer => {
            let isa_temp_f = DA_NWS_SEA_LEVEL_TEMP_F
                - density_altitude_ft / 1000.0 * DA_NWS_LAPSE_F_PER_1000FT;
            station_at(density_altitude_ft, (isa_temp_f - 32.0) * 5.0 / 9.0)
        }
    }
}

// The station at a pressure altitude.
fn station_at(pressure_alt_ft: f64, temperature_c: f64) -> Station
    ensures { result ≡ station_with places pressure_alt_ft temperature_c }
{
    Station {
        altitude_m: pressure_alt_ft * DA_FT_TO_M,
        temperature_c: temperature_c,
        pressure_hpa: DA_NWS_SEA_LEVEL_HPA
            * power(
                1.0 - pressure_alt_ft / DA_NWS_PRESSURE_ALT_FT,
                DA_NWS_EXPONENT_RECIPROCAL,
            ),
    }
}

// Whether x is finite and above a bound.
pub fn is_finite_above(x: f64, bound: f64) -> bool
    ensures { result ≡ is_finite_above bound x }
{
    is_finite(x) && x > bound
}

// whether a station can exist
fn has_air(station: Station) -> bool
    ensures { result ≡ has_air station }
{
    is_finite(station.altitude_m)
        && is_finite_above(station.pressure_hpa, 0.0)
        && is_finite_above(station.temperature_c, ABSOLUTE_ZERO_C)
}

// The resolved station, or that there is no air.
fn checked_station(
    density_altitude_m: f64,
    explicit_temperature_c: Reading,
) -> Result<Station, Refusal>
    ensures { outcome result ≡ (resolved_rows density_altitude_m (resolve places density_altitude_m explicit_temperature_c)
        then accepted (resolve places density_altitude_m explicit_temperature_c)) }
{
    let station = resolve_atmosphere_for_density_altitude(
        density_altitude_m,
        explicit_temperature_c,
    );
    if has_air(station) {
        return Ok(station);
    }
    Err(Refusal::NoAir(density_altitude_m, station.altitude_m))
}

// Whether a temperature can be one, or its refusal: the causes 2 and 3.
pub fn check_temperature(temperature_c: f64) -> Result<(), Refusal>
    ensures { outcome result ≡ passed (temperature_rows temperature_c) }
{
    first_of(
        refuse_if(
            !is_finite(temperature_c),
            Refusal::TemperatureNotFinite(temperature_c),
        ),
        refuse_if(
            temperature_c <= ABSOLUTE_ZERO_C,
            Refusal::TemperatureTooLow(temperature_c),
        ),
    )
}

fn check_given(explicit_temperature_c: Reading) -> Result<(), Refusal>
    ensures { outcome result ≡ passed (given_rows explicit_temperature_c) }
{
    match explicit_temperature_c {
        Reading::Given(temperature_c) => check_temperature(temperature_c),
        Reading::FromLayer => Ok(()),
    }
}

// The station with a density altitude, or why there is none: the causes 1 to 4 in their order.
pub fn station_for_density_altitude(
    density_altitude_m: f64,
    explicit_temperature_c: Reading,
) -> Result<Station, Refusal>
    ensures { outcome result ≡ station places density_altitude_m explicit_temperature_c }
{
    let altitude = refuse_if(
        !is_finite(density_altitude_m),
        Refusal::DensityAltitudeNotFinite(density_altitude_m),
    );
    first_of(altitude, check_given(explicit_temperature_c))?;
    checked_station(density_altitude_m, explicit_temperature_c)
}
