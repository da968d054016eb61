// The trim class of a density, and of readings.
ghost use Rattle.std.specs.Prelude.{◌≡◌};
ghost use Rattle.trim.specs.Classes.{trim_class, class_of};
ghost use Rattle.refusal.specs.Outcomes.{outcome};

use mast::judge::judge_readings;
use record::entries::Readings;
use refusal::Refusal;

// kg/m3
pub const CLASS_DENSITIES: [f64; 6] = [1.0, 1.05, 1.1, 1.15, 1.2, 1.25];

// The trim class of a density, kg/m3: how many of the class densities are at or below it.
pub fn trim_class(density_kg_m3: f64) -> u8
    ensures { result ≡ trim_class density_kg_m3 }
{
    let mut class = 0;
    for i in 0..6 {
        if CLASS_DENSITIES[i] <= density_kg_m3 {
            class += 1;
        }
    }
    class
}

// The trim class of readings, or their refusal.
#[tactic(auto, unfolding(crate::specs::Classes::class_of))]
pub(crate) fn class_of(readings: Readings) -> Result<u8, Refusal>
    ensures { outcome result ≡ class_of readings }
{
    let figures = judge_readings(readings)?;
    Ok(trim_class(figures.density_kg_m3))
}
