// The rows of a setting sheet, counted from 0 at -10 degrees Celsius.
ghost use Rattle.std.specs.Prelude.{◌≡◌};
ghost use Rattle.sheet.specs.Row.{station_of_row, row_outcome};
ghost use Rattle.sheet.specs.Sheet.{celsius_of_row};
ghost use Rattle.sheet_text.specs.Rows.{row_density, is_refused, refused_row, first_below};

use atmosphere::given::Reading;
use mast::judge::answer_of;
use sheet::page::celsius;
use sheet::row::is_too_wide;
use station::figures::figures_of;
use station::resolved::Resolved;

// What the rows of a sheet share: all readings but the temperature.
#[derive(Clone, Copy)]
pub(crate) struct Site {
    pub(crate) altitude_m: f64,
    pub(crate) pressure_hpa: f64,
    pub(crate) humidity_percent: f64,
}

impl Site {
    fn station(self, n: u32) -> Resolved
        ensures { result ≡ station_of_row self.altitude_m self.pressure_hpa self.humidity_percent (celsius_of_row n) }
    {
        Resolved {
            altitude_m: self.altitude_m,
            temperature: Reading::Given(celsius(n)),
            pressure: Reading::Given(self.pressure_hpa),
            humidity_percent: self.humidity_percent,
        }
    }

    // The density in row n.
    pub(crate) fn density(self, n: u32) -> f64
        ensures { result ≡ row_density self n }
    {
        figures_of(self.station(n)).figures.density_kg_m3
    }

    #[tactic(auto, unfolding(sheet::specs::Row::row_outcome, sheet::specs::Row::figures_outcome))]
    fn is_refused(self, n: u32) -> bool
        ensures { result ≡ is_refused (row_outcome self.altitude_m self.pressure_hpa self.humidity_percent (celsius_of_row n)) }
    {
        match answer_of(self.station(n)) {
            Ok(figures) => is_too_wide(celsius(n), figures),
            Err(_) => true,
        }
    }

    // The first row that is refused.
    #[tactic(auto, unfolding(crate::specs::Rows::refused_row))]
    pub(crate) fn refused_row(self) -> Option<u32>
        ensures { result ≡ refused_row self }
    {
        (0..51).find(|&n| self.is_refused(n))
    }

    // The first row whose density is below a limit.
    #[tactic(auto, unfolding(crate::specs::Rows::first_below))]
    pub(crate) fn first_below(self, limit_kg_m3: f64) -> Option<u32>
        ensures { result ≡ first_below self limit_kg_m3 }
    {
        (0..51).find(|&n| self.density(n) < limit_kg_m3)
    }
}
