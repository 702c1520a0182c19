// The figures in the order of the report.
ghost use Rattle.std.specs.Prelude.{◌≡◌};
ghost use Rattle.rules.specs.Criteria.{phi0_figure};
ghost use Rattle.rules.specs.Report.{judgement};
ghost use Rattle.book.specs.Book.{loaded_of};

use super::measures::Measures;

impl Measures {
    // phi0, and -1 where there is none.
    fn heel(&self) -> i64
        ensures { result ≡ phi0_figure (loaded_of self.now.ship.loaded) }
    {
        match self.wind.phi0 {
            Some(phi0) => phi0 as i64,
            None => -1,
        }
    }

    pub fn figures(&self) -> [i64; 11]
        ensures { result ≡ (judgement (loaded_of self.now.ship.loaded)).figures }
    {
        let righting = self.righting;
        [
            self.ship.loaded.w as i64,
            self.ship.loaded.kg as i64,
            righting.gm,
            righting.area1,
            righting.area2,
            righting.area3,
            righting.lever,
            righting.angle,
            self.heel(),
            self.eighth.roll,
            self.eighth.net,
        ]
    }
}
