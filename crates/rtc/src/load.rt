// The clock from what flash holds of it.
ghost use Rattle.std.specs.Prelude.{◌≡◌};
ghost use Rattle.model.specs.Clock.{load};
ghost use Rattle.rtc.specs.Meaning.{clock_of, option_source, loaded_of};

use crate::{Rtc, TrustedTimeSource};
use model::Refusal;

impl Rtc {
    // Loads what is persisted; a source with fabric index 0 is a bad record, and the clock stays as it is.
    #[tactic(auto, unfolding(model::specs::Clock::load))]
    pub fn load_persist(
        self,
        build: u64,
        stored: Option<u64>,
        source: Option<TrustedTimeSource>,
    ) -> Result<Rtc, Refusal>
        ensures { loaded_of (clock_of self) result ≡ load build (clock_of self) stored (option_source source) }
    {
        if source.is_some_and(|s| s.fab_idx == 0) {
            return Err(Refusal::BadRecord);
        }
        // Of the clock before nothing is left, not its anchor either.
        let moment = stored.unwrap_or(build);
        Ok(Rtc {
            utc_us: moment.max(build),
            utc_us_persisted: moment,
            trusted_time_source: source,
            ..Rtc::new(build)
        })
    }
}
