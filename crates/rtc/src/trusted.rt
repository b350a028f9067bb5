// The trusted time source.
ghost use Rattle.std.specs.Prelude.{◌≡◌};
ghost use Rattle.model.specs.Clock.{set_trusted_time_source, set_trusted_time_source_persist};
ghost use Rattle.rtc.specs.Meaning.{clock_of, option_source, source_set_of, source_persisted_of};

use crate::{Rtc, SourceChange, SourceSet, TrustedTimeSource};

impl Rtc {
    // The trusted time source, or that there is none.
    pub fn trusted_time_source(self) -> Option<TrustedTimeSource>
        ensures { option_source result ≡ (clock_of self).trusted }
    {
        self.trusted_time_source
    }

    // Installs or clears the trusted time source. The change says what is reported and, where the source is persisted, stored or removed.
    #[tactic(auto, unfolding(model::specs::Clock::set_trusted_time_source, model::specs::Clock::set_trusted_time_source_persist))]
    pub fn set_trusted_time_source(self, source: Option<TrustedTimeSource>) -> SourceSet
        ensures set { source_set_of result ≡ set_trusted_time_source (clock_of self) (option_source source) }
        ensures persisted { source_persisted_of result ≡ set_trusted_time_source_persist (clock_of self) (option_source source) }
    {
        if self.trusted_time_source == source {
            return SourceSet {
                rtc: self,
                change: SourceChange::Same,
            };
        }
        SourceSet {
            rtc: Rtc {
                trusted_time_source: source,
                ..self
            },
            change: source.map_or(SourceChange::Cleared, SourceChange::Installed),
        }
    }
}
