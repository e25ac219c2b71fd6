//! A moment as text in UTC, for the printed lists and the JSON answers.

ghost use Rattle.std.specs.Prelude.{◌≡◌};
ghost use Rattle.plant_report.specs.Moments.{moment_text};

use plant_types::Moment;

/// The text of a moment, as `2026-03-01T09:00:00Z`.
pub fn write(moment: Moment) -> [u8; 20]
    ensures { result ≡ moment_text moment }
{
    moment.write()
}
