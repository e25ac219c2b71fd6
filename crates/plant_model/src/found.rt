//! Looks up alarms by their tags.

ghost use Rattle.std.specs.Prelude.{◌≡◌, option_copied};
ghost use Rattle.plant_model.specs.steps.RowFacts.{alarm_tag};
ghost use Rattle.plant_types.specs.{KeyedRows.{row_at}, Names.{name_cmp}};
ghost use Rattle.plant_model.specs.steps.RowFacts as facts;

use crate::AlarmRow;
use plant_types::{Moment, Tag};

/// The alarm with the tag, if any.
pub fn alarm_of<'a>(alarms: &'a [AlarmRow], tag: &Tag) -> Option<&'a AlarmRow>
    ensures { option_copied result ≡ row_at name_cmp alarm_tag tag.now alarms.now }
{
    alarms.iter().find(|row| *tag == row.tag)
}

/// When the alarm with the tag last returned to normal, if ever.
pub fn last_return(alarms: &[AlarmRow], tag: &Tag) -> Option<Moment>
    ensures { result ≡ facts.last_return_in alarms.now tag.now }
{
    alarm_of(alarms, tag).and_then(|alarm| alarm.return_s)
}
