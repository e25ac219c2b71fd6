//! The texts of the two joins: a person's grants in all units with the unit's last moment, and with the unit's shelves
//! and their alarms' last return. The proofs refer to these constants too.

pub const SELECT_UNIT_LINES: &str =
    "SELECT grants.unit, grants.role_no, grants.end_s, units.last_s FROM grants INNER JOIN units ON units.unit = grants.unit WHERE grants.person = ?1 ORDER BY grants.unit, grants.person, grants.role_no, units.unit";

pub const SELECT_SHELF_LINES: &str =
    "SELECT grants.unit, grants.role_no, grants.end_s, shelves.tag, shelves.one_shot, shelves.start_s, shelves.until_s, shelves.person, shelves.words, alarms.return_s FROM grants INNER JOIN shelves ON shelves.unit = grants.unit LEFT JOIN alarms ON alarms.unit = shelves.unit AND alarms.tag = shelves.tag WHERE grants.person = ?1 ORDER BY grants.unit";
