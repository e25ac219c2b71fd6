//! The key of each table's rows, by which they are ordered and found.

use crate::{AlarmRow, BandRow, CellRow, ChangeEntry, GrantRow, RecordEntry, ShelfRow};
use plant_types::{Keyed, Person, Role, Tag};
use std::cmp::Ordering;

impl Keyed for GrantRow {
    ghost use Rattle.plant_types.{specs.Roles.{pair_cmp}, proofs.public.Orders.{pair_total, same_pairs}};

    type Key = (Person, Role);

    ghost order = { pair_cmp };

    ghost key = { λ g. (g.person, g.role_no) };

    ghost total = { pair_total };

    ghost only = { same_pairs };

    fn key_cmp(&self, other: &(Person, Role)) -> Ordering {
        self.person
            .cmp(&other.0)
            .then(self.role_no.number().cmp(&other.1.number()))
    }

    fn row_cmp(&self, other: &GrantRow) -> Ordering {
        self.person
            .cmp(&other.person)
            .then(self.role_no.number().cmp(&other.role_no.number()))
    }
}

impl Keyed for AlarmRow {
    ghost use Rattle.plant_types.{specs.Names.{name_cmp}, proofs.public.Orders.{name_total, same_names}};

    type Key = Tag;

    ghost order = { name_cmp };

    ghost key = { λ r. r.tag };

    ghost total = { name_total };

    ghost only = { same_names };

    fn key_cmp(&self, other: &Tag) -> Ordering {
        self.tag.cmp(other)
    }

    fn row_cmp(&self, other: &AlarmRow) -> Ordering {
        self.tag.cmp(&other.tag)
    }
}

impl Keyed for ShelfRow {
    ghost use Rattle.plant_types.{specs.Names.{name_cmp}, proofs.public.Orders.{name_total, same_names}};

    type Key = Tag;

    ghost order = { name_cmp };

    ghost key = { λ r. r.tag };

    ghost total = { name_total };

    ghost only = { same_names };

    fn key_cmp(&self, other: &Tag) -> Ordering {
        self.tag.cmp(other)
    }

    fn row_cmp(&self, other: &ShelfRow) -> Ordering {
        self.tag.cmp(&other.tag)
    }
}

impl Keyed for RecordEntry {
    ghost use Rattle.plant_types.{specs.Names.{name_cmp}, proofs.public.Orders.{name_total, same_names}};

    type Key = Tag;

    ghost order = { name_cmp };

    ghost key = { λ r. r.tag };

    ghost total = { name_total };

    ghost only = { same_names };

    fn key_cmp(&self, other: &Tag) -> Ordering {
        self.tag.cmp(other)
    }

    fn row_cmp(&self, other: &RecordEntry) -> Ordering {
        self.tag.cmp(&other.tag)
    }
}

impl Keyed for BandRow {
    ghost use Rattle.plant_model.specs.{Matrices.{band_cmp}, PlaceOrders.{band_total, same_bands}};

    type Key = (u32, u8);

    ghost order = { band_cmp };

    ghost key = { λ r. (r.matrix_no, r.band_no) };

    ghost total = { band_total };

    ghost only = { same_bands };

    fn key_cmp(&self, other: &(u32, u8)) -> Ordering {
        (self.matrix_no, self.band_no).cmp(other)
    }

    fn row_cmp(&self, other: &BandRow) -> Ordering {
        (self.matrix_no, self.band_no).cmp(&(other.matrix_no, other.band_no))
    }
}

impl Keyed for CellRow {
    ghost use Rattle.plant_model.specs.{Matrices.{cell_cmp}, PlaceOrders.{cell_total, same_cells}};

    type Key = (u32, u8, u8);

    ghost order = { cell_cmp };

    ghost key = { λ r. (r.matrix_no, r.severity, r.band_no) };

    ghost total = { cell_total };

    ghost only = { same_cells };

    fn key_cmp(&self, other: &(u32, u8, u8)) -> Ordering {
        (self.matrix_no, self.severity, self.band_no).cmp(other)
    }

    fn row_cmp(&self, other: &CellRow) -> Ordering {
        let key = (other.matrix_no, other.severity, other.band_no);
        (self.matrix_no, self.severity, self.band_no).cmp(&key)
    }
}

impl Keyed for ChangeEntry {
    ghost use Rattle.std.specs.Ordering.{nat_cmp};
    ghost use Rattle.plant_types.proofs.public.Orders.{number_total, same_numbers};

    type Key = u32;

    ghost order = { nat_cmp };

    ghost key = { λ c. c.number };

    ghost total = { number_total };

    ghost only = { same_numbers };

    fn key_cmp(&self, other: &u32) -> Ordering {
        self.number.cmp(other)
    }

    fn row_cmp(&self, other: &ChangeEntry) -> Ordering {
        self.number.cmp(&other.number)
    }
}
