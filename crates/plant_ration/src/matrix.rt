//! The priority matrix: it gives an alarm's priority from the severity of its consequence and the time to respond.
//! Only an ordered matrix can be made.

ghost use Rattle.std.specs.{List.Sorted.{IsStrictlyIncreasing}, Prelude.{◌≡◌, ◌↔◌, IfOk, IsSome, Ok, Err, map, IsTrue}};
ghost use Rattle.plant_types.specs.Results.{OnlyMemory};
ghost use Rattle.plant_ration.specs.{Matrix.{matrix_of, priority_of, is_row, is_matrix, IsOrdered}, declared.cell.MatrixFault.{MatrixFault}};

use crate::{Cell, MatrixFault, shape};
use plant_types::{Fault, Seconds};
use std::alloc::Global;
use std::marker::Model;

/// The priority of an alarm by the severity of its consequence and the time to respond.
///
/// It has 1 to 5 rows of severity and 1 to 5 bands of time, divided by 0 to 4 limits in seconds;
/// the last band has no end. From one row to the next more severe, and from one band to the next
/// shorter, the priority stays the same or becomes higher. Contracts see a matrix as its limits and cells.
#[derive(Debug, Drop)]
pub struct Matrix {
    limits: Vec<u64>,
    cells: Vec<Vec<Cell>>,
}

impl Model for Matrix {
    ghost use Rattle.std.specs.Prelude.{map, IsTrue};
    ghost use Rattle.plant_ration.specs.{Grid.{Grid}, Matrix.{is_matrix}};

    ghost Value = { Grid };

    ghost view = { λ m. record { limits = m.limits.items; cells = map (λ row. row.items) m.cells.items } };

    ghost invariant = { λ m. IsTrue (is_matrix m.limits.items (map (λ row. row.items) m.cells.items)) };
}

impl Matrix {
    /// The matrix with these limits and cells, or their first fault.
    pub fn new(
        alloc: Global,
        limits: &[u64],
        cells: &[Vec<Cell>],
    ) -> Result<Result<Matrix, MatrixFault>, Fault>
        ensures value { IfOk result (λ made. made
            ≡ matrix_of limits.now (map (λ row. row.items) cells.now)) }
        ensures err { OnlyMemory result }

        // Reporting a fault takes no memory.
        ensures faulty { (fault : MatrixFault)
            → matrix_of limits.now (map (λ row. row.items) cells.now) ≡ Err fault
            → result ≡ Ok (Err fault) }
    {
        if !shape::has_shape(limits, cells) {
            return Ok(Err(MatrixFault::Shape));
        }
        if !shape::is_rising(limits) {
            return Ok(Err(MatrixFault::BandsNotRising));
        }
        if !shape::is_ordered(cells) {
            return Ok(Err(MatrixFault::NotOrdered));
        }
        Ok(Ok(Matrix {
            limits: limits.to_vec(alloc)?,
            cells: shape::copy_of(alloc, cells)?,
        }))
    }

    /// The cell in the row of the severity, from 1, and in the band of the time to respond: the first
    /// band whose limit is above that time, else the last. `None` exactly if the matrix has no row for the severity.
    pub fn priority(&self, severity: u8, response: Seconds) -> Option<Cell>
        ensures value { result ≡ priority_of self.now severity response }
        ensures row { IsSome result ↔ IsTrue (is_row self.now severity) }
    {
        if severity == 0 {
            return None;
        }
        let row = shape::row_at(&self.cells, severity as usize - 1)?;
        shape::cell_at(row, shape::band(&self.limits, response.get()))
    }

    /// The limits between the bands, in seconds, rising.
    pub fn limits(&self) -> &[u64]
        ensures { result.now ≡ self.now.limits }
    {
        &self.limits
    }

    /// The rows, the least severe first.
    pub fn cells(&self) -> &[Vec<Cell>]
        ensures value { map (λ row. row.items) result.now ≡ self.now.cells }
        ensures is_matrix { IsTrue (is_matrix self.now.limits self.now.cells) }

        // In other words: the limits rise, and no cell is lower than its neighbours allow.
        ensures rising { IsStrictlyIncreasing self.now.limits }
        ensures ordered { IsOrdered self.now.cells }
    {
        &self.cells
    }

    /// A copy of the matrix.
    pub fn copy(&self, alloc: Global) -> Result<Matrix, Fault>
        ensures value { IfOk result (λ matrix. matrix ≡ self.now) }
        ensures memory { OnlyMemory result }
    {
        Ok(Matrix {
            limits: self.limits.to_vec(alloc)?,
            cells: shape::copy_of(alloc, &self.cells)?,
        })
    }
}
