//! The values of the variables of a job's energy.

ghost use Rattle.std.specs.Prelude.{◌≡◌, map, IfOk};
ghost use Rattle.job.specs.Views.{global_value, job_value, type_value};
ghost use Rattle.potential.specs.Tables.{global_values, numbers_of, table_of, type_rows};

use fixed::{Constant, Fx};
use job::{AtomType, Global, Job};
use kernel_code::TypeTable;
use std::alloc::{AllocError, Allocator};

/// The numbers of these constants, in order.
fn numbers<A: Allocator + Copy>(alloc: A, constants: &[Constant]) -> Result<Vec<Fx, A>, AllocError>
    ensures value { IfOk result (λ v. v.items ≡ numbers_of constants.now) }
{
    let mut numbers = Vec::new(alloc);
    for constant in constants {
        numbers.push(constant.value)?;
    }
    Ok(numbers)
}

/// The parameter values of each type, in the order of the types.
fn rows<A: Allocator + Copy>(
    alloc: A,
    types: &[AtomType<A>],
) -> Result<Vec<Vec<Fx, A>, A>, AllocError>
    ensures value { IfOk result (λ v. map (λ row. row.items) v.items ≡ type_rows (map type_value types.now)) }
{
    let mut rows = Vec::new(alloc);
    for kind in types {
        rows.push(numbers(alloc, &kind.values)?)?;
    }
    Ok(rows)
}

/// The values of these globals, in order.
fn global_values<A: Allocator + Copy>(
    alloc: A,
    globals: &[Global<A>],
) -> Result<Vec<Fx, A>, AllocError>
    ensures value { IfOk result (λ v. v.items ≡ global_values (map global_value globals.now)) }
{
    let mut values = Vec::new(alloc);
    for global in globals {
        values.push(global.value.value)?;
    }
    Ok(values)
}

/// The table of a job's types and globals, without the errors of reading. `AllocError`: memory ran out.
pub fn type_table<A: Allocator + Copy>(alloc: A, job: &Job<A>) -> Result<TypeTable<A>, AllocError>
    ensures value { IfOk result (λ t. t ≡ table_of (job_value job.now)) }
{
    let rows = rows(alloc, &job.types)?;
    let globals = global_values(alloc, &job.globals)?;
    Ok(TypeTable::new(job.frac, job.parameters.len(), rows, globals))
}
