//! Type tables: the source of code's inputs. A table keeps the fraction bits of its numbers, so that code needn't.

ghost use Rattle.std.specs.Prelude.{◌≡◌, ◌<◌, ◌≤◌, ℤ, length, map, slice_get};
ghost use Rattle.std.specs.List.{All};
ghost use Rattle.kernel_code.specs.Tables.{Table, IsTable, inputs_of};

use crate::inputs::InputNumber;
use fixed::{Frac, Fx};
use std::alloc::Allocator;
use std::marker::Model;

/// The parameter values of each atom type, and the global values that all pairs share.
#[derive(Drop)]
pub struct TypeTable<A: Allocator> {
    frac: Frac,
    parameters: usize,
    rows: Vec<Vec<Fx, A>, A>,
    globals: Vec<Fx, A>,
}

impl<A: Allocator> Model for TypeTable<A> {
    ghost use Rattle.std.specs.Prelude.{map};
    ghost use Rattle.kernel_code.specs.Tables.{Table, IsTable};

    ghost Value = { Table };

    ghost view = { λ t. record {
      frac = t.frac;
      parameters = t.parameters;
      rows = map (λ row. row.items) t.rows.items;
      globals = t.globals.items;
    } };

    ghost invariant = { λ t. IsTable (record {
      frac = t.frac;
      parameters = t.parameters;
      rows = map (λ row. row.items) t.rows.items;
      globals = t.globals.items;
    }) };
}

impl<A: Allocator> TypeTable<A> {
    /// The table of these types, at most 64, possibly none. Each row has one value per parameter, of which there are at
    /// most 8. There are at most 16 globals.
    ///
    /// All numbers have the fraction bits `frac`.
    pub fn new(
        frac: Frac,
        parameters: usize,
        rows: Vec<Vec<Fx, A>, A>,
        globals: Vec<Fx, A>,
    ) -> TypeTable<A>
        requires whole { All (λ row. length row.items ≡ parameters) rows.items }
        requires few_parameters { parameters ≤ 8 }
        requires few_types { length rows.items ≤ 64 }
        requires few_globals { length globals.items ≤ 16 }
        ensures frac { result.frac ≡ frac }
        ensures parameters { result.parameters ≡ parameters }
        ensures rows { result.rows ≡ map (λ row. row.items) rows.items }
        ensures globals { result.globals ≡ globals.items }
    {
        TypeTable {
            frac,
            parameters,
            rows,
            globals,
        }
    }

    /// The number of fraction bits.
    pub fn frac(&self) -> Frac
        ensures { result ≡ self.now.frac }
    {
        self.frac
    }

    /// The number of parameters per particle, at most 8.
    pub fn parameters(&self) -> usize
        ensures value { result ≡ self.now.parameters }
        ensures table { IsTable self.now }
    {
        self.parameters
    }

    /// The number of types, at most 64.
    pub fn types(&self) -> u32
        ensures value { result ≡ length self.now.rows }
        ensures bound { result ≤ 64 }
    {
        self.rows.len() as u32
    }

    /// The number of globals, at most 16.
    pub fn globals(&self) -> usize
        ensures value { result ≡ length self.now.globals }
        ensures bound { result ≤ 16 }
    {
        self.globals.len()
    }

    /// The input with this number, of a pair of these types at the distance `r`: inputs are `r`, the parameters of
    /// particle 1, the parameters of particle 2, and the globals. `None` if there are fewer. `a` and `b` are types of
    /// the table, from 0.
    #[tactic(auto, using(std::proofs::lemmas::Grind::elements))]
    pub fn input(&self, a: u32, b: u32, r: Fx, number: InputNumber) -> Option<Fx>
        requires first { a < length self.now.rows }
        requires second { b < length self.now.rows }
        ensures { result ≡ slice_get (inputs_of self.now a b r) number }
    {
        let number = number.get() as usize;
        if number == 0 {
            return Some(r);
        }
        let first = number - 1;
        if first < self.parameters {
            return self.rows[a as usize].get(first).copied();
        }
        let second = first - self.parameters;
        if second < self.parameters {
            return self.rows[b as usize].get(second).copied();
        }
        self.globals.get(second - self.parameters).copied()
    }

    /// The inputs of a pair of these types at the distance `r`.
    pub fn inputs(&self, a: u32, b: u32, r: Fx) -> Inputs<'_, A>
        requires first { a < length self.now.rows }
        requires second { b < length self.now.rows }
        ensures { result ≡ inputs_of self.now a b r }
    {
        Inputs {
            table: self,
            a,
            b,
            r,
        }
    }
}

/// The inputs of a pair of types at a distance. In contracts, it is the list of them.
#[derive(Drop)]
pub struct Inputs<'a, A: Allocator> {
    table: &'a TypeTable<A>,
    a: u32,
    b: u32,
    r: Fx,
}

impl<'a, A: Allocator> Model for Inputs<'a, A> {
    ghost use Rattle.std.specs.Prelude.{List, ℤ, ◌<◌, length};
    ghost use Rattle.kernel_code.specs.Tables.{inputs_of};

    ghost Value = { List ℤ };

    ghost view = { λ x. inputs_of x.table.now x.a x.b x.r };

    ghost invariant = { λ x. (x.a < length x.table.now.rows) × (x.b < length x.table.now.rows) };
}

impl<'a, A: Allocator> Inputs<'a, A> {
    /// The input with this number; `None` if there are fewer.
    pub fn get(&self, number: InputNumber) -> Option<Fx>
        ensures { result ≡ slice_get self.now number }
    {
        self.table.input(self.a, self.b, self.r, number)
    }
}
