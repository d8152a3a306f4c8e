//! Shapes, numbered in the order of their first occurrence.
ghost use Rattle.std.specs.Prelude.{◌≡◌, [], ◌∷◌, ◌++◌, slice_get, Some, IfOk, IfSome, OnOk, OnErr};
ghost use Rattle.letter_diagram.specs.OpenTable.{IsHashed, IsFirstFree};
ghost use Rattle.letter_diagram.specs.ShapeTable.{start_of, IsFound, AddsShape};

use crate::diagrams::Shape;
use crate::open_table::{FREE, first_free};
use crate::probing::{place, scatter, slots_for};
use std::alloc::{AllocError, Global};
use std::marker::Model;

/// The result of a search for a shape.
#[derive(Clone, Copy)]
enum Found {
    /// The number of the shape.
    Number(u32),
    /// The index of a free slot for the shape.
    Free(usize),
    /// Neither: the table has no free slot.
    Nothing,
}

/// Returns the hash of a shape. The track of a test is not hashed: few tests have the same branches on different tracks.
fn start(shape: &Shape) -> usize
    ensures { result ≡ start_of shape.now }
{
    match shape {
        Shape::Leaf(value) => scatter(*value as usize, 0),
        Shape::Test { low, high, .. } => scatter(low.number(), high.number()),
    }
}

/// Returns the number of a shape, or the first free slot of its probe sequence.
fn find(slots: &[u32], shapes: &[Shape], shape: &Shape) -> Found
    requires { IsHashed start_of slots.now shapes.now }
    ensures { IsFound slots.now shapes.now shape.now result }
{
    let start = start(shape);
    for step in 0..slots.len() {
        let place = place(slots.len(), start, step);
        let number = slots[place];
        if number == FREE {
            return Found::Free(place);
        }
        if shapes[number as usize] == *shape {
            return Found::Number(number);
        }
    }
    Found::Nothing
}

/// Appends a new shape, and writes its number into the first free slot of its probe sequence.
fn add(
    shapes: &mut Vec<Shape>,
    slots: &mut [u32],
    shape: Shape,
    place: usize,
) -> Result<u32, AllocError>
    requires hashed { IsHashed start_of slots.old shapes.old.items }
    requires first { IsFirstFree slots.old (start_of shape) place }
    ensures number { IfOk result (λ number. slice_get shapes.new.items number ≡ Some shape) }
    ensures added { OnOk result (shapes.new.items ≡ shapes.old.items ++ shape ∷ []) }
    ensures err { OnErr result (shapes.new.items ≡ shapes.old.items) }
    ensures hashed { IsHashed start_of slots.new shapes.new.items }
{
    let number = shapes.len();
    if number == FREE as usize {
        return Err(AllocError);
    }
    shapes.push(shape)?;
    slots[place] = number as u32;
    Ok(number as u32)
}

/// Distinct shapes, and their numbers in an open-addressing hash table. There are at most 2^32 - 1.
#[derive(Drop)]
pub(crate) struct ShapeTable {
    shapes: Vec<Shape>,
    slots: Vec<u32>,
}

impl Model for ShapeTable {
    ghost use Rattle.std.specs.Prelude.{List};
    ghost use Rattle.letter_diagram.specs.declared.diagrams.Shape.{Shape};
    ghost use Rattle.letter_diagram.specs.OpenTable.{IsHashed};
    ghost use Rattle.letter_diagram.specs.ShapeTable.{start_of};

    ghost Value = { List Shape };

    ghost view = { λ t. t.shapes.items };

    ghost invariant = { λ t. IsHashed start_of t.slots.items t.shapes.items };
}

impl ShapeTable {
    pub(crate) fn new(alloc: Global) -> Self
        ensures { result ≡ [] }
    {
        ShapeTable {
            shapes: Vec::new(alloc),
            slots: Vec::new(alloc),
        }
    }

    /// No shape, with room for so many.
    pub(crate) fn with_capacity(alloc: Global, shapes: usize) -> Result<Self, AllocError>
        ensures { IfOk result (λ table. table ≡ []) }
    {
        Ok(ShapeTable {
            shapes: Vec::with_capacity(alloc, shapes)?,
            slots: vec![in alloc; FREE; slots_for(shapes)?]?,
        })
    }

    /// Returns the allocator of the shapes.
    pub(crate) fn alloc(&self) -> Global {
        *self.shapes.allocator()
    }

    /// Returns the shapes, in the order of their numbers.
    pub(crate) fn as_slice(&self) -> &[Shape]
        ensures { result.now ≡ self.now }
    {
        self.shapes.as_slice()
    }

    /// Copies the table; shapes keep their numbers.
    pub(crate) fn copy(&self) -> Result<Self, AllocError>
        ensures { IfOk result (λ copy. copy ≡ self.now) }
    {
        Ok(ShapeTable {
            shapes: self.shapes.to_vec(self.alloc())?,
            slots: self.slots.to_vec(self.alloc())?,
        })
    }

    /// Returns the number of a shape, and adds it if it is new. If all 2^32 - 1 numbers are in use, a new shape is refused as an
    /// allocation failure.
    pub(crate) fn number(&mut self, shape: Shape) -> Result<u32, AllocError>
        ensures number { IfOk result (λ number. slice_get self.new number ≡ Some shape) }
        ensures adds { AddsShape self.old self.new shape }
        ensures err { OnErr result (self.new ≡ self.old) }
    {
        self.make_room()?;
        let number = self.find_or_add(shape)?;
        Ok(number)
    }

    /// Doubles the slots if half of them are used.
    fn make_room(&mut self) -> Result<(), AllocError>
        ensures { self.new ≡ self.old }
    {
        if self.shapes.len() >= self.slots.len() / 2 {
            let slots = self.grown()?;
            self.slots = slots;
        }
        Ok(())
    }

    /// Returns twice as many slots with the same numbers.
    fn grown(&self) -> Result<Vec<u32>, AllocError>
        ensures { IfOk result (λ slots. IsHashed start_of slots.items self.now) }
    {
        let mut slots = vec![in self.alloc(); FREE; slots_for(self.slots.len())?]?;
        for (number, shape) in self.shapes.iter().enumerate() {
            let from = start(shape);
            let Some(place) = first_free(&slots, from) else {
                return Err(AllocError);
            };
            slots[place] = number as u32;
        }
        Ok(slots)
    }

    /// Returns the number of a shape, and adds it if it is new, in a table with a free slot.
    fn find_or_add(&mut self, shape: Shape) -> Result<u32, AllocError>
        ensures number { IfOk result (λ number. slice_get self.new number ≡ Some shape) }
        ensures adds { AddsShape self.old self.new shape }
        ensures err { OnErr result (self.new ≡ self.old) }
    {
        match find(&self.slots, &self.shapes, &shape) {
            Found::Number(number) => Ok(number),
            Found::Free(place) => {
                let number = add(&mut self.shapes, &mut self.slots, shape, place)?;
                Ok(number)
            }
            Found::Nothing => Err(AllocError),
        }
    }
}
