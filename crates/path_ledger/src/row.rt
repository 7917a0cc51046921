//! Activations in a row, which may leave at either end.

ghost use Rattle.std.specs.Prelude.{◌≡◌, ◌+◌, ◌<◌, ◌≤◌, [], ◌∷◌, ◌++◌, ℕ, length, drop, slice_index_or, vec_capacity, IfOk};
ghost use Rattle.std.specs.List.{remove};

use path_model::{Activation, OutOfMemory};
use std::alloc::Allocator;
use std::marker::Model;

/// Activations, in order, behind a gap that those which left at the front have left free.
#[derive(Drop)]
pub struct Row<A: Allocator + Copy> {
    places: Vec<Activation, A>,
    gap: usize,
    room: u32,
}

impl<A: Allocator + Copy> Model for Row<A> {
    ghost use Rattle.std.specs.Prelude.{drop, vec_capacity};
    ghost use Rattle.path_ledger.specs.Inner.Rows.{RowValue, IsRow};

    ghost Value = { RowValue };

    ghost view = { λ r. record { items = drop r.gap r.places.items; room = r.room } };

    ghost invariant = { λ r. IsRow r.places.items r.gap r.room (vec_capacity r.places) };
}

/// Closes the gap if it is longer than what is behind it, and returns how long the gap is then.
fn close_gap<A: Allocator + Copy>(places: &mut Vec<Activation, A>, gap: usize) -> usize
    requires { gap ≤ length places.old.items }
    ensures items { drop result places.new.items ≡ drop gap places.old.items }
    ensures short { result + result ≤ length places.new.items }
    ensures capacity { vec_capacity places.new ≡ vec_capacity places.old }
{
    let count = places.len() - gap;
    if gap <= count {
        return gap;
    }
    places.copy_within(gap.., 0);
    places.truncate(count);
    0
}

impl<A: Allocator + Copy> Row<A> {
    /// An empty row for at most `room` activations. Allocates two places for each of them now, so no later call allocates. Fails
    /// only if allocation fails.
    pub fn with_room(alloc: A, room: u32) -> Result<Row<A>, OutOfMemory>
        ensures { IfOk result (λ r. r ≡ record { items = []; room = room }) }
    {
        let places = Vec::with_capacity(alloc, 2 * room as usize)?;
        Ok(Row {
            places,
            gap: 0,
            room,
        })
    }

    /// A row of these activations, for at most `room`. Allocates as [`with_room`](Row::with_room) does. Fails only if allocation fails.
    pub fn holding(alloc: A, room: u32, items: &[Activation]) -> Result<Row<A>, OutOfMemory>
        requires { length items.now ≤ room }
        ensures { IfOk result (λ r. r ≡ record { items = items.now; room = room }) }
    {
        let mut row = Row::with_room(alloc, room)?;
        for activation in items {
            row.push(*activation);
        }
        Ok(row)
    }

    /// Appends an activation; fewer than `room` must be in the row. Now and then it moves all of them, but never more than have left
    /// at the front since it did so last.
    pub fn push(&mut self, activation: Activation)
        requires { length self.old.items < self.old.room }
        ensures items { self.new.items ≡ self.old.items ++ activation ∷ [] }
        ensures len { length self.new.items ≡ length self.old.items + 1 }
        ensures room { self.new.room ≡ self.old.room }
    {
        self.gap = close_gap(&mut self.places, self.gap);
        self.places.push_reserved(activation);
    }

    /// Removes and returns the activation at this index. The others keep their order. The cost is that of moving those before it or
    /// those behind it, whichever are fewer; so the last one moves none.
    #[inline(always)]
    pub fn remove(&mut self, index: usize) -> Activation
        requires { index < length self.old.items }
        ensures value { result ≡ slice_index_or self.old.items index result }
        ensures others { self.new.items ≡ remove self.old.items index }
        ensures len { length self.new.items + 1 ≡ length self.old.items }
        ensures room { self.new.room ≡ self.old.room }
    {
        let place = self.gap + index;
        if place + 1 == self.places.len() {
            return self.places.pop().unwrap();
        }
        if index < self.places.len() - place {
            let removed = self.places[place];
            self.places.copy_within(self.gap..place, self.gap + 1);
            self.gap += 1;
            removed
        } else {
            self.places.remove(place)
        }
    }

    /// The activations, in order.
    pub fn as_slice(&self) -> &[Activation]
        ensures { result.now ≡ self.now.items }
    {
        &self.places[self.gap..]
    }
}
