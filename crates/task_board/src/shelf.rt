//! Values kept under numbers.
ghost use Rattle.std.specs.Prelude.{◌≡◌, ◌≢◌, ℕ, ◌+◌, ◌<◌, [], None, Some, IfOk, OnErr, OnOk, vec_len, vec_capacity};
ghost use Rattle.std.specs.Option.{option_copied};
ghost use Rattle.task_board.specs.Numbers.{kept_at, put_at};

use std::alloc::{AllocError, Global};

/// Values under numbers, counted from 1. A value that was taken away leaves its number empty.
#[derive(Drop)]
pub struct Shelf<T> {
    pub places: Vec<Option<T>>,
}

impl<T: Drop> Shelf<T> {
    pub fn new(alloc: Global) -> Shelf<T>
        ensures { result.places.items ≡ [] }
    {
        Shelf {
            places: Vec::new(alloc),
        }
    }

    /// Takes the room for one more value.
    pub fn reserve(&mut self) -> Result<(), AllocError>
        ensures room { OnOk result (vec_len self.new.places < vec_capacity self.new.places) }
        ensures same { self.new.places.items ≡ self.old.places.items }
    {
        self.places.reserve(1)?;
        Ok(())
    }

    /// Keeps a value under the next number, for which there is room.
    pub fn put_reserved(&mut self, value: T) -> u32
        requires few { vec_len self.old.places < 4294967295 }
        requires room { vec_len self.old.places < vec_capacity self.old.places }
        ensures number { result ≡ vec_len self.new.places }
        ensures more { vec_len self.new.places ≡ vec_len self.old.places + 1 }
        ensures fresh { kept_at self.old.places.items result ≡ None }
        ensures kept { kept_at self.new.places.items result ≡ Some value }
        ensures others { (k : ℕ) → k ≢ result
            → kept_at self.new.places.items k ≡ kept_at self.old.places.items k }
    {
        self.places.push(Some(value)).unwrap();
        self.places.len() as u32
    }

    /// Keeps a value under the next number.
    pub fn put(&mut self, value: T) -> Result<u32, AllocError>
        requires { vec_len self.old.places < 4294967295 }
        ensures number { IfOk result (λ n. (n ≡ vec_len self.new.places)
            × (vec_len self.new.places ≡ vec_len self.old.places + 1)) }
        ensures fresh { IfOk result (λ n. kept_at self.old.places.items n ≡ None) }
        ensures kept { IfOk result (λ n. kept_at self.new.places.items n ≡ Some value) }
        ensures others { IfOk result (λ n. (k : ℕ) → k ≢ n
            → kept_at self.new.places.items k ≡ kept_at self.old.places.items k) }
        ensures err { OnErr result (self.new.places.items ≡ self.old.places.items) }
    {
        self.reserve()?;
        Ok(self.put_reserved(value))
    }

    /// The value under a number.
    pub fn get(&self, number: u32) -> Option<&T>
        ensures { option_copied result ≡ kept_at self.now.places.items number }
    {
        match number.checked_sub(1) {
            Some(place) => match self.places.get(place as usize) {
                Some(value) => value.as_ref(),
                None => None,
            },
            None => None,
        }
    }

    /// Takes the value under a number away.
    pub fn remove(&mut self, number: u32) -> Option<T>
        ensures value { result ≡ kept_at self.old.places.items number }
        ensures gone { kept_at self.new.places.items number ≡ None }
        ensures others { (k : ℕ) → k ≢ number
            → kept_at self.new.places.items k ≡ kept_at self.old.places.items k }
        ensures number { vec_len self.new.places ≡ vec_len self.old.places }
    {
        match number.checked_sub(1) {
            Some(place) => match self.places.get_mut(place as usize) {
                Some(value) => value.take(),
                None => None,
            },
            None => None,
        }
    }
}
