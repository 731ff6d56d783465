// Objects under names. One that is lent keeps its place.
ghost use Rattle.std.specs.Prelude.{[], ◌≡◌, ◌≢◌, ◌⊎◌, ◌<◌, List, ℕ, MatchBool, IsSome, IfOk, IfSome, IfNone, OnSome, OnErr, OnOk, Some, None, length, vec_len};
ghost use Rattle.std.specs.List.{position};
ghost use Rattle.std.specs.Str.{bytes_eq};
ghost use Rattle.ps_io.specs.Shelf.{at};

use ps_base::Memory;
use ps_types::Text;
use std::alloc::Global;

/// A place under a name, which holds something or is free.
#[derive(Drop)]
pub struct Slot<T> {
    pub name: Text,
    pub held: Option<T>,
}

/// Things by their names, in the order in which they came.
#[derive(Drop)]
pub struct Shelf<T> {
    pub slots: Vec<Slot<T>>,
}

fn place_of<T>(slots: &Vec<Slot<T>>, name: &Text) -> Option<usize>
    ensures { result ≡ position (λ slot. bytes_eq slot.name name.now) slots.now.items }
{
    slots.iter().position(|slot| slot.name == *name)
}

fn copy_of(name: &Text) -> Result<Text, Memory>
    ensures { IfOk result (λ t. t ≡ name.now) }
{
    Ok(name.clone()?)
}

impl<T> Shelf<T> {
    /// A shelf with no place.
    pub fn new(alloc: Global) -> Shelf<T>
        ensures { result.slots.items ≡ [] }
    {
        Shelf {
            slots: Vec::new(alloc),
        }
    }

    /// Lends what stands under the name, if it is there.
    pub fn take(&mut self, name: &Text) -> Option<T>
        ensures taken { IfSome result (λ x. at self.old.slots.items name.now ≡ Some (Some x)) }
        ensures none { IfNone result (self.new.slots.items ≡ self.old.slots.items) }
        ensures absent { IfNone result
            ((at self.old.slots.items name.now ≡ None) ⊎ (at self.old.slots.items name.now ≡ Some None)) }
        ensures lent { OnSome result (at self.new.slots.items name.now ≡ Some None) }
        ensures others { (n : List ℕ) → n ≢ name.now → at self.new.slots.items n ≡ at self.old.slots.items n }
    {
        let place = place_of(&self.slots, name)?;
        let slot = &mut self.slots[place];
        slot.held.take()
    }

    /// Whether the name has a place.
    pub fn has(&self, name: &Text) -> bool
        ensures { MatchBool result (IsSome (at self.now.slots.items name.now))
            (at self.now.slots.items name.now ≡ None) }
    {
        match place_of(&self.slots, name) {
            Some(_) => true,
            None => false,
        }
    }

    /// Takes back what was lent under the name.
    pub fn give_back(&mut self, name: &Text, object: T)
    where
        T: Drop,
        requires { at self.old.slots.items name.now ≡ Some None }
        ensures here { at self.new.slots.items name.now ≡ Some (Some object) }
        ensures others { (n : List ℕ) → n ≢ name.now → at self.new.slots.items n ≡ at self.old.slots.items n }
    {
        let place = place_of(&self.slots, name).unwrap();
        let slot = &mut self.slots[place];
        slot.held = Some(object);
    }

    /// Puts an object under the name, in the place of one that is there.
    pub fn put(&mut self, alloc: Global, name: &Text, object: T) -> Result<(), Memory>
    where
        T: Drop,
        ensures here { OnOk result (at self.new.slots.items name.now ≡ Some (Some object)) }
        ensures others { (n : List ℕ) → n ≢ name.now → at self.new.slots.items n ≡ at self.old.slots.items n }
        ensures err { OnErr result (self.new.slots.items ≡ self.old.slots.items) }
    {
        match place_of(&self.slots, name) {
            Some(place) => {
                let slot = &mut self.slots[place];
                slot.held = Some(object);
                Ok(())
            }
            None => {
                let name = copy_of(name)?;
                let slot = Slot {
                    name,
                    held: Some(object),
                };
                Ok(self.slots.push(slot)?)
            }
        }
    }

    /// What stands under the name, unless it is lent.
    pub fn get(&self, name: &Text) -> Option<&T>
        ensures some { IfSome result (λ x. at self.now.slots.items name.now ≡ Some (Some x.now)) }
        ensures none { IfNone result
            ((at self.now.slots.items name.now ≡ None) ⊎ (at self.now.slots.items name.now ≡ Some None)) }
    {
        let place = place_of(&self.slots, name)?;
        self.slots[place].held.as_ref()
    }
}
