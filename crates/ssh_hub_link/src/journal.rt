// A list that is kept, or not.
ghost use Rattle.std.specs.Prelude.{◌≡◌, List, Option, Some, None, OnOk, OnErr, IfErr};
ghost use Rattle.std.specs.Option.{option_map, is_some};
ghost use Rattle.ssh_link.specs.declared.link.LinkFault.TheVariants.{NoMemory};
ghost use Rattle.ssh_link.specs.Told.{AddsOne};
ghost use Rattle.ssh_hub_link.specs.Journals.{begun, items_of, listed};

use ssh_link::LinkFault;
use std::alloc::Global;
use std::marker::Model;

// A list that is kept, or not. A clause sees the list, or none where none is kept.
#[derive(Drop)]
pub struct Journal<T> {
    items: Option<Vec<T>>,
}

impl<T> Model for Journal<T> {
    ghost use Rattle.std.specs.Prelude.{List, Option};
    ghost use Rattle.ssh_hub_link.specs.Journals.{items_of};

    ghost Value = { Option (List T) };

    ghost view = { λ j. items_of (λ v. v.items) j.items };
}

impl<T: Drop> Journal<T> {
    // Nothing yet.
    pub fn new(alloc: Global, keeps: bool) -> Journal<T>
        ensures { result ≡ begun keeps }
    {
        if keeps {
            Journal {
                items: Some(Vec::new(alloc)),
            }
        } else {
            Journal { items: None }
        }
    }

    // Whether it keeps what it is told.
    pub fn keeps(&self) -> bool
        ensures { result ≡ is_some self.now }
    {
        self.items.is_some()
    }

    // What it keeps, in order.
    pub fn as_slice(&self) -> &[T]
        ensures { result.now ≡ listed self.now }
    {
        match &self.items {
            Some(items) => items.as_slice(),
            None => &[],
        }
    }

    // Adds the item, where it keeps any. `NoMemory` is the only error.
    pub fn add(&mut self, item: T) -> Result<(), LinkFault>
        ensures ok { OnOk result (AddsOne self.old self.new item) }
        ensures err { OnErr result (self.new ≡ self.old) }
        ensures memory { IfErr result (λ e. e ≡ NoMemory) }
    {
        let Some(items) = &mut self.items else {
            drop(item);
            return Ok(());
        };
        if items.push(item).is_err() {
            return Err(LinkFault::NoMemory);
        }
        Ok(())
    }

    // Takes back what was added last.
    pub fn undo(&mut self)
        ensures { (items : Option (List T)) (item : T) → AddsOne items self.old item
            → self.new ≡ items }
    {
        if let Some(items) = &mut self.items {
            drop(items.pop());
        }
    }
}

// Puts the item there. What was there is dropped, whatever it is.
pub fn put<T: Drop>(place: &mut Option<T>, item: T)
    ensures { place.new ≡ Some item }
{
    *place = Some(item);
}
