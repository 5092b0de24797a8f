//! What C holds of a catalogue that was loaded.
ghost use Rattle.std.specs.Prelude.{◌≡◌, List, [], MatchOption};
ghost use Rattle.std.specs.Arc.{arc_value};
ghost use Rattle.ion_symbols.specs.Table.{Shared};
ghost use Rattle.cozgelt_c.specs.Handles.{owns_tables};

use crate::loose::Loose;
use ion_symbols::catalog::Catalog;
use std::alloc::Global;
use std::marker::Model;
use std::sync::Arc;
use std::{mem, ptr};

/// One owner of the tables of a catalogue, of any number. It is null where there are no tables.
///
/// C has the struct, and what it points to only this library reads. A `Box` or an `Arc` cannot stand in a
/// struct that C has, so its type is forgotten; `also_owns` says what is there.
#[repr(C)]
pub struct CozgeltCatalog {
    at: *mut u8,
    /// The tables.
    pub ghost tables: { List Shared },
}

impl Model for CozgeltCatalog {
    ghost also_owns = { λ c. owns_tables c.at c.tables };
}

unsafe impl Send for CozgeltCatalog {}

impl CozgeltCatalog {
    /// One without tables.
    fn empty() -> CozgeltCatalog
        ensures { result.tables ≡ [] }
    {
        CozgeltCatalog {
            at: ptr::null_mut(),
        }
    }

    fn of(loose: Loose<Arc<Catalog<Global>>, Global>) -> CozgeltCatalog
        ensures { result.tables ≡ arc_value loose.value }
    {
        let Loose { at, alloc: _ } = loose;
        CozgeltCatalog { at: at as *mut u8 }
    }

    fn into_loose(self, alloc: Global) -> Option<Loose<Arc<Catalog<Global>>, Global>>
        ensures { MatchOption result (self.tables ≡ [])
            (λ loose. self.tables ≡ arc_value loose.value) }
    {
        let CozgeltCatalog { at } = self;
        if at.is_null() {
            None
        } else {
            Some(Loose {
                at: at as *mut Arc<Catalog<Global>>,
                alloc,
            })
        }
    }

    /// Takes the owner out, if there are tables, and leaves none.
    pub(crate) fn take(&mut self, alloc: Global) -> Option<Box<Arc<Catalog<Global>>>>
        ensures none { self.new.tables ≡ [] }
        ensures taken { MatchOption result (self.old.tables ≡ [])
            (λ owner. self.old.tables ≡ arc_value owner.value) }
    {
        match mem::replace(self, CozgeltCatalog::empty()).into_loose(alloc) {
            None => None,
            Some(loose) => Some(loose.into_box()),
        }
    }

    /// Puts an owner in, and gives back the one that was there.
    pub(crate) fn put(&mut self, alloc: Global, owner: Box<Arc<Catalog<Global>>>)
        ensures { self.new.tables ≡ arc_value owner.value }
    {
        let _former = self.take(alloc);
        let none = mem::replace(self, CozgeltCatalog::of(Loose::of(owner)));
        none.release(alloc);
    }

    fn release(self, alloc: Global) {
        if let Some(loose) = self.into_loose(alloc) {
            drop(loose.into_box());
        }
    }
}
