//! Items and their symbols.

use crate::same::same;
use ion_value::item::{Annotation, Annotations, Head, Item, Sym, SymAt};
use ion_value::names::{Names, NoNames};
use ion_value::quoting::{NameText, bare};
use std::process::Abort;

// Names of one id.
struct OneName;

impl Names for OneName {
    ghost use Rattle.std.specs.Prelude.{Some, None, ◌∷◌, [], nat_eq, if◌then◌else◌};
    ghost use Rattle.std.proofs.Common.{refl};

    // the letters n, a, m and e
    ghost text = { λ _ id. if nat_eq id 10 then Some (110 ∷ 97 ∷ 109 ∷ 101 ∷ []) else None };

    ghost zero = { λ _. refl };

    fn text_of(&self, id: u32) -> Option<&[u8]> {
        if id == 10 { Some(b"name") } else { None }
    }

    fn name_text(&self, id: u32) -> Option<NameText<'_>> {
        if id == 10 { Some(bare(b"name")) } else { None }
    }
}

const ENTRIES: [Annotation; 3] = [
    Annotation::Text {
        from: 1,
        to: 3,
        place: 7,
    },
    Annotation::Id { id: 10, place: 11 },
    Annotation::Id { id: 11, place: 12 },
];

// Asserts what the item has, where the id 10 is given as this.
fn shows<N: Names>(rt: &impl Abort, item: &Item<'_, N>, ten: Sym<'_>) {
    same(rt, item.field(), Some(SymAt { sym: ten, place: 5 }));
    same(
        rt,
        item.head(),
        Head::Symbol(SymAt {
            sym: ten,
            place: 13,
        }),
    );
    same(rt, (item.place(), item.top()), (13, 5));
    let annotations = item.annotations();
    same(rt, (annotations.len(), annotations.is_empty()), (3, false));
    for (index, sym, place) in [(0, Sym::Text(b"bc"), 7), (1, ten, 11), (2, Sym::Id(11), 12)] {
        same(rt, annotations.get(index), Some(SymAt { sym, place }));
    }
    same(rt, annotations.get(3), None);
}

#[test]
fn gives_ids_as_they_are_and_as_their_texts(rt: HostRuntime) {
    let annotations = Annotations::new(&ENTRIES, b"abcd", &NoNames);
    let field = SymAt {
        sym: Sym::Id(10),
        place: 5,
    };
    let head = SymAt {
        sym: Sym::Id(10),
        place: 13,
    };
    let item = Item::new(Some(field), annotations, Head::Symbol(head), 13, 5);
    shows(&rt, &item, Sym::Id(10));
    shows(&rt, &item.with_names(&OneName), Sym::Text(b"name"));
}

#[test]
fn there_may_be_no_annotations_and_no_names(rt: HostRuntime) {
    assert!(rt; Annotations::new(&[], &[], &NoNames).is_empty());
    same(&rt, NoNames.text_of(10), None);
    same(&rt, NoNames.name_text(10), None);
}
