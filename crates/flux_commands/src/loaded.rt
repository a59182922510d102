//! A sound program with items of it.

ghost use Rattle.std.specs.Prelude.{◌≡◌, ◌≤◌, ◌++◌, ◌∷◌, [], IfOk, IfErr};
ghost use Rattle.flux_model.specs.Kinds.{kinds_at};
ghost use Rattle.flux_hoist.specs.Sets.{held_by};
ghost use Rattle.flux_items.specs.Items.{AreItemsOf};
ghost use Rattle.flux_commands.specs.Told.{Files};
ghost use Rattle.flux_commands.specs.Origins.{named, made};
ghost use Rattle.flux_commands.specs.Items.{rules_of};
ghost use Rattle.flux_commands.specs.steps.Refusals.{Counts};
ghost use Rattle.flux_commands.specs.steps.Running.{HasSources, AreRefused};
ghost use Rattle.flux_commands.specs.steps.Loading.{IsCheckedFile, IsUnchecked, IsLoaded, IsUnloaded, AsksTwo};

use crate::files::{ITEMS_FILE_LIMIT, PROGRAM_FILE_LIMIT, load};
use crate::refusals::Refusal;
use crate::rules::rules_for;
use crate::texts::check_text;
use flux_hoist::Checked;
use flux_items::read_items;
use flux_library::Library;
use flux_model::Item;
use flux_outside::Store;
use flux_values::List;
use std::alloc::Global;

/// A sound program, with items of it.
#[derive(Drop)]
pub struct Loaded {
    pub checked: Checked,
    pub items: List<Item>,
}

/// The items of a text.
fn items_of<'a>(alloc: Global, checked: &Checked, text: &[u8]) -> Result<List<Item>, Refusal<'a>>
    requires { HasSources checked.now.program (held_by checked.now.sets.nodes) checked.now.sizes }
    ensures items { let rules = rules_of checked.now.program (kinds_at checked.now.sigs.nodes)
        (held_by checked.now.sets.nodes) in IfOk result (λ items. AreItemsOf rules items text.now) }
    ensures refused { let rules = rules_of checked.now.program (kinds_at checked.now.sigs.nodes)
        (held_by checked.now.sets.nodes) in IfErr result (AreRefused rules text.now) }
{
    let rules = rules_for(alloc, checked)?;
    Ok(read_items(alloc, text, &rules)?)
}

/// The checked program of a file.
pub fn load_program<'a, L: Library, S: Store>(
    alloc: Global,
    library: &L,
    store: &mut S,
    file: &'a [u8],
) -> Result<Checked, Refusal<'a>>
    ensures kept { S.files store.new ≡ S.files store.old }
    ensures later { S.faults store.old ≤ S.faults store.new }
    ensures asked { S.asked store.new ≡ S.asked store.old ++ file.now ∷ [] }
    ensures checked { IfOk result (IsCheckedFile (L.meaning library.now) (S.files store.old) file.now) }
    ensures refused { IfErr result (IsUnchecked (L.meaning library.now) (S.files store.old) file.now) }
    ensures counts { Counts result (S.faults store.old) (S.faults store.new) }
{
    let text = load(alloc, store, file, PROGRAM_FILE_LIMIT)?;
    check_text(alloc, library, text.as_bytes())
}

/// The program and the items of two files.
pub fn load_files<'a, L: Library, S: Store>(
    alloc: Global,
    library: &L,
    store: &mut S,
    file: &'a [u8],
    items: &'a [u8],
) -> Result<Loaded, Refusal<'a>>
    ensures kept { S.files store.new ≡ S.files store.old }
    ensures later { S.faults store.old ≤ S.faults store.new }
    ensures asked { AsksTwo (L.meaning library.now) (S.files store.old) file.now items.now
        (S.asked store.old) (S.asked store.new) }
    ensures both { IfOk result (λ _. S.asked store.new
        ≡ S.asked store.old ++ file.now ∷ items.now ∷ []) }
    ensures loaded { IfOk result (IsLoaded (L.meaning library.now) (S.files store.old)
        (named file.now) (named items.now)) }
    ensures refused { IfErr result (IsUnloaded (L.meaning library.now) (S.files store.old)
        (named file.now) (named items.now)) }
    ensures counts { Counts result (S.faults store.old) (S.faults store.new) }
{
    let checked = load_program(alloc, library, store, file)?;
    let items_text = load(alloc, store, items, ITEMS_FILE_LIMIT)?;
    let items = items_of(alloc, &checked, items_text.as_bytes())?;
    Ok(Loaded { checked, items })
}

/// The program and the items of two texts.
pub fn load_texts<'a, L: Library>(
    alloc: Global,
    library: &L,
    text: &[u8],
    items_text: &[u8],
) -> Result<Loaded, Refusal<'a>>
    ensures loaded { (told : Files) → IfOk result (IsLoaded (L.meaning library.now) told (made text.now) (made items_text.now)) }
    ensures refused { (told : Files) → IfErr result (IsUnloaded (L.meaning library.now) told (made text.now) (made items_text.now)) }
{
    let checked = check_text(alloc, library, text)?;
    let items = items_of(alloc, &checked, items_text)?;
    Ok(Loaded { checked, items })
}
