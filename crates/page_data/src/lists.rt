//! Lists.
ghost use Rattle.std.specs.Prelude.{true, ◌≡◌, ℕ, List, ◌++◌, OnOk};
ghost use Rattle.std.specs.Fmt.{decimal};
ghost use Rattle.page_data.specs.Json.{list_text, item_texts};

use crate::json::push_gap;
use dn_base::Memory;
use text_pieces::{push, push_decimal, push_long};

/// What may stand in a list.
pub(crate) trait Item {
    ghost written: { Self → List ℕ };

    /// Adds the item.
    fn push_item(&self, out: &mut Vec<u8>) -> Result<(), Memory>
        ensures { OnOk result (out.new.items ≡ out.old.items ++ written self.now) };
}

impl Item for u32 {
    ghost written = { decimal };

    fn push_item(&self, out: &mut Vec<u8>) -> Result<(), Memory> {
        push_decimal(out, *self)
    }
}

impl Item for u64 {
    ghost written = { decimal };

    fn push_item(&self, out: &mut Vec<u8>) -> Result<(), Memory> {
        push_long(out, *self)
    }
}

/// Adds items, with a comma before each but the first.
fn push_items<T: Item>(out: &mut Vec<u8>, items: &[T]) -> Result<(), Memory>
    ensures { OnOk result (out.new.items ≡ out.old.items ++ item_texts T.written true items.now) }
{
    let mut first = true;
    for item in items {
        push_gap(out, first)?;
        item.push_item(out)?;
        first = false;
    }
    Ok(())
}

/// Adds a list.
#[tactic(auto, unfolding(crate::specs::Json::list_text))]
pub(crate) fn push_list<T: Item>(out: &mut Vec<u8>, items: &[T]) -> Result<(), Memory>
    ensures { OnOk result (out.new.items ≡ out.old.items ++ list_text T.written items.now) }
{
    push(out, b"[")?;
    push_items(out, items)?;
    push(out, b"]")
}

/// Adds a list after its name.
pub(crate) fn push_named_list<T: Item>(
    out: &mut Vec<u8>,
    name: &[u8],
    items: &[T],
) -> Result<(), Memory>
    ensures { OnOk result (out.new.items ≡ out.old.items ++ (name.now ++ list_text T.written items.now)) }
{
    push(out, name)?;
    push_list(out, items)
}
