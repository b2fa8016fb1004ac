// Rows of parts that stay in a tree.

ghost use Rattle.std.specs.Prelude.{◌≡◌};

/// The same items, in no more memory than they take: a tree is kept, and most of its rows have one item or two.
pub(crate) fn fitted<T>(items: Vec<T>) -> Vec<T>
    ensures { result.items ≡ items.items }
{
    let mut items = items;
    items.shrink_to_fit();
    items
}
