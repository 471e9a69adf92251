use std::alloc::Global;
use std::marker::Model;

/// The values of a syntax element that stands several times, in their order.
#[derive(Debug, Drop)]
pub struct Elements<T> {
    items: Vec<T>,
}

impl<T> Model for Elements<T> {
    ghost use Rattle.std.specs.Prelude.{List};
    ghost use Rattle.std.specs.Coded.{coded_list};

    ghost Value = { List T };

    ghost coded = { coded_list T.code };

    ghost view = { λ e. e.items.items };
}

impl<T> Elements<T> {
    ghost use Rattle.std.specs.Prelude.{◌≡◌, []};

    /// No items.
    pub fn empty(alloc: Global) -> Self
        ensures { result ≡ [] }
    {
        Elements {
            items: Vec::new(alloc),
        }
    }

    /// The items of a vector.
    pub fn new(items: Vec<T>) -> Self
        ensures { result ≡ items.items }
    {
        Elements { items }
    }

    /// The items.
    pub fn as_slice(&self) -> &[T]
        ensures { result.now ≡ self.now }
    {
        self.items.as_slice()
    }

    /// The vector of the items.
    pub fn into_vec(self) -> Vec<T>
        ensures { result.items ≡ self }
    {
        self.items
    }
}
