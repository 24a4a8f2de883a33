//! Lists of plain values.

ghost use Rattle.std.specs.Prelude.{◌≡◌};

use std::marker::Model;

/// A `Vec` of plain values that contracts see as the list of them.
#[derive(Debug, Drop)]
pub struct Values<T> {
    items: Vec<T>,
}

impl<T> Model for Values<T> {
    ghost use Rattle.std.specs.Prelude.{List};
    ghost use Rattle.std.specs.Coded.{coded_list};

    ghost Value = { List T };

    ghost coded = { coded_list T.code };

    ghost view = { λ values. values.items.items };
}

impl<T> Values<T> {
    pub fn from_vec(items: Vec<T>) -> Values<T>
        ensures { result ≡ items.items }
    {
        Values { items }
    }

    pub fn as_slice(&self) -> &[T]
        ensures { result.now ≡ self.now }
    {
        self.items.as_slice()
    }
}
