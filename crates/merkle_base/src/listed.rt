//! Iterators whose remaining items a contract can name.
ghost use Rattle.std.specs.Prelude.{◌≡◌, List};
ghost use Rattle.std.specs.Iterator.{YieldsFirst, IsFinite};

/// A finite iterator with a known list of remaining items, which it yields in order.
pub trait Listed: Iterator {
    // the items that are left
    ghost left: { Self → List Self.Item };

    ghost may_go: { (s : Self) → Self.can_next s };

    ghost gives_first: { (s : Self) (r : _) (t : Self) → Self.next_gives s r t → YieldsFirst left s r t };

    ghost ends: { (s : Self) → IsFinite (Self.remaining s) };
}
