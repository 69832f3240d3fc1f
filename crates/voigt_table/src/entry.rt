ghost use Rattle.std.specs.Prelude.{◌≤◌};
ghost use Rattle.std.specs.Option.{ForSome};

/// An entry: the numbers of its blocks, 1 to 6.
#[derive(Clone, Copy)]
pub struct Entry {
    pub first: Option<u8>,
    pub last: u8,
    ghost small_first: { ForSome first (λ n. n ≤ 6) },
    ghost small_last: { last ≤ 6 },
}
