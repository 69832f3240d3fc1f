//! Tensor ranks as types.
ghost use Rattle.std.specs.Prelude.{◌≡◌, ℕ, ◌^◌, ◌<◌, ◌≤◌, refl, length};
ghost use Rattle.std.proofs.Common.{lit≤};
ghost use Rattle.tensor_defs.specs.Tensor.{Index, component_number, index_of};
ghost use Rattle.tensor_rank.specs.IndexLaws.{index_number_at, number_index_at};

/// A tensor rank.
pub trait Rank: Copy {
    /// The number of indices.
    ghost R: { ℕ };

    const R: usize;

    /// The number of components.
    ghost LEN: { ℕ };

    const LEN: usize;

    ghost small: { R ≤ 6 };

    ghost fits: { LEN ≤ 729 };

    ghost power: { LEN ≡ 3 ^ R };

    /// The number of a component's indices is the component's.
    ghost from_number: { (c : ℕ) → c < LEN → component_number (index_of R c) ≡ c };

    /// The indices of a component's number are the component's.
    ghost from_index: { (is : Index) → length is ≡ R → index_of R (component_number is) ≡ is };
}

/// Rank 0.
#[derive(Clone, Copy, Debug, PartialEq, Eq)]
pub struct R0;

impl Rank for R0 {
    ghost R = { 0 };

    const R: usize = 0;

    ghost LEN = { 1 };

    const LEN: usize = 1;

    ghost small = { lit≤ tt };

    ghost fits = { lit≤ tt };

    ghost power = { refl };

    ghost from_number = { number_index_at 0 };

    ghost from_index = { index_number_at 0 };
}

/// Rank 1.
#[derive(Clone, Copy, Debug, PartialEq, Eq)]
pub struct R1;

impl Rank for R1 {
    ghost R = { 1 };

    const R: usize = 1;

    ghost LEN = { 3 };

    const LEN: usize = 3;

    ghost small = { lit≤ tt };

    ghost fits = { lit≤ tt };

    ghost power = { refl };

    ghost from_number = { number_index_at 1 };

    ghost from_index = { index_number_at 1 };
}

/// Rank 2.
#[derive(Clone, Copy, Debug, PartialEq, Eq)]
pub struct R2;

impl Rank for R2 {
    ghost R = { 2 };

    const R: usize = 2;

    ghost LEN = { 9 };

    const LEN: usize = 9;

    ghost small = { lit≤ tt };

    ghost fits = { lit≤ tt };

    ghost power = { refl };

    ghost from_number = { number_index_at 2 };

    ghost from_index = { index_number_at 2 };
}

/// Rank 3.
#[derive(Clone, Copy, Debug, PartialEq, Eq)]
pub struct R3;

impl Rank for R3 {
    ghost R = { 3 };

    const R: usize = 3;

    ghost LEN = { 27 };

    const LEN: usize = 27;

    ghost small = { lit≤ tt };

    ghost fits = { lit≤ tt };

    ghost power = { refl };

    ghost from_number = { number_index_at 3 };

    ghost from_index = { index_number_at 3 };
}

/// Rank 4.
#[derive(Clone, Copy, Debug, PartialEq, Eq)]
pub struct R4;

impl Rank for R4 {
    ghost R = { 4 };

    const R: usize = 4;

    ghost LEN = { 81 };

    const LEN: usize = 81;

    ghost small = { lit≤ tt };

    ghost fits = { lit≤ tt };

    ghost power = { refl };

    ghost from_number = { number_index_at 4 };

    ghost from_index = { index_number_at 4 };
}

/// Rank 5.
#[derive(Clone, Copy, Debug, PartialEq, Eq)]
pub struct R5;

impl Rank for R5 {
    ghost R = { 5 };

    const R: usize = 5;

    ghost LEN = { 243 };

    const LEN: usize = 243;

    ghost small = { lit≤ tt };

    ghost fits = { lit≤ tt };

    ghost power = { refl };

    ghost from_number = { number_index_at 5 };

    ghost from_index = { index_number_at 5 };
}

/// Rank 6.
#[derive(Clone, Copy, Debug, PartialEq, Eq)]
pub struct R6;

impl Rank for R6 {
    ghost R = { 6 };

    const R: usize = 6;

    ghost LEN = { 729 };

    const LEN: usize = 729;

    ghost small = { lit≤ tt };

    ghost fits = { lit≤ tt };

    ghost power = { refl };

    ghost from_number = { number_index_at 6 };

    ghost from_index = { index_number_at 6 };
}
