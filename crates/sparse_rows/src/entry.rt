//! Rows, as lists of the unknowns at which they aren't 0.
use exact_frac::Frac;
use smallvec::SmallVec;
use thiserror::Error;

/// An unknown, by its place in the order of the unknowns, with its fraction.
#[derive(Clone, Copy, Debug)]
pub struct Entry {
    pub unknown: usize,
    pub value: Frac,
}

impl Default for Entry {
    fn default() -> Entry {
        Entry {
            unknown: 0,
            value: Frac::zero(),
        }
    }
}

/// A row: the unknowns at which it isn't 0, rising.
#[derive(Debug, Drop)]
pub struct Row {
    pub entries: SmallVec<Entry, 4>,
}

/// A row that is kept, with its pivot.
#[derive(Debug, Drop)]
pub struct KeptRow {
    pub pivot: usize,
    pub entries: Vec<Entry>,
}

/// A pivot, as a sum of free unknowns with fractions other than 0.
#[derive(Debug, Drop)]
pub struct PivotSum {
    pub pivot: usize,
    pub terms: Vec<Entry>,
}

/// Why an elimination has no answer.
#[derive(Clone, Copy, Debug, PartialEq, Eq, Drop, Error)]
pub enum EliminateFault {
    #[error("a fraction of the elimination reaches 2^62")]
    TooLarge,
    #[error("out of memory")]
    NoMemory,
}

/// There isn't enough memory.
#[derive(Clone, Copy, Debug, PartialEq, Eq, Drop)]
pub struct NoMemory;
