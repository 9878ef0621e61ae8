//! A set of pairs of states.
use std::alloc::{AllocError, Global};

/// Pairs of an old state and a new one: a flag for each pair that there is.
#[derive(Drop)]
pub(crate) struct PairSet {
    columns: u16,
    flags: Vec<bool>,
}

impl PairSet {
    /// Every pair of so many old and new states.
    pub(crate) fn every(heap: Global, rows: u16, columns: u16) -> Result<PairSet, AllocError> {
        let pairs = usize::from(rows) * usize::from(columns);
        Ok(PairSet {
            columns,
            flags: vec![in heap; true; pairs]?,
        })
    }

    /// Where the flag of the pair stands.
    fn place(&self, pair: (u16, u16)) -> usize {
        let (row, column) = pair;
        usize::from(row) * usize::from(self.columns) + usize::from(column)
    }

    /// Whether the pair, of states that there are, is in the set.
    pub(crate) fn contains(&self, pair: (u16, u16)) -> bool {
        self.flags.get(self.place(pair)).copied().unwrap_or(false)
    }

    /// Takes the pair out of the set.
    pub(crate) fn remove(&mut self, pair: (u16, u16)) {
        let place = self.place(pair);
        if let Some(flag) = self.flags.get_mut(place) {
            *flag = false;
        }
    }

    /// How many pairs are in the set.
    pub(crate) fn len(&self) -> usize {
        self.flags.iter().filter(|flag| **flag).count()
    }
}
