//! The values of tables: a count, or the mere presence of a key.

use pj_pmap::{Memory, Share};

/// How often a key is counted.
#[derive(Clone, Copy, Debug, PartialEq, Eq)]
pub struct Count {
    pub count: u128,
}

impl Share for Count {
    ghost shown = { λ n. n };

    fn share(&self) -> Result<Count, Memory> {
        Ok(*self)
    }
}

/// What a map has beside a key that says all.
#[derive(Clone, Copy, Debug, PartialEq, Eq)]
pub struct Here;

impl Share for Here {
    ghost shown = { λ h. h };

    fn share(&self) -> Result<Here, Memory> {
        Ok(Here)
    }
}
