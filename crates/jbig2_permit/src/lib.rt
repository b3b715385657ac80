//! The permission to make a counter of steps. `crates.txt` lists this crate only for crates that call whole kernels.
//! A kernel can't name it, so it counts its steps in the counter that it is given.
#![tactic(auto)]

/// The permission to make one counter.
#[derive(Drop)]
pub struct Permit {
    granted: (),
}

impl Permit {
    /// A permit for one counter.
    pub fn grant() -> Permit {
        Permit { granted: () }
    }
}
