// Tests of the crate `records`, in a crate of their own: a crate is proved once more with its tests.
#![tactic(auto)]

#[cfg(test)]
mod tests;
